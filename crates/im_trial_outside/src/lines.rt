use im_cmd_lines::{
    Ending, send_ending_line, send_generation_line, send_instruction, send_run_lines,
};
use im_io::{Failed, MemSink};
use im_rv::Went;
use im_trial::{Case, Row, Stop};

/// Room of a sink, in bytes.
const ROOM: u32 = 1000;

/// Tells whether all was sent, where it wasn't, and what was written.
pub(crate) fn tell_sent(sent: Result<(), Failed>, sink: &MemSink, case: &mut Case) {
    if sent.is_err() {
        case.say(" failed");
    }
    case.bytes(sink.contents());
}

/// A sink with room for so many bytes, of whose writes one fails where its number isn't 0.
pub(crate) fn sink_with(room: u32, failing: u32, case: &mut Case) -> Option<MemSink> {
    match MemSink::new(case.alloc, room as usize, &[u64::from(failing)]) {
        Ok(sink) => Some(sink),
        Err(_) => {
            case.end(Stop::Memory);
            None
        }
    }
}

/// A sink that takes all that is told here.
pub(crate) fn sink(case: &mut Case) -> Option<MemSink> {
    sink_with(ROOM, 0, case)
}

/// `shown`, a word: its text.
pub(crate) fn shown(row: &Row<'_>, case: &mut Case) {
    let word = case.hex(row.name());
    if let Some(mut sink) = sink(case) {
        tell_sent(send_instruction(&mut sink, word), &sink, case);
    }
}

fn went_of(text: &str, case: &mut Case) -> Went {
    match text {
        "On" => Went::On,
        "Halted" => Went::Halted,
        _ => Went::Faulted(case.hex(text)),
    }
}

/// `run-lines`, a name, how the run went (On, Halted or the pc of a fault), the reason: the lines
/// of a run with status -7, 3 commits and 42 instructions.
pub(crate) fn run_lines(row: &Row<'_>, case: &mut Case) {
    let went = went_of(row.field(2), case);
    let ending = Ending::of(went, case.small(row.field(3)));
    if let Some(mut sink) = sink(case) {
        let sent = send_run_lines(&mut sink, ending, -7, 3, 42);
        tell_sent(sent, &sink, case);
    }
}

/// `ending-line`, a name, as in `run-lines`: the line of a run with status 0.
pub(crate) fn ending_line(row: &Row<'_>, case: &mut Case) {
    let went = went_of(row.field(2), case);
    let ending = Ending::of(went, case.small(row.field(3)));
    if let Some(mut sink) = sink(case) {
        let sent = send_ending_line(&mut sink, ending, 0);
        tell_sent(sent, &sink, case);
    }
}

/// `generation-line`, a name, how many functions: its line with the output 190 and 2, and status 0.
pub(crate) fn generation_line(row: &Row<'_>, case: &mut Case) {
    let count = case.small(row.field(2));
    if let Some(mut sink) = sink(case) {
        let sent = send_generation_line(&mut sink, count, &[190, 2], 0);
        tell_sent(sent, &sink, case);
    }
}
