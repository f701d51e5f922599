use crate::faults::tell_fault;
use im_driver::{Options, compile_whole};
use im_trial::{Case, Row, Stop, Texts};
use im_typed::{Frame, Frames, Prog, need, nodes};
use std::alloc::Global;
use std::str;

const OPTIONS: Options = Options {
    stack: 65536,
    out_cap: 64,
    max_gap: None,
};

fn say_name(name: &[u8], case: &mut Case) {
    case.say(str::from_utf8(name).unwrap_or("no name"));
}

// Each function's body, one a line.
fn tell_functions(prog: &Prog, case: &mut Case) {
    for func in &prog.funcs {
        say_name(&func.name, case);
        case.debug(&func.body);
        case.say("\n");
    }
}

// Each static's cells, one a line.
fn tell_statics(prog: &Prog, case: &mut Case) {
    for object in &prog.statics {
        say_name(&object.object.name, case);
        case.debug(&object.cells);
        case.say("\n");
    }
}

// The nodes and the needs of the functions of that name.
fn tell_counts(prog: &Prog, name: &str, case: &mut Case) {
    for func in &prog.funcs {
        if func.name.as_slice() == name.as_bytes() {
            case.show(nodes(func));
            case.show(need(func));
        }
    }
}

/// A table of frames: a name and its size in turn.
fn frames_of(alloc: Global, text: &str) -> Result<Frames, Stop> {
    let mut frames = Vec::new(alloc);
    for words in text.split(',') {
        let (name, size) = words.split_once(' ').ok_or(Stop::Row)?;
        let size = size.parse::<u32>().map_err(|_| Stop::Row)?;
        let name = Vec::from_slice(alloc, name.as_bytes())?;
        frames.push(Frame { name, size })?;
    }
    Ok(Frames { frames })
}

// Of each function its frame's size by the table, and of each name.
fn tell_sizes(prog: &Prog, table: &Frames, names: &str, case: &mut Case) {
    match table.sizes(case.alloc, &prog.funcs) {
        Ok(sizes) => {
            for size in &sizes {
                case.show(*size);
            }
        }
        Err(_) => case.end(Stop::Memory),
    }
    case.say(";");
    for name in names.split(',') {
        case.show(table.size(name.as_bytes()));
    }
}

// By a table of frames and names.
fn tell_frames(prog: &Prog, row: &Row<'_>, case: &mut Case) {
    let made = frames_of(case.alloc, row.field(3));
    if let Some(table) = case.take(made) {
        tell_sizes(prog, &table, row.field(4), case);
    }
}

// What the kind of a row asks of a typed program.
fn tell_prog(prog: &Prog, row: &Row<'_>, case: &mut Case) {
    match row.kind() {
        "functions" => tell_functions(prog, case),
        "statics" => tell_statics(prog, case),
        "nodes" => tell_counts(prog, row.name(), case),
        _ => tell_frames(prog, row, case),
    }
}

/// `functions` and `statics`, a name, a source: what each is typed to; `nodes`, a function, a
/// source: the function's nodes and its need; `frames`, a name, a source, a table of frames, names:
/// the sizes of the functions' frames, and those of the names.
pub(crate) fn typed(texts: &Texts, row: &Row<'_>, case: &mut Case) {
    let source = case.bytes_of(texts, row, 2);
    match compile_whole(case.alloc, &source, OPTIONS) {
        Ok(whole) => tell_prog(&whole.prog, row, case),
        Err(fault) => tell_fault(fault, case),
    }
}
