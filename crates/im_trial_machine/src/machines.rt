use crate::values::tell_vars;
use im_emu::{LoadFault, Machine};
use im_image::{Image, read_image};
use im_mem_paged::PagedMem;
use im_power::{Period, Trace, read_trace};
use im_rv::Went;
use im_trial::{Case, Row, Stop, Texts};

/// The image that a field has.
pub(crate) fn image_of(texts: &Texts, row: &Row<'_>, case: &mut Case) -> Option<Image> {
    let text = case.bytes_of(texts, row, 2);
    match read_image(case.alloc, &text) {
        Ok(image) => Some(image),
        Err(_) => {
            case.end(Stop::Row);
            None
        }
    }
}

/// A machine with the image and this input.
pub(crate) fn loaded(image: &Image, input: &[u8], case: &mut Case) -> Option<Machine<PagedMem>> {
    match Machine::load(case.alloc, image, input) {
        Ok(machine) => Some(machine),
        Err(_) => {
            case.end(Stop::Row);
            None
        }
    }
}

// A machine with the image that a field has.
pub(crate) fn machine_of(
    texts: &Texts,
    row: &Row<'_>,
    input: &[u8],
    case: &mut Case,
) -> Option<Machine<PagedMem>> {
    let image = image_of(texts, row, case)?;
    loaded(&image, input, case)
}

/// Tells the variables of a machine.
pub(crate) fn tell_variables(machine: &Machine<PagedMem>, case: &mut Case) {
    match machine.vars(case.alloc) {
        Ok(vars) => tell_vars(&vars, case),
        Err(_) => case.end(Stop::Memory),
    }
}

// Tells how a run went, its commits, its instructions.
fn tell_run(machine: &Machine<PagedMem>, went: Went, case: &mut Case) {
    case.debug(&went);
    case.show(machine.commits());
    case.show(machine.instructions());
}

// Runs a trace, and once more where it stops the machine: the run is told each time, and the status
// and the reason.
fn tell_trace(machine: &mut Machine<PagedMem>, trace: &Trace, case: &mut Case) {
    let went = machine.run(trace);
    tell_run(machine, went, case);
    if went != Went::On {
        let again = machine.run(trace);
        tell_run(machine, again, case);
    }
    case.say(", status");
    case.show(machine.status());
}

/// `trace`, a name, an image, a trace: the run.
pub(crate) fn traced(texts: &Texts, row: &Row<'_>, case: &mut Case) {
    let lines = case.bytes_of(texts, row, 3);
    let Ok(trace) = read_trace(case.alloc, &lines) else {
        case.end(Stop::Row);
        return;
    };
    if let Some(mut machine) = machine_of(texts, row, &[], case) {
        tell_trace(&mut machine, &trace, case);
    }
}

fn tell_period(machine: &mut Machine<PagedMem>, period: Period, case: &mut Case) {
    let went = machine.power(period);
    tell_run(machine, went, case);
    case.show(machine.status());
    case.show(machine.reason());
    case.show(machine.output().len());
    case.say(", form");
    case.show(machine.form());
    case.say(" version");
    case.show(machine.version().number());
    if went != Went::On {
        case.say(", again");
        let again = machine.power(period);
        tell_run(machine, again, case);
    }
}

/// `period`, a name, an image, instructions, junk, repeats: the run, the status, the reason, the
/// length of the output.
pub(crate) fn period(texts: &Texts, row: &Row<'_>, case: &mut Case) {
    let period = Period {
        n: case.small(row.field(3)),
        junk: case.small(row.field(4)),
        count: case.small(row.field(5)),
        mask: 0,
    };
    if let Some(mut machine) = machine_of(texts, row, &[], case) {
        tell_period(&mut machine, period, case);
    }
}

fn tell_refused(fault: LoadFault, case: &mut Case) {
    match fault {
        LoadFault::InputTooLong(count, most) => {
            case.say(" too long");
            case.show(count);
            case.show(most);
        }
        LoadFault::OutOfMemory => case.end(Stop::Memory),
    }
}

/// `input`, a name, an image, an input: whether the machine takes it.
pub(crate) fn input(texts: &Texts, row: &Row<'_>, case: &mut Case) {
    let Some(image) = image_of(texts, row, case) else {
        return;
    };
    let input = case.bytes_of(texts, row, 3);
    match Machine::load(case.alloc, &image, &input).err() {
        None => case.say(" taken"),
        Some(fault) => tell_refused(fault, case),
    }
}

/// `variables`, a name, an image: its variables.
pub(crate) fn variables(texts: &Texts, row: &Row<'_>, case: &mut Case) {
    if let Some(machine) = machine_of(texts, row, &[], case) {
        tell_variables(&machine, case);
    }
}
