use crate::machines::{image_of, loaded, machine_of};
use im_emu::{Machine, upgrade_memory};
use im_image::Image;
use im_mem_paged::PagedMem;
use im_power::read_trace;
use im_trial::{Case, Row, Stop, Texts};

// Whether bytes are those that are wanted.
fn tell_equal(bytes: &[u8], wanted: &[u8], case: &mut Case) {
    case.say(if bytes == wanted {
        " as it should be"
    } else {
        " otherwise"
    });
}

/// `saved`, a name, an image, a memory: whether the machine is saved as that memory.
pub(crate) fn saved(texts: &Texts, row: &Row<'_>, case: &mut Case) {
    let wanted = case.bytes_of(texts, row, 3);
    let Some(machine) = machine_of(texts, row, &[], case) else {
        return;
    };
    match machine.save(case.alloc) {
        Ok(bytes) => tell_equal(&bytes, &wanted, case),
        Err(_) => case.end(Stop::Memory),
    }
}

/// `upgraded-memory`, a name, a memory, another one: whether the first one is upgraded to the
/// second.
pub(crate) fn upgraded(texts: &Texts, row: &Row<'_>, case: &mut Case) {
    let memory = case.bytes_of(texts, row, 2);
    let wanted = case.bytes_of(texts, row, 3);
    match upgrade_memory(case.alloc, &memory) {
        Ok(bytes) => tell_equal(&bytes, &wanted, case),
        Err(fault) => case.show(fault),
    }
}

// Runs a trace that is written in a field.
fn run_trace(machine: &mut Machine<PagedMem>, lines: &[u8], case: &mut Case) {
    match read_trace(case.alloc, lines) {
        Ok(trace) => {
            let went = machine.run(&trace);
            case.debug(&went);
        }
        Err(_) => case.end(Stop::Row),
    }
}

/// `resumed`, a name, an image, a memory, a trace: how the machine that goes on with that memory
/// runs, its commits and its instructions; or why it can't.
pub(crate) fn resumed(texts: &Texts, row: &Row<'_>, case: &mut Case) {
    let Some(image) = image_of(texts, row, case) else {
        return;
    };
    let memory = case.bytes_of(texts, row, 3);
    let lines = case.bytes_of(texts, row, 4);
    match Machine::<PagedMem>::resume(case.alloc, &image, &memory) {
        Ok(mut machine) => {
            run_trace(&mut machine, &lines, case);
            case.show(machine.commits());
            case.show(machine.instructions());
        }
        Err(fault) => case.show(fault),
    }
}

// The memory in which a machine's run under a trace ends.
fn end_of(machine: &mut Machine<PagedMem>, lines: &[u8], case: &mut Case) -> Vec<u8> {
    run_trace(machine, lines, case);
    match machine.save(case.alloc) {
        Ok(memory) => memory,
        Err(_) => {
            case.end(Stop::Memory);
            Vec::new(case.alloc)
        }
    }
}

// The memory in which a run that goes on with that memory ends.
fn resumed_end(image: &Image, memory: &[u8], lines: &[u8], case: &mut Case) -> Vec<u8> {
    match Machine::<PagedMem>::resume(case.alloc, image, memory) {
        Ok(mut machine) => end_of(&mut machine, lines, case),
        Err(_) => {
            case.end(Stop::Row);
            Vec::new(case.alloc)
        }
    }
}

// The memory in which a run from the image on ends.
fn loaded_end(image: &Image, lines: &[u8], case: &mut Case) -> Vec<u8> {
    match loaded(image, &[], case) {
        Some(mut machine) => end_of(&mut machine, lines, case),
        None => Vec::new(case.alloc),
    }
}

/// `joined`, a name, an image, two traces, a trace: whether a run of the first trace that is saved,
/// and goes on with the second one, ends in the memory in which a run of the third does.
pub(crate) fn joined(texts: &Texts, row: &Row<'_>, case: &mut Case) {
    let Some(image) = image_of(texts, row, case) else {
        return;
    };
    let lines = case.bytes_of(texts, row, 3);
    let first = loaded_end(&image, &lines, case);
    let lines = case.bytes_of(texts, row, 4);
    let second = resumed_end(&image, &first, &lines, case);
    let lines = case.bytes_of(texts, row, 5);
    let whole = loaded_end(&image, &lines, case);
    tell_equal(&second, &whole, case);
}
