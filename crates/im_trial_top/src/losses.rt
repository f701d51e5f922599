use crate::commands::{Limits, carry_out};
use crate::shelves::{shelf_of, shelf_with};
use im_io::MemShelf;
use im_trial::{Case, Row, Stop, Texts};
use std::alloc::Global;

// A shelf with the source of a row, and room for its image.
fn shelf_to_run(alloc: Global, texts: &Texts, source: &str) -> Result<MemShelf, Stop> {
    let files = format!(in alloc; "s.c={source} i:65536")?;
    shelf_of(alloc, texts, &files, 0)
}

// Runs an image whose power is lost once, after so many instructions.
fn run_with_loss(
    image: &[u8],
    instructions: u32,
    asked: &[u8],
    case: &mut Case,
) -> Result<(), Stop> {
    let trace = format!(in case.alloc; "{instructions}\n1000000\n")?;
    let mut shelf = shelf_with(case.alloc, image, trace.as_bytes())?;
    let command = "intermit exec i --trace cut --vars";
    carry_out(&mut shelf, command, Limits::none(), asked, case)
}

// Tells what comes of a loss where that is something else than is wanted.
fn tell_loss(image: &[u8], instructions: u32, asked: &[u8], wanted: &Case, case: &mut Case) {
    let mut lost = Case::new(wanted.alloc);
    let ran = run_with_loss(image, instructions, asked, &mut lost);
    lost.take(ran);
    if lost.found() != wanted.found() {
        case.say("; after");
        case.show(instructions);
        case.say(": ");
        case.say(lost.found());
    }
}

// Runs a source, and then its image with each of so many losses of power.
fn tell_losses(shelf: &mut MemShelf, count: u32, asked: &[u8], case: &mut Case) {
    let mut whole = Case::new(case.alloc);
    let command = "intermit run s.c i --vars";
    let ran = carry_out(shelf, command, Limits::none(), asked, &mut whole);
    case.take(ran);
    case.say(" ");
    case.say(whole.found());
    let Some(image) = shelf.file("i") else {
        return case.end(Stop::Row);
    };
    for instructions in 0..count {
        tell_loss(image, instructions, asked, &whole, case);
    }
}

/// `losses`, a name, a source, a number, the lines of standard error that are looked for: the
/// source is run with power all the time, and then with power lost once, after each number of
/// instructions below the one given.
pub(crate) fn losses(texts: &Texts, row: &Row<'_>, case: &mut Case) {
    let count = case.small(row.field(3));
    let asked = case.bytes_of(texts, row, 4);
    let made = shelf_to_run(case.alloc, texts, row.field(2));
    if let Some(mut shelf) = case.take(made) {
        tell_losses(&mut shelf, count, &asked, case);
    }
}
