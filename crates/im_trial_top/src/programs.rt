use crate::faults::tell_fault;
use im_driver::{Built, Options, compile};
use im_emu::Machine;
use im_image::Image;
use im_mem_paged::PagedMem;
use im_num::{CellValue, Var};
use im_power::Period;
use im_rv::Went;
use im_trial::{Case, Row, Stop, Texts};
use std::str;

/// At how many places power is lost in turn.
const LOSSES: u32 = 12;

/// More instructions than any program takes.
const ENOUGH: u32 = 10_000_000;

const OPTIONS: Options = Options {
    stack: 65536,
    out_cap: 64,
    max_gap: None,
};

/// So many instructions, so often.
fn period(n: u32, count: u32, mask: u32) -> Period {
    Period {
        n,
        junk: 0xa5a5_a5a5,
        count,
        mask,
    }
}

// A static that is one number.
fn tell_static(var: &Var, case: &mut Case) {
    if var.cells.len() != 1 {
        return;
    }
    if let Some(CellValue::Number(number)) = var.cells.first() {
        case.say(" ");
        case.say(str::from_utf8(&var.name).unwrap_or("no name"));
        case.show(*number);
    }
}

// How a machine has ended, and the statics that are one number each.
fn tell_end(machine: &Machine<PagedMem>, case: &mut Case) {
    let (went, reason) = (machine.went(), machine.reason());
    if went != Went::Halted || reason != 0 {
        case.debug(&went);
        case.show(reason);
    }
    case.show(machine.status());
    case.bytes(machine.output());
    match machine.vars(case.alloc) {
        Ok(vars) => {
            for var in &vars {
                tell_static(var, case);
            }
        }
        Err(_) => case.end(Stop::Memory),
    }
}

/// An image and an input.
#[derive(Clone, Copy)]
struct Run<'a> {
    image: &'a Image,
    input: &'a [u8],
}

/// Runs through periods, tells how that ends, and gives the instructions.
fn run_for(run: Run<'_>, periods: &[Period], case: &mut Case) -> u64 {
    let Ok(mut machine) = Machine::load(case.alloc, run.image, run.input) else {
        case.end(Stop::Memory);
        return 0;
    };
    for period in periods {
        machine.power(*period);
    }
    tell_end(&machine, case);
    machine.instructions()
}

/// Tells a run through periods where it ends in another way than is wanted.
fn tell_other(run: Run<'_>, periods: &[Period], wanted: &Case, case: &mut Case) {
    let mut end = Case::new(wanted.alloc);
    run_for(run, periods, &mut end);
    if end.found() != wanted.found() {
        case.say("; in periods");
        for period in periods {
            case.show(period.n);
        }
        case.say(", ");
        case.say(end.found());
    }
}

// Power is lost once, at places spread over so many instructions.
fn tell_losses(run: Run<'_>, whole: u64, wanted: &Case, case: &mut Case) {
    let Ok(whole) = u32::try_from(whole) else {
        return case.say("; a long run");
    };
    for place in 0..LOSSES {
        let n = (whole / LOSSES)
            .saturating_mul(place)
            .saturating_add(place % 3);
        let periods = [period(n, 1, n % 16), period(ENOUGH, 1, 0)];
        tell_other(run, &periods, wanted, case);
    }
}

// With power all the time, in periods as long as the longest gap, and with power lost once.
fn tell_runs(built: &Built, input: &[u8], case: &mut Case) {
    let run = Run {
        image: &built.image,
        input,
    };
    let mut whole = Case::new(case.alloc);
    let instructions = run_for(run, &[period(ENOUGH, 1, 0)], &mut whole);
    case.say(" ");
    case.say(whole.found());
    tell_other(run, &[period(built.gap, 1_000_000, 0)], &whole, case);
    tell_losses(run, instructions, &whole, case);
}

/// `program`, a name, a source, an input.
pub(crate) fn program(texts: &Texts, row: &Row<'_>, case: &mut Case) {
    let source = case.bytes_of(texts, row, 2);
    let input = case.bytes_of(texts, row, 3);
    match compile(case.alloc, &source, OPTIONS) {
        Ok(built) => tell_runs(&built, &input, case),
        Err(fault) => tell_fault(fault, case),
    }
}
