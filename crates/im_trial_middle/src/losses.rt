use crate::building::image_of;
use crate::code::unit;
use crate::fault::{Fault, taken};
use im_emu::Machine;
use im_image::Image;
use im_mem_paged::PagedMem;
use im_power::Period;
use im_trial::{Case, Stop};
use std::alloc::Global;

// A period of so many instructions.
fn once(n: u32, mask: u32) -> Period {
    Period {
        n,
        junk: 0xa5a5_a5a5,
        count: 1,
        mask,
    }
}

// A machine with the image and no input.
fn loaded(image: &Image, case: &mut Case) -> Option<Machine<PagedMem>> {
    match Machine::load(case.alloc, image, &[]) {
        Ok(machine) => Some(machine),
        Err(_) => {
            case.end(Stop::Row);
            None
        }
    }
}

// Tells what the image's one variable holds.
fn tell_total(machine: &Machine<PagedMem>, case: &mut Case) {
    match machine.vars(case.alloc) {
        Ok(vars) => {
            let total = vars.first().and_then(|var| var.cells.first().copied());
            case.debug(&total);
        }
        Err(_) => case.end(Stop::Memory),
    }
}

// Tells how a run has ended.
fn tell_end(machine: &Machine<PagedMem>, case: &mut Case) {
    case.debug(&machine.went());
    case.bytes(machine.output());
    case.show(machine.status());
    case.show(machine.reason());
    tell_total(machine, case);
}

// From a commit to the next one: power fails after each number of instructions, by each mask.
fn pass_section(machine: &mut Machine<PagedMem>) {
    let commits = machine.commits();
    for row in 0..3200 {
        if machine.commits() == commits {
            machine.power(once(row / 16, row % 16));
        }
    }
}

fn pass_sections(machine: &mut Machine<PagedMem>, count: u64) {
    for _ in 0..count {
        pass_section(machine);
    }
}

// Tells how a run ends that keeps its power, and gives its commits.
fn tell_whole(image: &Image, case: &mut Case) -> u64 {
    let Some(mut machine) = loaded(image, case) else {
        return 0;
    };
    machine.power(once(10_000, 0));
    tell_end(&machine, case);
    machine.commits()
}

// Power fails after each instruction of each section: whether there are as many commits, and how
// the run ends.
fn tell_losses(image: &Image, case: &mut Case) {
    let commits = tell_whole(image, case);
    let Some(mut machine) = loaded(image, case) else {
        return;
    };
    pass_sections(&mut machine, commits);
    case.say(";");
    case.debug(&machine.went());
    case.say(if machine.commits() == commits {
        " behind as many commits;"
    } else {
        " behind other commits;"
    });
    pass_section(&mut machine);
    tell_end(&machine, case);
}

// Power fails again and again, after so many instructions.
fn tell_periods(image: &Image, n: u32, case: &mut Case) {
    let period = Period {
        n,
        junk: 0xa5a5_a5a5,
        count: 1_000,
        mask: n % 16,
    };
    if let Some(mut machine) = loaded(image, case) {
        machine.power(period);
        case.say(";");
        tell_end(&machine, case);
    }
}

fn built(alloc: Global) -> Result<Image, Fault> {
    image_of(alloc, unit(alloc)?, &["add", "main"])
}

/// A function that calls itself and writes through a pointer, from block code to its run under
/// losses of power: with power all the time, after each instruction, and again and again.
pub(crate) fn power_fails(case: &mut Case) {
    let alloc = case.alloc;
    if let Some(image) = taken(built(alloc), case) {
        tell_losses(&image, case);
        for n in [90, 100, 113, 151] {
            tell_periods(&image, n, case);
        }
    }
}
