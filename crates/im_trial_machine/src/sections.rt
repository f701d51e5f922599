use crate::machines::{machine_of, tell_variables};
use im_emu::Machine;
use im_mem_paged::PagedMem;
use im_power::Period;
use im_trial::{Case, Row, Texts};

/// A period of so many instructions.
pub(crate) fn once(n: u32, mask: u32) -> Period {
    Period {
        n,
        junk: 0xa5a5_a5a5,
        count: 1,
        mask,
    }
}

// How many instructions of recovery are executed when power fails again.
fn again_after(n: u32) -> u32 {
    match n % 5 {
        0 => 0,
        1 => 1,
        2 => 17,
        3 => 32,
        _ => 33,
    }
}

// In each section of the loop, after each number of its instructions and with each mask, power
// fails, and again within the recovery that follows.
fn lose_in_sections(machine: &mut Machine<PagedMem>) {
    for mask in 0..16 {
        for n in 33..70 {
            for round in 0..16 {
                machine.power(once(n, mask));
                machine.power(once(again_after(n + round), mask));
                machine.power(once(68 + 5 * round % 32, 0));
            }
        }
    }
}

// Tells how the machine goes on behind the losses, how it ends, and whether its output is that one.
fn tell_sections(machine: &mut Machine<PagedMem>, output: &[u8], case: &mut Case) {
    lose_in_sections(machine);
    case.debug(&machine.went());
    case.debug(&machine.power(once(10_000_000, 0)));
    case.show(machine.status());
    if machine.output() == output {
        case.say(" as it should be");
    }
    tell_variables(machine, case);
}

/// `sections`, a name, an image, an input, an output: how the machine goes on behind the losses,
/// how it ends, whether the output is that one, and the variables.
pub(crate) fn sections(texts: &Texts, row: &Row<'_>, case: &mut Case) {
    let input = case.bytes_of(texts, row, 3);
    let output = case.bytes_of(texts, row, 4);
    if let Some(mut machine) = machine_of(texts, row, &input, case) {
        tell_sections(&mut machine, &output, case);
    }
}
