ghost use Rattle.std.specs.Prelude.{IfOk};
ghost use Rattle.im_link.specs.Code.{IsLinkable};

use im_link::link;
use im_num::Cause;
use im_rv::{Code, Cut, Instr, Line, Op, Part};
use im_trial::{Case, Stop};
use std::alloc::Global;

// A line: its label, instruction, target, access and cause.
macro_rules! line {
    ($label:expr, $op:ident $rd:literal $rs1:literal $rs2:literal $imm:expr, $target:expr, $access:expr, $cause:expr) => {
        Line {
            label: $label,
            instr: Instr {
                op: Op::$op,
                rd: $rd,
                rs1: $rs1,
                rs2: $rs2,
                imm: $imm,
            },
            target: $target,
            access: $access,
            cause: $cause,
        }
    };
}

// A routine and a function that use every branch, a call, a loop and a dependence.
fn page(alloc: Global) -> Result<Vec<Part>, Stop>
    ensures { IfOk result (λ parts. IsLinkable parts.items) }
{
    let routine = [
        line!(Some(0), Lw 4 0 0 0, None, None, None),
        line!(None, Xori 4 4 0 1, None, None, None),
        line!(None, Jal 0 0 0 0, Some(1), None, None),
        line!(None, Addi 0 0 0 0, None, None, None),
        line!(Some(1), Sw 0 4 5 20, None, None, None),
        line!(None, Sw 0 0 4 0, None, None, None),
        line!(None, Jalr 0 3 0 0, None, None, None),
    ];
    let function = [
        line!(Some(10), Jal 3 0 0 0, Some(0), None, Some(Cause::Entry)),
        line!(None, Lui 10 0 0 0x12345, None, None, None),
        line!(None, Addi 10 10 0 -273, None, None, None),
        line!(Some(11), Jal 3 0 0 0, Some(0), None, Some(Cause::Loop)),
        line!(None, Lw 11 10 0 0, None, Some(1), None),
        line!(None, Beq 0 11 0 0, Some(13), None, None),
        line!(None, Bne 0 11 10 0, Some(11), None, None),
        line!(None, Blt 0 11 10 0, Some(11), None, None),
        line!(None, Bge 0 10 11 0, Some(13), None, None),
        line!(None, Bltu 0 10 11 0, Some(12), None, None),
        line!(None, Bgeu 0 11 10 0, Some(11), None, None),
        line!(None, Jal 3 0 0 0, Some(0), None, Some(Cause::Dep { read: 1, write: 2 })),
        line!(Some(12), Sw 0 10 11 0, None, Some(2), None),
        line!(None, Jal 1 0 0 0, Some(10), None, None),
        line!(None, Jal 3 0 0 0, Some(0), None, Some(Cause::Return)),
        line!(Some(13), Ebreak 0 0 0 0, None, None, None),
    ];
    let mut parts = Vec::new(alloc);
    parts.push(Part {
        name: String::from_str(alloc, "routine")?,
        lines: Vec::from_slice(alloc, &routine)?,
    })?;
    parts.push(Part {
        name: String::from_str(alloc, "main")?,
        lines: Vec::from_slice(alloc, &function)?,
    })?;
    Ok(parts)
}

/// Tells cuts.
pub(crate) fn tell_cuts(cuts: &[Cut], case: &mut Case) {
    for cut in cuts {
        case.say(";");
        case.word(cut.at);
        case.say(" ");
        case.say(&cut.function);
        case.debug(&cut.cause);
    }
}

fn tell_code(code: &Code, case: &mut Case) {
    for word in &code.words {
        case.word(*word);
    }
    case.say(", entry");
    case.word(code.entry);
    tell_cuts(&code.cuts, case);
}

fn linked(alloc: Global) -> Result<Code, Stop> {
    let parts = page(alloc)?;
    match link(alloc, &parts) {
        Ok(code) => Ok(code),
        Err(_) => Err(Stop::Row),
    }
}

/// The words, the entry and the cuts of a page of two parts that is linked.
pub(crate) fn a_page_of_two_parts(case: &mut Case) {
    let alloc = case.alloc;
    if let Some(code) = case.take(linked(alloc)) {
        tell_code(&code, case);
    }
}
