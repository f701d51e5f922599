ghost use Rattle.std.specs.Prelude.{◌<◌, ◌≤◌};
ghost use Rattle.im_trial_machine.specs.Numbered.{FitsAt};

use im_num::Cause;
use im_rv::{Instr, Line, Op};

// Line i: its instruction, target and cause. Its label is 64 + i, its access i.
macro_rules! line {
    ($i:expr, $op:ident $rd:literal $rs1:literal $rs2:literal $imm:literal, $target:expr, $cause:expr) => {
        Line {
            label: Some(64 + $i),
            instr: Instr {
                op: Op::$op,
                rd: $rd,
                rs1: $rs1,
                rs2: $rs2,
                imm: $imm,
            },
            target: $target,
            access: Some($i as u64),
            cause: $cause,
        }
    };
}

// A line of the routine that a cut calls: seven instructions up to the flip.
fn routine_line(i: u32) -> Line
    requires { i < 8 }
    ensures { FitsAt i result }
{
    match i {
        6 => line!(i, Sw 0 0 4 0, None, None),
        7 => line!(i, Jalr 0 3 0 0, None, None),
        _ => line!(i, Addi 4 4 0 0, None, None),
    }
}

// The line that the call of line i leads to: where the function before this one begins.
fn callee(i: u32) -> u32
    requires { 8 ≤ i }
    ensures { result ≤ i }
{
    if i < 16 { 8 } else { i - 13 }
}

// A line of a function of eight: a cut, a read, a branch over a cut, a write, a call, a cut, a
// return.
fn function_line(i: u32) -> Line
    requires behind { 8 ≤ i }
    requires inside { i < 261120 }
    ensures { FitsAt i result }
{
    match i % 8 {
        0 => line!(i, Jal 3 0 0 0, Some(64), Some(Cause::Entry)),
        1 => line!(i, Lw 5 2 0 0, None, None),
        2 => line!(i, Bne 0 5 0 0, Some(64 + i + 2), None),
        3 =>
            line!(i, Jal 3 0 0 0, Some(64), Some(Cause::Dep { read: (i - 2) as u64, write: (i + 1) as u64 })),
        4 => line!(i, Sw 0 2 5 0, None, None),
        5 => line!(i, Jal 1 0 0 0, Some(64 + callee(i)), None),
        6 => line!(i, Jal 3 0 0 0, Some(64), Some(Cause::Return)),
        _ => line!(i, Jalr 0 1 0 0, None, None),
    }
}

/// Line i of a code of 261120 words: a routine, and functions of eight lines, each of which calls
/// the one before it.
pub fn line_at(i: u32) -> Line
    requires { i < 261120 }
    ensures { FitsAt i result }
{
    if i < 8 {
        routine_line(i)
    } else {
        function_line(i)
    }
}
