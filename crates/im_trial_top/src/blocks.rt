ghost use Rattle.im_compile.specs.Passed.{IsSource};

use crate::faults::tell_fault;
use im_block::{Function, Line};
use im_driver::{Options, compile_whole};
use im_lower::lower;
use im_trial::{Case, Row, Stop, Texts};
use im_typed::Prog;

const OPTIONS: Options = Options {
    stack: 65536,
    out_cap: 16,
    max_gap: None,
};

// Any number that is its own may be an access's.
fn unnumbered(line: Line) -> Line {
    match line {
        Line::Read {
            to,
            place,
            kind,
            ..
        } => Line::Read {
            to,
            place,
            kind,
            access: 0,
        },
        Line::Write {
            place,
            kind,
            from,
            ..
        } => Line::Write {
            place,
            kind,
            from,
            access: 0,
        },
        other => other,
    }
}

fn tell_lines(lines: &[Line], case: &mut Case) {
    for line in lines {
        case.debug(&unnumbered(*line));
        case.say("\n");
    }
}

fn tell_function(function: &Function, case: &mut Case) {
    for block in &function.blocks {
        case.say("block\n");
        tell_lines(&block.lines, case);
        case.debug(&block.exit);
        case.say("\n");
    }
}

fn tell_lowered(prog: &Prog, case: &mut Case)
    requires { IsSource prog.now }
{
    match lower(case.alloc, prog) {
        Ok(unit) => {
            for function in &unit.functions {
                case.say("function\n");
                tell_function(function, case);
            }
        }
        Err(_) => case.end(Stop::Memory),
    }
}

/// `blocks`, a name, a source: the block code of each function, a line for each of its lines and
/// exits.
pub(crate) fn blocks(texts: &Texts, row: &Row<'_>, case: &mut Case) {
    let source = case.bytes_of(texts, row, 2);
    match compile_whole(case.alloc, &source, OPTIONS) {
        Ok(whole) => tell_lowered(&whole.prog, case),
        Err(fault) => tell_fault(fault, case),
    }
}
