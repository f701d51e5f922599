ghost use Rattle.std.specs.Prelude.{◌≡◌, ◌≤◌, [], length, IfOk, All};
ghost use Rattle.im_block.specs.Wellformed.{IsWellFormed};
ghost use Rattle.im_block.specs.declared.unit.Function.{Function as Placed};
ghost use Rattle.im_frame.specs.Layout.{bytes_of};
ghost use Rattle.im_alloc_placed.specs.Placed.{IsPlacedCode};
ghost use Rattle.im_link_laws.specs.Laws.{NamesAccesses};

use crate::fault::{Fault, taken};
use im_block::{Block, Exit, Function, Line, Registers, Unit};
use im_frame::lay_out;
use im_link_laws::linkable_law;
use im_rv::Code;
use im_select_assemble::{Program, assemble};
use im_trial::Case;
use std::alloc::Global;

// `int main(void) { return 7; }`, placed.
fn seven(alloc: Global) -> Result<Unit, Fault>
    ensures well_formed { IfOk result IsWellFormed }
    ensures placed { IfOk result IsPlacedCode }
    ensures named { IfOk result NamesAccesses }
    ensures frames { IfOk result
        (λ u. All (λ (f : Placed). bytes_of f ≤ f.need) u.functions.items) }
    ensures one { IfOk result (λ u. length u.functions.items ≡ 1) }
    ensures none { IfOk result (λ u. u.statics.items ≡ []) }
{
    let lines = vec![in alloc; Line::Put { to: 10, number: 7 }]?;
    let block = Block {
        lines,
        exit: Exit::Return(Some(10)),
    };
    let function = Function {
        nodes: 1,
        need: 100,
        registers: Registers::Machine,
        register_count: 32,
        parameters: 0,
        first_parameter: 10,
        first_object: 0,
        objects: Vec::new(alloc),
        slots: 0,
        blocks: vec![in alloc; block]?,
        entry: 0,
    };
    Ok(Unit {
        statics: Vec::new(alloc),
        functions: vec![in alloc; function]?,
        main: 0,
    })
}

// `int main(void) { int n = 0; if (n) n = 7; return n; }`, placed, with two blocks that only lead
// on to the last.
fn chain(alloc: Global) -> Result<Unit, Fault>
    ensures well_formed { IfOk result IsWellFormed }
    ensures placed { IfOk result IsPlacedCode }
    ensures named { IfOk result NamesAccesses }
    ensures frames { IfOk result
        (λ u. All (λ (f : Placed). bytes_of f ≤ f.need) u.functions.items) }
    ensures one { IfOk result (λ u. length u.functions.items ≡ 1) }
    ensures none { IfOk result (λ u. u.statics.items ≡ []) }
{
    let zero = vec![in alloc; Line::Put { to: 10, number: 0 }]?;
    let seven = vec![in alloc; Line::Put { to: 10, number: 7 }]?;
    let blocks = vec![in alloc;
        Block {
            lines: Vec::new(alloc),
            exit: Exit::Return(Some(10)),
        },
        Block {
            lines: Vec::new(alloc),
            exit: Exit::Jump(0),
        },
        Block {
            lines: Vec::new(alloc),
            exit: Exit::Jump(1),
        },
        Block {
            lines: seven,
            exit: Exit::Jump(2),
        },
        Block {
            lines: zero,
            exit: Exit::Branch {
                on: 10,
                holds: 3,
                fails: 2,
            },
        },
    ]?;
    let function = Function {
        nodes: 4,
        need: 100,
        registers: Registers::Machine,
        register_count: 32,
        parameters: 0,
        first_parameter: 10,
        first_object: 0,
        objects: Vec::new(alloc),
        slots: 0,
        blocks,
        entry: 4,
    };
    Ok(Unit {
        statics: Vec::new(alloc),
        functions: vec![in alloc; function]?,
        main: 0,
    })
}

/// The number of the words, those behind the runtime, and the entry.
pub(crate) fn tell_code(code: &Code, case: &mut Case) {
    case.show(code.words.len());
    for word in code.words.iter().skip(276) {
        case.word(*word);
    }
    case.say(", entry");
    case.word(code.entry);
}

/// One function that is laid out, selected and linked.
pub(crate) fn linked(alloc: Global, unit: Unit) -> Result<Code, Fault>
    requires well_formed { IsWellFormed unit }
    requires placed { IsPlacedCode unit }
    requires named { NamesAccesses unit }
    requires frames { All (λ (f : Placed). bytes_of f ≤ f.need) unit.functions.items }
    requires one { length unit.functions.items ≡ 1 }
    requires none { unit.statics.items ≡ [] }
{
    linkable_law();
    let layout = lay_out(alloc, &unit.functions[0])?;
    let layouts = vec![in alloc; layout]?;
    let names = vec![in alloc; String::from_str(alloc, "main")?]?;
    let program = Program {
        layouts: &layouts,
        statics: &[],
        names: &names,
    };
    let assembled = assemble(alloc, unit, &program)?;
    Ok(assembled.linker.finish()?)
}

fn linked_seven(alloc: Global) -> Result<Code, Fault> {
    let unit = seven(alloc)?;
    let code = linked(alloc, unit)?;
    Ok(code)
}

fn linked_chain(alloc: Global) -> Result<Code, Fault> {
    let unit = chain(alloc)?;
    let code = linked(alloc, unit)?;
    Ok(code)
}

/// The number of words of a program that is linked, those of `main` and of the lines that begin,
/// and the entry.
pub(crate) fn a_program_is_linked(case: &mut Case) {
    let alloc = case.alloc;
    if let Some(code) = taken(linked_seven(alloc), case) {
        tell_code(&code, case);
    }
}

/// The same of a program with blocks that only lead on.
pub(crate) fn a_chain_takes_no_word(case: &mut Case) {
    let alloc = case.alloc;
    if let Some(code) = taken(linked_chain(alloc), case) {
        tell_code(&code, case);
    }
}
