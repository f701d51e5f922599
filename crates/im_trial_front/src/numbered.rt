use im_check_string_numbers::{behind_core, behind_declarator, behind_expression};
use im_ctree::{Core, Declarator, Expression, ExpressionKind, Suffix, SuffixKind};
use im_num::NoMemory;
use im_trial::{Case, Stop};
use std::alloc::Global;

fn tell_next(next: Result<u32, NoMemory>, case: &mut Case) {
    match next {
        Ok(next) => case.show(next),
        Err(NoMemory::OutOfMemory) => case.say(" none"),
    }
}

fn text(alloc: Global, at: u32) -> Expression {
    Expression {
        at,
        kind: ExpressionKind::Text(Vec::new(alloc)),
    }
}

/// `f("", "")`
fn call(alloc: Global) -> Result<Expression, Stop> {
    let f = Expression {
        at: 0,
        kind: ExpressionKind::Identifier(Vec::new(alloc)),
    };
    let callee = Box::new(alloc, f)?;
    let arguments = vec![in alloc; text(alloc, 2), text(alloc, 4)]?;
    Ok(Expression {
        at: 0,
        kind: ExpressionKind::Call(callee, arguments),
    })
}

/// `a[""]`
fn array(alloc: Global) -> Result<Declarator, Stop> {
    let length = Box::new(alloc, text(alloc, 3))?;
    let suffix = Suffix {
        at: 2,
        kind: SuffixKind::Array(Some(length)),
    };
    Ok(Declarator {
        at: 1,
        stars: Vec::new(alloc),
        core: Core::Name(Vec::new(alloc)),
        suffixes: vec![in alloc; suffix]?,
    })
}

fn tell_call(alloc: Global, case: &mut Case) -> Result<(), Stop> {
    let call = call(alloc)?;
    tell_next(behind_expression(7, &call), case);
    Ok(())
}

fn tell_array(alloc: Global, case: &mut Case) -> Result<(), Stop> {
    let array = array(alloc)?;
    tell_next(behind_declarator(7, &array), case);
    tell_next(behind_core(7, &array.core), case);
    Ok(())
}

fn tell_string_numbers(alloc: Global, case: &mut Case) -> Result<(), Stop> {
    tell_call(alloc, case)?;
    tell_array(alloc, case)?;
    tell_next(behind_expression(u32::MAX, &text(alloc, 0)), case);
    Ok(())
}

/// The numbers of string literals behind `f("", "")`, the declarator `a[""]` and its name, from 7
/// on; and a literal more than there are numbers for.
pub(crate) fn string_numbers(case: &mut Case) {
    if let Err(stop) = tell_string_numbers(case.alloc, case) {
        case.end(stop);
    }
}
