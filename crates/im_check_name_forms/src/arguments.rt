//! The arguments of calls (C11 6.5.2.2): each is converted to its parameter's type.
ghost use Rattle.std.specs.Prelude.{◌≡◌, ◌<◌, ◌+◌, ◌&&◌, length, drop, IfOk};
ghost use Rattle.im_ctype.specs.Table.{Table, structs_of};
ghost use Rattle.im_check_conversions.specs.im_rules.Conversions as c;
ghost use Rattle.im_check_conversions.specs.im_rules.Demands as d;
ghost use Rattle.im_check_conversions.specs.im_rules.Terms as r;
ghost use Rattle.im_typed.specs.ProgramOf.{expr_of};
ghost use Rattle.im_types.specs.Shape.{type_of, types_in};
ghost use Rattle.im_check_name_forms.specs.Lists.{exprs_from, terms_in};
ghost use Rattle.im_check_operands.specs.Shape.{term_in};

use im_check_conversions::{as_type, value_of};
use im_check_operands::{Term, fits};
use im_ctype::TypeTable;
use im_num::NoMemory;
use im_typed::Expr;
use im_types::Type;
use std::alloc::Global;

/// Whether the argument at that place fits its parameter.
fn fits_at(parameters: &[Type], arguments: &[Term], i: usize) -> bool
    requires parameter { i < length parameters.now }
    requires argument { i < length arguments.now }
    ensures { (types : Table) → d.all_fit (types_in (drop i parameters.now))
        (terms_in types (drop i arguments.now))
        ≡ (result && d.all_fit (types_in (drop (i + 1) parameters.now))
        (terms_in types (drop (i + 1) arguments.now))) }
{
    fits(&parameters[i], &arguments[i])
}

/// Whether each argument fits its parameter.
pub(crate) fn all_fit(parameters: &[Type], arguments: &[Term]) -> bool
    requires { length parameters.now ≡ length arguments.now }
    ensures { (types : Table) → result ≡ d.all_fit (types_in parameters.now)
        (terms_in types arguments.now) }
{
    for i in 0..parameters.len() {
        if !fits_at(parameters, arguments, i) {
            return false;
        }
    }
    true
}

/// An argument, converted to its parameter's type.
fn passed(alloc: Global, table: &TypeTable, ty: &Type, argument: Term) -> Result<Expr, NoMemory>
    ensures { IfOk result (λ e. expr_of table.now e ≡ c.as_type (type_of ty.now)
        (r.value_of (structs_of table.now) (term_in table.now argument))) }
{
    let value = value_of(alloc, table, argument)?;
    let converted = as_type(alloc, ty, value)?;
    Ok(converted.tree)
}

/// The arguments' values, each converted to its parameter's type.
pub(crate) fn converted(
    alloc: Global,
    table: &TypeTable,
    parameters: &[Type],
    arguments: Vec<Term>,
) -> Result<Vec<Expr>, NoMemory>
    requires { length parameters.now ≡ length arguments.items }
    ensures { IfOk result (λ es. exprs_from table.now es.items ≡ c.converted
        (structs_of table.now) (types_in parameters.now)
        (terms_in table.now arguments.items)) }
{
    let mut done = Vec::new(alloc);
    let mut i = 0;
    for argument in arguments {
        let expr = passed(alloc, table, &parameters[i], argument)?;
        done.push(expr)?;
        i += 1;
    }
    Ok(done)
}
