//! What the rules ask of terms: `true` says that the rule has nothing against the node.
ghost use Rattle.std.specs.Prelude.{◌≡◌, []};
ghost use Rattle.im_ctype.specs.Table.{Table, structs_of};
ghost use Rattle.im_check_constancy.specs.im_rules.Rules as u;
ghost use Rattle.im_check_constancy.specs.im_rules.Terms.{operand_of};
ghost use Rattle.im_types.specs.Shape.{type_of};
ghost use Rattle.im_check_operands.specs.Shape.{term_in};

use crate::asked::{is_complete_type, is_integer_value, is_scalar_value, points_to_complete};
use crate::operand::operand_of;
use crate::operands;
use crate::term::Term;
use im_ctree::BinaryOp;
use im_ctype::TypeTable;
use im_types::Type;

/// Whether the value fits a type (C11 6.5.16.1).
pub fn fits(ty: &Type, x: &Term) -> bool
    ensures { (types : Table) → result ≡ u.rule_17 (type_of ty.now)
        (operand_of (term_in types x.now)) }
{
    operands::fits(ty, &operand_of(x))
}

/// A pointer to a complete type and an integer, in either order (C11 6.5.2.1p1).
pub fn is_indexed(table: &TypeTable, x: &Term, y: &Term) -> bool
    ensures { result ≡ u.rule_20 (structs_of table.now) (operand_of (term_in table.now x.now))
        (operand_of (term_in table.now y.now)) }
{
    operands::rule_20(table, &operand_of(x), &operand_of(y))
}

/// An lvalue, as `&`, `++`, `--` and an assignment have (C11 6.5.3.2p1).
pub fn is_lvalue(x: &Term) -> bool
    ensures { (types : Table) → result ≡ u.rule_22 (operand_of (term_in types x.now)) }
{
    operand_of(x).is_lvalue
}

/// Whether `++`, `--` or an assignment may change it: no `const` in its type or its members, and
/// no array (C11 6.3.2.1p1).
pub fn is_changeable(table: &TypeTable, free: &[bool], x: &Term) -> bool
    requires { free.now ≡ u.free_from [] (structs_of table.now) }
    ensures { result ≡ u.rule_23 (structs_of table.now) (operand_of (term_in table.now x.now)) }
{
    operands::is_open(free, &operand_of(x))
}

/// A pointer to a complete type (C11 6.5.3.2p2).
pub fn is_pointer_to_complete(table: &TypeTable, x: &Term) -> bool
    ensures { result ≡ u.rule_24 (structs_of table.now) (operand_of (term_in table.now x.now)) }
{
    points_to_complete(table, &operand_of(x))
}

/// An integer (C11 6.5.3.3p1).
pub fn is_integer_term(x: &Term) -> bool
    ensures arithmetic { (types : Table) → result ≡ u.rule_25_arithmetic
        (operand_of (term_in types x.now)) }
    ensures switch { (types : Table) → result ≡ u.rule_34_switch
        (operand_of (term_in types x.now)) }
{
    is_integer_value(&operand_of(x))
}

/// An integer or a pointer, as `!` and a condition have (C11 6.5.13, 6.8.4.1p1).
pub fn is_scalar_term(x: &Term) -> bool
    ensures { (types : Table) → result ≡ u.rule_25_condition (operand_of (term_in types x.now)) }
{
    is_scalar_value(&operand_of(x))
}

/// What the rule of an operator says of its operands (C11 6.5.5 to 6.5.14).
pub fn allows(table: &TypeTable, op: BinaryOp, x: &Term, y: &Term) -> bool
    ensures { result ≡ u.allows (structs_of table.now) op (operand_of (term_in table.now x.now))
        (operand_of (term_in table.now y.now)) }
{
    operands::allows(table, op, &operand_of(x), &operand_of(y))
}

/// Whether `a op= b` may stand (C11 6.5.16.2).
pub fn may_update(table: &TypeTable, op: BinaryOp, x: &Term, y: &Term) -> bool
    ensures { result ≡ u.rule_30_assign (structs_of table.now) op
        (operand_of (term_in table.now x.now)) (operand_of (term_in table.now y.now)) }
{
    operands::rule_30_assign(table, op, &operand_of(x), &operand_of(y))
}

/// An integer or a pointer to a complete type (C11 6.5.2.4p1, 6.5.3.1p1).
pub fn may_step(table: &TypeTable, x: &Term) -> bool
    ensures { result ≡ u.rule_30_step (structs_of table.now)
        (operand_of (term_in table.now x.now)) }
{
    operands::rule_30_step(table, &operand_of(x))
}

/// Whether two terms can be the results of `?:` (C11 6.5.15p3).
pub fn are_alike(x: &Term, y: &Term) -> bool
    ensures { (types : Table) → result ≡ u.rule_31 (operand_of (term_in types x.now))
        (operand_of (term_in types y.now)) }
{
    operands::rule_31(&operand_of(x), &operand_of(y))
}

/// Whether the value can be cast to a type (C11 6.5.4).
pub fn casts(ty: &Type, x: &Term) -> bool
    ensures { (types : Table) → result ≡ u.rule_32 (type_of ty.now)
        (operand_of (term_in types x.now)) }
{
    operands::rule_32(ty, &operand_of(x))
}

/// A complete object type, as the operand of `sizeof` has (C11 6.5.3.4p1).
pub fn has_size(table: &TypeTable, ty: &Type) -> bool
    ensures { result ≡ u.rule_33 (structs_of table.now) (type_of ty.now) }
{
    is_complete_type(table, ty)
}
