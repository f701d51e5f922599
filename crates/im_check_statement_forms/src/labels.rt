//! Labels of a switch (C11 6.8.1, 6.8.4.2).
ghost use Rattle.std.specs.Prelude.{◌≡◌, [], None, MatchResult, IfErr};
ghost use Rattle.im_ctype.specs.Table.{Table};
ghost use Rattle.im_check_locals.specs.im_rules.Statements as st;
ghost use Rattle.im_check_locals.specs.im_rules.Terms as r;
ghost use Rattle.im_check_stop.specs.Answers.{IsNoRule, IsRefusal};
ghost use Rattle.im_check_stop.specs.declared.stop.Stop.TheVariants.{Memory};
ghost use Rattle.im_check_locals.specs.im_ctree_parts.Lists.{expression_in};
ghost use Rattle.im_check_constancy.specs.Told.{number_in, constant_in};
ghost use Rattle.im_check_operands.specs.Shape.{term_in};
ghost use Rattle.im_check_statement_forms.specs.Asked.{IsAskedFault};
ghost use Rattle.im_check_statement_forms.specs.Labelling.{labels_of, Tells, CaseAdded};
ghost use Rattle.im_check_statement_forms.specs.Labelling.{DefaultAdded, IsSelected, CaseDone};

use crate::asked::term;
use im_check_constancy::Constancy;
use im_check_conversions::{as_integer, integer_of, promoted, value_of};
use im_check_operands::{Term, is_integer_term};
use im_check_sites::Body;
use im_check_stop::{Stop, refused};
use im_ctree::Expression;
use im_ctype::Integer;
use im_store::{Number, converted};
use im_typed::{Case, Expr};
use std::alloc::Global;
use std::collections::BTreeSet;

/// The labels of a switch so far, the constants of its cases also as a set.
#[derive(Drop)]
pub struct Labels {
    pub seen: BTreeSet<i128>,
    pub cases: Vec<Case>,
    pub otherwise: Option<u32>,
}

pub fn no_labels(alloc: Global) -> Labels
    ensures none { result.cases.items ≡ [] }
    ensures no_default { result.otherwise ≡ None }
    ensures told { Tells result }
{
    Labels {
        seen: BTreeSet::new(alloc),
        cases: Vec::new(alloc),
        otherwise: None,
    }
}

/// A case with this constant, unless one has it; so many statements stand before it.
fn add_case(labels: &mut Labels, value: Number, at: u32) -> Result<bool, Stop>
    requires { Tells labels.old }
    ensures { MatchResult result (λ fresh. CaseAdded labels.old labels.new value.value at fresh)
        IsNoRule }
{
    let z = plain(value);
    if !labels.seen.insert(z)? {
        return Ok(false);
    }
    labels.cases.push(case_of(value, at))?;
    Ok(true)
}

fn plain(value: Number) -> i128
    ensures { result ≡ value.value }
{
    value.value
}

fn case_of(value: Number, at: u32) -> Case
    ensures { result ≡ st.case_at value.value at }
{
    Case {
        value: value.value,
        at,
    }
}

fn known(constancy: Constancy) -> Option<Number>
    ensures { number_in result ≡ constant_in constancy }
{
    if constancy.is_constant {
        constancy.value
    } else {
        None
    }
}

/// The value of a term as a constant expression, if it is one (C11 6.6).
fn constant_of(x: &Term) -> Option<Number>
    ensures { (types : Table) → number_in result ≡ r.constant_in (term_in types x.now) }
{
    match x {
        Term::Lvalue(_, _, _) => None,
        Term::Value(value) => known(value.expr.constancy),
    }
}

fn clash(at: u32) -> Stop
    ensures { result ≡ Stop.Rule 34 at }
{
    refused(34, at)
}

/// The label `case`, so many statements behind the start of its switch's block.
pub fn case_label(
    alloc: Global,
    at: u32,
    e: &Expression,
    ty: Integer,
    n: u32,
    body: &mut Body,
    labels: &mut Labels,
) -> Result<(), Stop>
    requires { Tells labels.old }
    ensures { MatchResult result (λ _. CaseDone body.old (expression_in e.now) ty n labels.old
        body.new labels.new) (IsAskedFault (λ x. st.case_asks ty x (labels_of labels.old)) body.old
        (expression_in e.now) at) }
{
    let x = term(alloc, e, body)?;
    let Some(z) = constant_of(&x) else {
        return Err(refused(15, at));
    };
    let value = converted(ty.kind(), z);
    let fresh = add_case(labels, value, n)?;
    if fresh { Ok(()) } else { Err(clash(at)) }
}

/// The label `default`.
pub fn default_label(at: u32, n: u32, labels: &mut Labels) -> Result<(), Stop>
    requires { Tells labels.old }
    ensures added { MatchResult result (λ _. DefaultAdded labels.old labels.new n)
        (IsRefusal (st.default_asks (labels_of labels.old)) at) }
    ensures spared { IfErr result (λ stop. stop ≡ Memory → ⊥) }
{
    match labels.otherwise {
        Some(_) => Err(refused(34, at)),
        None => {
            labels.otherwise = Some(n);
            Ok(())
        }
    }
}

/// What a switch selects by: its type and its value.
#[derive(Drop)]
pub struct Selector {
    pub ty: Integer,
    pub value: Expr,
}

pub fn selected_by(
    alloc: Global,
    at: u32,
    e: &Expression,
    body: &mut Body,
) -> Result<Selector, Stop>
    ensures { MatchResult result (IsSelected body.old (expression_in e.now) body.new)
        (IsAskedFault st.switch_asks body.old (expression_in e.now) at) }
{
    let x = term(alloc, e, body)?;
    if !is_integer_term(&x) {
        return Err(refused(34, at));
    }
    let value = value_of(alloc, body.place.structs.table(), x)?;
    let ty = promoted(integer_of(&value.ty));
    let converted = as_integer(alloc, ty, value)?;
    Ok(Selector {
        ty,
        value: converted.tree,
    })
}
