ghost use Rattle.std.specs.Prelude.{◌≡◌, OnOk};
ghost use Rattle.std.specs.Option.{option_map};
ghost use Rattle.im_ctype.specs.Table.{Table};
ghost use Rattle.im_typed.specs.ProgramOf.{access_of};
ghost use Rattle.im_lower_relation.specs.Statements.{kind_in};
ghost use Rattle.im_lower_plain.specs.MakeStatement.{label_at, put_case, put_cases};

use crate::builder::{Builder, next};
use im_block::{Exit, Line};
use im_num::{Kind, NoMemory};
use im_store::Comparison;
use im_typed::{Access, Case};

/// The kind of a switch's value.
pub(crate) fn kind_in(shape: Option<Access>) -> Kind
    ensures { (types : Table) → result ≡ kind_in (option_map (access_of types) shape) }
{
    match shape {
        Some(Access::Scalar(kind)) => kind,
        Some(Access::Struct { .. }) | None => Kind::I32,
    }
}

/// Puts the comparisons of the value in the register `low` with each label in order. Labels go by
/// the numbers of statements; these begin blocks of the numbers `labels`.
pub(crate) fn put_cases(
    code: &mut Builder,
    low: u32,
    kind: Kind,
    cases: &[Case],
    otherwise: u32,
    labels: &[u32],
) -> Result<(), NoMemory>
    ensures { OnOk result (code.new ≡ put_cases low kind cases.now otherwise labels.now code.old) }
{
    code.start(Exit::Jump(label_at(labels, otherwise)))?;
    for index in (0..cases.len()).rev() {
        put_case(code, low, kind, cases[index], labels)?;
    }
    Ok(())
}

/// Puts the comparison with one label before those that follow it.
fn put_case(
    code: &mut Builder,
    low: u32,
    kind: Kind,
    case: Case,
    labels: &[u32],
) -> Result<(), NoMemory>
    ensures { OnOk result (code.new ≡ put_case low kind case labels.now code.old) }
{
    let label = next(low)?;
    let fails = code.close()?;
    code.start(Exit::Branch {
        on: label,
        holds: label_at(labels, case.at),
        fails,
    })?;
    code.put(Line::Compare {
        to: label,
        op: Comparison::Equal,
        kind,
        left: low,
        right: label,
    })?;
    code.put(Line::Put {
        to: label,
        number: case.value,
    })
}

/// The block of a label, the last one where it stands behind the statements.
fn label_at(labels: &[u32], at: u32) -> u32
    ensures { result ≡ label_at labels.now at }
{
    let index = labels.len().saturating_sub(1).min(at as usize);
    match labels.get(index) {
        Some(label) => *label,
        None => 0,
    }
}
