ghost use Rattle.std.specs.Prelude.{◌≡◌};
ghost use Rattle.std.specs.Bool.{OnTrue};
ghost use Rattle.im_num.specs.Kinds.{IsOfKind};
ghost use Rattle.im_forward.specs.Straight.{target, setting, HasAllOf, Gives};

use im_block::Line;
use im_num::Kind;

/// The register that a line sets, where it may as well set another one and does nothing else that
/// hangs on it.
pub(crate) fn target_of(line: Line) -> Option<u32>
    ensures { result ≡ target line }
{
    match line {
        Line::Put { to, .. }
        | Line::PutNull { to }
        | Line::Convert { to, .. }
        | Line::Unary { to, .. }
        | Line::Not { to, .. }
        | Line::Compute { to, .. }
        | Line::Compare { to, .. }
        | Line::Move { to, .. }
        | Line::Distance { to, .. }
        | Line::Address { to, .. }
        | Line::Read { to, .. } => Some(to),
        Line::Copy { .. }
        | Line::Write { .. }
        | Line::Reload { .. }
        | Line::Spill { .. }
        | Line::Cut(_)
        | Line::Call { .. }
        | Line::Serve { .. } => None,
    }
}

/// The line with another register as that which it sets.
pub(crate) fn set_in(register: u32, mut line: Line) -> Line
    ensures { result ≡ setting register line }
{
    match &mut line {
        Line::Put { to, .. } => *to = register,
        Line::PutNull { to } => *to = register,
        Line::Convert { to, .. } => *to = register,
        Line::Unary { to, .. } => *to = register,
        Line::Not { to, .. } => *to = register,
        Line::Compute { to, .. } => *to = register,
        Line::Compare { to, .. } => *to = register,
        Line::Move { to, .. } => *to = register,
        Line::Distance { to, .. } => *to = register,
        Line::Address { to, .. } => *to = register,
        Line::Read { to, .. } => *to = register,
        Line::Copy { .. }
        | Line::Write { .. }
        | Line::Reload { .. }
        | Line::Spill { .. }
        | Line::Cut(_)
        | Line::Call { .. }
        | Line::Serve { .. } => {}
    }
    line
}

/// Whether each value of one kind is one of the other (C11 6.2.5).
fn has_all_of(kind: Kind, of: Kind) -> bool
    ensures { OnTrue result (HasAllOf kind of) }
{
    match of {
        Kind::I8 => matches!(kind, Kind::I8 | Kind::I16 | Kind::I32),
        Kind::I16 => matches!(kind, Kind::I16 | Kind::I32),
        Kind::U8 => !matches!(kind, Kind::I8),
        Kind::U16 => matches!(kind, Kind::U16 | Kind::I32 | Kind::U32),
        Kind::I32 | Kind::U32 | Kind::Ptr => kind == of,
    }
}

/// Whether a number is one of the values of a kind.
fn has_number(kind: Kind, number: i128) -> bool
    ensures { OnTrue result (IsOfKind kind number) }
{
    match kind {
        Kind::I8 => -128 <= number && number < 128,
        Kind::U8 => 0 <= number && number < 256,
        Kind::I16 => -32768 <= number && number < 32768,
        Kind::U16 => 0 <= number && number < 65536,
        Kind::I32 => -(1 << 31) <= number && number < 1 << 31,
        Kind::U32 | Kind::Ptr => 0 <= number && number < 1 << 32,
    }
}

/// Whether what a line sets is a number of a kind, each time that it has a value.
pub(crate) fn gives(kind: Kind, line: Line) -> bool
    ensures { OnTrue result (Gives kind line) }
{
    match line {
        Line::Put { number, .. } => has_number(kind, number),
        Line::Convert { kind: of, .. }
        | Line::Unary { kind: of, .. }
        | Line::Compute { kind: of, .. } => has_all_of(kind, of),
        Line::Not { .. } | Line::Compare { .. } => true,
        _ => false,
    }
}
