//! Names.
ghost use Rattle.std.specs.Prelude.{◌≡◌, ◌↔◌, IsTrue};
ghost use Rattle.im_check_declarators.specs.im_rules.Statements as s;
ghost use Rattle.im_check_declarators.specs.im_rules.TypeTests as q;
ghost use Rattle.im_check_declarators.specs.Shape.{declared_of};

use im_check_declarators::Declared;

fn is_equal(first: &[u8], second: &[u8]) -> bool
    ensures { IsTrue result ↔ first.now ≡ second.now }
{
    first == second
}

pub(crate) fn same_name(first: &[u8], second: &[u8]) -> bool
    ensures { result ≡ q.same_name first.now second.now }
{
    is_equal(first, second)
}

/// The name that is declared; empty where there is none.
pub(crate) fn name_in(y: &Declared) -> &[u8]
    ensures { result.now ≡ s.name_of (declared_of y.now).name }
{
    match &y.name {
        None => &[],
        Some(name) => name,
    }
}
