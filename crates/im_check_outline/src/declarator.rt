//! What declarators declare.
ghost use Rattle.std.specs.Prelude.{◌≡◌};
ghost use Rattle.im_ctree.specs.Tree as t;
ghost use Rattle.im_ctree.specs.Shape.{declarator_of, core_of};
ghost use Rattle.im_check_name_map.specs.im_rules.Outline as o;
ghost use Rattle.im_ctree_parts.specs.Lists.{suffixes_from, with_suffix, stars_in};
ghost use Rattle.im_check_outline.specs.Walked.{nearest_of};

use im_ctree::{Core, Declarator, Parameter, Star, Suffix, SuffixKind};

/// The name that a declarator declares; empty where it has none.
#[cycle(names)]
pub fn name_of(d: &Declarator) -> &[u8]
    ensures { result.now ≡ o.name_of (declarator_of d.now) }
{
    core_name(&d.core)
}

#[cycle(names)]
fn core_name(core: &Core) -> &[u8]
    ensures { result.now ≡ o.core_name (core_of core.now) }
{
    match core {
        Core::Absent => &[],
        Core::Name(name) => name,
        Core::Inner(inner) => name_of(inner),
    }
}

/// What stands directly round the name (C11 6.7.6).
#[derive(Clone, Copy)]
pub enum Neighbour<'a> {
    /// Nothing but parentheses.
    Bare,
    Star,
    Length,
    Parameters(&'a [Parameter]),
}

fn in_suffix(suffix: &Suffix) -> Neighbour<'_>
    ensures { (rest : t.Suffixes) → (bare : o.Nearest) → nearest_of result
        ≡ o.suffix_or (with_suffix suffix.now.at suffix.now.kind rest) bare }
{
    match &suffix.kind {
        SuffixKind::Array(_) => Neighbour::Length,
        SuffixKind::Function(parameters) => Neighbour::Parameters(parameters),
    }
}

fn in_stars<'a>(stars: &[Star]) -> Neighbour<'a>
    ensures { nearest_of result ≡ o.star_or_bare (stars_in stars.now) }
{
    if stars.len() > 0 {
        Neighbour::Star
    } else {
        Neighbour::Bare
    }
}

/// What stands round a core: a suffix binds tighter than a star.
fn round_core<'a>(stars: &[Star], suffixes: &'a [Suffix]) -> Neighbour<'a>
    ensures { nearest_of result ≡ o.suffix_or (suffixes_from suffixes.now)
        (o.star_or_bare (stars_in stars.now)) }
{
    if suffixes.len() > 0 {
        return in_suffix(&suffixes[0]);
    }
    in_stars(stars)
}

fn inner_or<'a>(inner: Neighbour<'a>, outer: Neighbour<'a>) -> Neighbour<'a>
    ensures { nearest_of result ≡ o.inner_or (nearest_of inner.entry) (nearest_of outer.entry) }
{
    match inner {
        Neighbour::Bare => outer,
        found => found,
    }
}

#[cycle(nearest)]
pub fn nearest(d: &Declarator) -> Neighbour<'_>
    ensures { nearest_of result ≡ o.nearest (declarator_of d.now) }
{
    inner_or(nearest_in(&d.core), round_core(&d.stars, &d.suffixes))
}

#[cycle(nearest)]
fn nearest_in(core: &Core) -> Neighbour<'_>
    ensures { nearest_of result ≡ o.nearest_in (core_of core.now) }
{
    match core {
        Core::Absent | Core::Name(_) => Neighbour::Bare,
        Core::Inner(inner) => nearest(inner),
    }
}

/// Whether a function is declared, where its specifiers are of a function type or not.
pub(crate) fn gives_function(nearest: Neighbour<'_>, of_function: bool) -> bool
    ensures { result ≡ o.gives_function (nearest_of nearest.entry) of_function }
{
    match nearest {
        Neighbour::Parameters(_) => true,
        Neighbour::Bare => of_function,
        Neighbour::Star | Neighbour::Length => false,
    }
}
