ghost use Rattle.std.specs.Prelude.{◌≡◌, map};
ghost use Rattle.im_ctree.specs.Tree as t;
ghost use Rattle.im_ctree.specs.Shape.{declarator_of};
ghost use Rattle.im_parse_expression.specs.Declaring.{Makes, joined, add_suffix, suffix_tree};
ghost use Rattle.im_parse_expression.specs.Declaring.{stars_tree, suffixes_tree};
ghost use Rattle.im_parse_core.specs.Lists.{before};

use im_ctree::{Core, Declarator, Star, Suffix};
use im_parse_core::Stop;
use std::alloc::Global;

/// Whether there are no stars.
pub fn unstarred(stars: &[Star]) -> bool
    ensures { result ≡ t.unstarred (map (λ star. star.consts) stars.now) }
{
    stars.len() == 0
}

/// Whether there are no suffixes.
fn unsuffixed(suffixes: &[Suffix]) -> bool
    ensures { result ≡ t.unsuffixed (before add_suffix (map suffix_tree suffixes.now)
        t.no_suffixes) }
{
    suffixes.len() == 0
}

/// A declarator whose parentheses aren't kept, with these stars before it and these suffixes
/// behind.
fn merged(
    at: u32,
    mut stars: Vec<Star>,
    inner: Declarator,
    mut suffixes: Vec<Suffix>,
) -> Result<Declarator, Stop>
    ensures { Makes declarator_of result
        (joined at (stars_tree stars) (declarator_of inner) (suffixes_tree suffixes)) }
{
    let Declarator {
        stars: mut more,
        core,
        suffixes: mut all,
        ..
    } = inner;
    stars.append(&mut more)?;
    all.append(&mut suffixes)?;
    Ok(Declarator {
        at,
        stars,
        core,
        suffixes: all,
    })
}

/// A declarator in parentheses, with these stars before them and these suffixes behind; the
/// parentheses are kept only where they change what is declared.
pub fn around(
    alloc: Global,
    at: u32,
    stars: Vec<Star>,
    inner: Declarator,
    suffixes: Vec<Suffix>,
) -> Result<Declarator, Stop>
    ensures { Makes declarator_of result
        (t.around at (stars_tree stars) (declarator_of inner) (suffixes_tree suffixes)) }
{
    if unsuffixed(&suffixes) {
        return merged(at, stars, inner, suffixes);
    }
    if unstarred(&inner.stars) {
        return merged(at, stars, inner, suffixes);
    }
    let core = Core::Inner(Box::new(alloc, inner)?);
    Ok(Declarator {
        at,
        stars,
        core,
        suffixes,
    })
}
