//! The function whose parameters take too many words.
ghost use Rattle.std.specs.Prelude.{◌≡◌, ◌∷◌, [], IfOk, nat_lt};
ghost use Rattle.im_check_scopes.specs.Shape.{scopes_of};
ghost use Rattle.im_check_counts.specs.Crowded.{IsCrowdedIn};
ghost use Rattle.im_check_counts.specs.Heads.{head_of, heads_in};

use crate::heads::Head;
use crate::words::words_named;
use im_check_scopes::Scope;
use im_num::NoMemory;

/// The most words that the parameters of a function may take.
const PARAMETER_LIMIT: u64 = 8;

/// A function with more than 8 words of parameters, as it is declared.
#[derive(Clone, Copy)]
pub struct Crowded<'a> {
    /// The words of its parameters.
    pub words: u64,
    /// The number of its declarator's first token.
    pub at: u32,
    pub name: &'a [u8],
}

fn is_crowded(words: u64) -> bool
    ensures { result ≡ nat_lt 8 words }
{
    words > PARAMETER_LIMIT
}

fn crowded_head<'a>(scope: &Scope, head: &'a Head) -> Result<Option<Crowded<'a>>, NoMemory>
    ensures { IfOk result (IsCrowdedIn (scopes_of scope.now) (head_of head.now ∷ [])) }
{
    let words = words_named(scope, &head.name)?;
    if !is_crowded(words) {
        return Ok(None);
    }
    Ok(Some(Crowded {
        words,
        at: head.at,
        name: &head.name,
    }))
}

/// The first of these functions with more than 8 words of parameters, by the types that their names
/// have in these scopes, where there is one.
pub fn first_crowded<'a>(scope: &Scope, heads: &'a [Head]) -> Result<Option<Crowded<'a>>, NoMemory>
    ensures { IfOk result (IsCrowdedIn (scopes_of scope.now) (heads_in heads.now)) }
{
    for head in heads {
        match crowded_head(scope, head)? {
            Some(function) => return Ok(Some(function)),
            None => {}
        }
    }
    Ok(None)
}
