ghost use Rattle.std.specs.Prelude.{◌≡◌, ◌<◌, ◌^◌, MatchResult, length, map};
ghost use Rattle.im_word.specs.Shown.{shown};
ghost use Rattle.im_ctree.specs.Shape.{tree_of};
ghost use Rattle.im_ctree.specs.Units.{Spells, predeclared_names};
ghost use Rattle.im_parse_core.specs.declared.stop.Stop.TheVariants.{Memory};
ghost use Rattle.im_parse.specs.Spelling.{StopsUnit};

use super::externals::external;
use im_ctree::Tree;
use im_parse_core::{Stop, TypedefNames};
use im_word::Word;
use std::alloc::Global;

/// The typedef names that stand in for headers, the first one last.
fn predeclared<'b>(alloc: Global) -> Result<TypedefNames<'b>, Stop>
    ensures { MatchResult result (λ names. names ≡ predeclared_names) (λ stop. stop ≡ Memory) }
{
    let mut names = TypedefNames::new(alloc);
    names.push(b"size_t")?;
    names.push(b"uint32_t")?;
    names.push(b"int32_t")?;
    names.push(b"uint16_t")?;
    names.push(b"int16_t")?;
    names.push(b"uint8_t")?;
    names.push(b"int8_t")?;
    Ok(names)
}

/// The tree of a whole text (C11 6.9).
pub fn unit(alloc: Global, words: &[Word]) -> Result<Tree, Stop>
    requires { length words.now < 2 ^ 32 }
    ensures { MatchResult result (λ tree. Spells (tree_of tree) (map shown words.now))
        (StopsUnit (map shown words.now)) }
{
    let mut names = predeclared(alloc)?;
    let mut externals = Vec::new(alloc);
    let (first, mut next) = external(alloc, words, &mut names, 0)?;
    externals.push(first)?;
    while (next as usize) < words.len() {
        let (item, end) = external(alloc, words, &mut names, next)?;
        externals.push(item)?;
        next = end;
    }
    Ok(Tree { externals })
}
