ghost use Rattle.std.specs.Prelude.{◌≡◌, ◌^◌, ◌<◌, IfOk, MatchResult, length, map};
ghost use Rattle.std.specs.List.{All};
ghost use Rattle.im_word.specs.Shown.{shown};
ghost use Rattle.im_parse.specs.declared.text.ParseFault.TheVariants.{Dimensions, Memory};
ghost use Rattle.im_ctree.specs.Shape.{tree_of};
ghost use Rattle.im_ctree.specs.Units.{Spells};
ghost use Rattle.im_parse.specs.Spelling.{AreWords, IsCutShort, IsParsed, earlier, IsParsedText};
ghost use Rattle.im_parse.specs.Spelling.{IsWithin, IsWholeFault};

use super::dimensions::first_dimensioned;
use super::units::unit;
use im_ctree::Tree;
use im_num::{NoMemory, beyond_memory};
use im_parse_core::Stop;
use im_tok::Token;
use im_word::{Word, first_too_deep, word_of};
use std::alloc::Global;

/// Why a text has no tree.
#[derive(Clone, Copy, PartialEq, Eq, Debug)]
pub enum ParseFault {
    /// The number of the first token whose nesting is over 200.
    Depth(u32),
    /// The number of the first token at which dimensions are over 512, where some unit begins with
    /// those before it.
    Dimensions(u32),
    /// The number of the first token that no unit goes on with, which is that of the end where
    /// every token is gone on with.
    Syntax(u32),
    /// Memory ran out.
    Memory,
}

impl From<NoMemory> for ParseFault {
    ghost from_gives = { λ _ fault. fault ≡ Memory };

    fn from(_fault: NoMemory) -> ParseFault {
        ParseFault::Memory
    }
}

/// The words of tokens.
fn words_of<'a>(
    alloc: Global,
    source: &'a [u8],
    tokens: &[Token],
) -> Result<Vec<Word<'a>>, NoMemory>
    requires { All (IsWithin source.now) tokens.now }
    ensures { IfOk result (λ words. AreWords source.now tokens.now (map shown words.items)) }
{
    let mut words = Vec::with_capacity(alloc, tokens.len())?;
    for token in tokens {
        let word = word_of(alloc, source, token)?;
        words.push(word)?;
    }
    Ok(words)
}

/// The syntax tree that the tokens of a source spell (C11 6.9), or why there is none; their nesting
/// is looked at first, and then which comes first, dimensions over their limit or a token that no
/// unit goes on with. The tokens are given back before the tree grows.
pub fn parse(alloc: Global, source: &[u8], tokens: Vec<Token>) -> Result<Tree, ParseFault>
    requires { All (IsWithin source.now) tokens.items }
    ensures { IsParsedText source.now tokens.items result }
{
    let words = words_of(alloc, source, &tokens)?;
    drop(tokens);
    if words.len() > u32::MAX as usize {
        return Err(ParseFault::from(beyond_memory()));
    }
    parsed(alloc, &words)
}

/// The tree that words spell.
fn parsed(alloc: Global, words: &[Word]) -> Result<Tree, ParseFault>
    requires { length words.now < 2 ^ 32 }
    ensures { IsParsed (map shown words.now) result }
{
    match first_too_deep(alloc, words) {
        Err(_) => return Err(ParseFault::Memory),
        Ok(Some(place)) => return Err(ParseFault::Depth(place as u32)),
        Ok(None) => {}
    }
    match first_dimensioned(alloc, words) {
        Err(_) => Err(ParseFault::Memory),
        Ok(Some(place)) => Err(cut_short(alloc, words, place)),
        Ok(None) => whole(alloc, words),
    }
}

/// The tree that words spell whose dimensions are within their limit.
fn whole(alloc: Global, words: &[Word]) -> Result<Tree, ParseFault>
    requires { length words.now < 2 ^ 32 }
    ensures { MatchResult result (λ tree. Spells (tree_of tree) (map shown words.now))
        (IsWholeFault (map shown words.now)) }
{
    match unit(alloc, words) {
        Ok(tree) => Ok(tree),
        Err(Stop::Syntax(place)) => Err(ParseFault::Syntax(place)),
        Err(Stop::Memory) => Err(ParseFault::Memory),
    }
}

/// Why a text has no tree of which this word is the first with dimensions over the limit. Those
/// before it are parsed alone, so that a fault among them is told, which stands earlier, and no
/// larger tree grows.
fn cut_short(alloc: Global, words: &[Word], place: usize) -> ParseFault
    requires number { length words.now < 2 ^ 32 }
    requires within { place < length words.now }
    ensures { IsCutShort (map shown words.now) place result }
{
    let stop = match unit(alloc, &words[..place]) {
        Ok(_) => return dimensions_at(place),
        Err(stop) => stop,
    };
    match stop {
        Stop::Syntax(fault) => earlier(fault, place),
        Stop::Memory => ParseFault::Memory,
    }
}

fn dimensions_at(place: usize) -> ParseFault
    requires { place < 2 ^ 32 }
    ensures { result ≡ Dimensions place }
{
    ParseFault::Dimensions(place as u32)
}

/// What stands first, a fault of syntax or dimensions over their limit.
fn earlier(fault: u32, place: usize) -> ParseFault
    requires { place < 2 ^ 32 }
    ensures { result ≡ earlier fault place }
{
    if (fault as usize) < place {
        ParseFault::Syntax(fault)
    } else {
        dimensions_at(place)
    }
}
