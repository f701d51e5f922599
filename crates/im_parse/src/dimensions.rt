//! Brackets in a row, `[..]` directly behind `[..]`, which the nesting doesn't count: a declarator's
//! make a type as deep as there are of them.
ghost use Rattle.std.specs.Prelude.{◌≡◌, [], ◌∷◌, ◌≤◌, map, IfOk, OnOk, MatchOption};
ghost use Rattle.im_word.specs.Shown.{shown};
ghost use Rattle.im_parse.specs.Dimensions.{mark_sign, sign_of, sign_at, runs_behind, innermost};
ghost use Rattle.im_parse.specs.Dimensions.{IsFirstDimensioned, NoneDimensioned};
ghost use Rattle.im_parse.specs.DimensionRuns.{runs_of};

use im_num::NoMemory;
use im_tok::Punctuator;
use im_word::Word;
use std::alloc::Global;

/// The most brackets in a row in a text that is accepted.
pub const DIMENSION_LIMIT: usize = 512;

/// What a word is to the brackets in a row.
#[derive(Clone, Copy, PartialEq, Eq, Debug)]
pub enum Sign {
    /// It opens a bracket.
    Opens,
    /// It closes a bracket.
    Closes,
    /// It closes a parenthesis, and a row goes on behind it.
    GoesOn,
    /// Behind it no row goes on.
    Ends,
}

fn mark_sign(mark: Punctuator) -> Sign
    ensures { result ≡ mark_sign mark }
{
    match mark {
        Punctuator::OpenBracket => Sign::Opens,
        Punctuator::CloseBracket => Sign::Closes,
        Punctuator::CloseParen => Sign::GoesOn,
        _ => Sign::Ends,
    }
}

fn sign_of(word: &Word) -> Sign
    ensures { result ≡ sign_of (shown word.now) }
{
    match word {
        Word::Mark(mark) => mark_sign(*mark),
        _ => Sign::Ends,
    }
}

/// What word `i` is, and one that ends a row behind the last.
fn sign_at(words: &[Word], i: usize) -> Sign
    ensures { result ≡ sign_at (map shown words.now) i }
{
    match words.get(i) {
        Some(word) => sign_of(word),
        None => Sign::Ends,
    }
}

/// How many brackets stand in a row up to a word, and up to each bracket that is open there.
#[derive(Drop)]
struct Runs {
    outer: Vec<usize>,
    innermost: usize,
}

impl Runs {
    fn new(alloc: Global) -> Runs
        ensures { runs_of result ≡ 0 ∷ [] }
    {
        Runs {
            outer: Vec::new(alloc),
            innermost: 0,
        }
    }

    fn open(&mut self) -> Result<(), NoMemory>
        requires { innermost (runs_of self.old) ≤ 512 }
        ensures { OnOk result (runs_of self.new ≡ runs_behind Sign.Opens (runs_of self.old)) }
    {
        let run = self.innermost + 1;
        self.outer.push(run)?;
        self.innermost = run;
        Ok(())
    }

    fn close(&mut self)
        ensures { runs_of self.new ≡ runs_behind Sign.Closes (runs_of self.old) }
    {
        match self.outer.pop() {
            Some(run) => self.innermost = run,
            None => self.innermost = 0,
        }
    }

    /// Reads a word.
    fn read(&mut self, word: Sign) -> Result<(), NoMemory>
        requires { innermost (runs_of self.old) ≤ 512 }
        ensures { OnOk result (runs_of self.new ≡ runs_behind word (runs_of self.old)) }
    {
        match word {
            Sign::Opens => self.open()?,
            Sign::Closes => self.close(),
            Sign::GoesOn => {}
            Sign::Ends => self.innermost = 0,
        }
        Ok(())
    }
}

/// The first word at which more brackets stand in a row than the limit.
pub fn first_dimensioned(alloc: Global, words: &[Word]) -> Result<Option<usize>, NoMemory>
    ensures { IfOk result (λ found. MatchOption found
        (NoneDimensioned DIMENSION_LIMIT (map shown words.now))
        (λ place. IsFirstDimensioned DIMENSION_LIMIT (map shown words.now) place)) }
{
    let mut runs = Runs::new(alloc);
    for i in 0..words.len() {
        let word = sign_at(words, i);
        runs.read(word)?;
        if runs.innermost > DIMENSION_LIMIT {
            return Ok(Some(i));
        }
    }
    Ok(None)
}
