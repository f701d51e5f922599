ghost use Rattle.std.specs.Prelude.{◌≡◌, [], ◌∷◌, ◌≤◌, ◌+◌, ◌-◌, ℕ, length, map, reverse, IfOk};
ghost use Rattle.std.specs.Prelude.{OnOk, MatchOption};
ghost use Rattle.im_word.specs.Shown.{shown};
ghost use Rattle.im_word.specs.Nesting.{fresh, level_behind, levels_behind, depth, role_at};
ghost use Rattle.im_word.specs.Nesting.{IsFirstOver, NoneOver};
ghost use Rattle.im_word.specs.Tally.{levels_of, IsTallied};

use super::role::{Role, role_of_word};
use super::word::Word;
use im_num::NoMemory;
use std::alloc::Global;

/// The greatest nesting of a word in a text that is accepted.
pub const NESTING_LIMIT: usize = 200;

/// What a pair of brackets, or the whole text, holds so far.
#[derive(Clone, Copy, PartialEq, Eq, Debug)]
pub struct Level {
    /// The operators and statements that are open.
    pub weight: usize,
    /// The statements and `?` in it since its weight last fell to 0 at the end of a statement.
    pub choices: usize,
    /// Whether a `do` is among them.
    pub has_do: bool,
}

impl Level {
    const FRESH: Level = Level {
        weight: 0,
        choices: 0,
        has_do: false,
    };

    /// The level behind `;` or `}`.
    fn settled(self, next: Role) -> Level
        ensures { result ≡ level_behind Role.Semicolon next self }
    {
        match next {
            Role::Else => self,
            Role::While if self.has_do => self,
            _ => Level::FRESH,
        }
    }

    /// The level behind a word that neither opens nor closes one.
    fn behind(self, word: Role, next: Role) -> Level
        requires weighed { self.choices ≤ self.weight }
        requires shallow { self.weight ≤ 200 }
        ensures { result ≡ level_behind word next self }
    {
        let Level {
            weight,
            choices,
            has_do,
        } = self;
        match word {
            Role::Semicolon => self.settled(next),
            Role::Comma => Level {
                weight: choices,
                choices,
                has_do,
            },
            Role::Do => Level {
                weight: weight + 1,
                choices: choices + 1,
                has_do: true,
            },
            Role::While | Role::Chooses => Level {
                weight: weight + 1,
                choices: choices + 1,
                has_do,
            },
            Role::Weighs => Level {
                weight: weight + 1,
                choices,
                has_do,
            },
            _ => self,
        }
    }
}

/// The levels up to a word. The innermost stands apart, since there is always one.
#[derive(Drop)]
struct Levels {
    outer: Vec<Level>,
    innermost: Level,
    /// The sum of all weights.
    weight: usize,
}

impl Levels {
    fn new(alloc: Global) -> Levels
        ensures levels { levels_of result ≡ fresh ∷ [] }
        ensures tallied { IsTallied result }
    {
        Levels {
            outer: Vec::new(alloc),
            innermost: Level::FRESH,
            weight: 0,
        }
    }

    /// The nesting.
    fn depth(&self) -> usize
        requires tallied { IsTallied self.now }
        requires shallow { self.now.weight ≤ 201 }
        ensures { result ≡ depth (levels_of self.now) }
    {
        self.outer.len() + self.weight
    }

    fn replace_innermost(&mut self, level: Level)
        requires tallied { IsTallied self.old }
        requires weighed { level.choices ≤ level.weight }
        requires shallow { level.weight ≤ 201 }
        requires shallow_before { self.old.weight ≤ 201 }
        ensures levels { levels_of self.new ≡ level ∷ reverse self.old.outer.items }
        ensures tallied { IsTallied self.new }
    {
        self.weight = self.weight - self.innermost.weight + level.weight;
        self.innermost = level;
    }

    fn open(&mut self) -> Result<(), NoMemory>
        requires { IsTallied self.old }
        ensures levels { OnOk result (levels_of self.new ≡ fresh ∷ levels_of self.old) }
        ensures tallied { OnOk result (IsTallied self.new) }
    {
        self.outer.push(self.innermost)?;
        self.innermost = Level::FRESH;
        Ok(())
    }

    fn close(&mut self)
        requires { IsTallied self.old }
        ensures levels { levels_of self.new ≡ levels_behind Role.Closes Role.Neutral
            (levels_of self.old) }
        ensures tallied { IsTallied self.new }
        ensures weight { self.new.weight ≤ self.old.weight }
    {
        if let Some(level) = self.outer.pop() {
            self.weight -= self.innermost.weight;
            self.innermost = level;
        }
    }

    /// Reads a word that the next one stands behind.
    fn read(&mut self, word: Role, next: Role) -> Result<(), NoMemory>
        requires tallied { IsTallied self.old }
        requires shallow { depth (levels_of self.old) ≤ 200 }
        ensures levels { OnOk result (levels_of self.new
            ≡ levels_behind word next (levels_of self.old)) }
        ensures tallied { OnOk result (IsTallied self.new) }
        ensures shallow { OnOk result (self.new.weight ≤ 201) }
    {
        match word {
            Role::Opens => self.open()?,
            Role::Closes => self.close(),
            Role::ClosesBrace => {
                self.close();
                self.replace_innermost(self.innermost.settled(next));
            }
            _ => self.replace_innermost(self.innermost.behind(word, next)),
        }
        Ok(())
    }
}

/// The role of word `i`, and a neutral one behind the last.
fn role_at(words: &[Word], i: usize) -> Role
    ensures { result ≡ role_at (map shown words.now) i }
{
    match words.get(i) {
        Some(word) => role_of_word(word),
        None => Role::Neutral,
    }
}

/// The first word whose nesting is over the limit.
pub fn first_too_deep(alloc: Global, words: &[Word]) -> Result<Option<usize>, NoMemory>
    ensures { IfOk result (λ found. MatchOption found (NoneOver NESTING_LIMIT (map shown words.now))
        (λ place. IsFirstOver NESTING_LIMIT (map shown words.now) place)) }
{
    let mut levels = Levels::new(alloc);
    for i in 0..words.len() {
        levels.read(role_at(words, i), role_at(words, i + 1))?;
        if levels.depth() > NESTING_LIMIT {
            return Ok(Some(i));
        }
    }
    Ok(None)
}
