ghost use Rattle.std.specs.Prelude.{◌≡◌, ◌<◌, [], ◌∷◌, None, Some, IfSome, MatchResult, codes, pos};
ghost use Rattle.std.specs.Prelude.{string_bytes, unwrap_or};
ghost use Rattle.im_trial.specs.Escapes.{quoted as quoted_of};
ghost use Rattle.im_trial.specs.Finding.{EndsUnless, Finds, IsEnded, Parts, Reads, first_stop};
ghost use Rattle.im_trial.specs.Finding.{found_of, parted_at, without_blank as text_without_blank};
ghost use Rattle.im_trial.specs.Numbers.{integer_in, word_digits, word_in};
ghost use Rattle.im_trial.specs.Texts.{bytes_of as field_bytes, words_of as field_words};
ghost use Rattle.im_trial.specs.declared.stop.Stop.TheVariants.{Memory};

use crate::escapes::{quoted, word_text};
use crate::fields::{number_of, small_of, word_of};
use crate::row::Row;
use crate::stop::Stop;
use crate::texts::Texts;
use std::alloc::{AllocError, Global};
use std::fmt::{Debug, Display};

/// A case: what it finds, as a text, and why it ends early. What has ended goes on to its last line
/// all the same.
#[derive(Drop)]
pub struct Case {
    pub alloc: Global,
    /// What was found, each thing behind a blank.
    pub text: String,
    /// What ended it first.
    pub stop: Option<Stop>,
}

fn first_of(ended: Option<Stop>, stop: Stop) -> Option<Stop>
    ensures { result ≡ first_stop ended stop }
{
    match ended {
        None => Some(stop),
        Some(first) => Some(first),
    }
}

fn without_blank(text: &str) -> &str
    ensures { result.now ≡ text_without_blank text.now }
{
    match text.strip_prefix(' ') {
        Some(rest) => rest,
        None => text,
    }
}

impl Case {
    /// A case that has found nothing yet.
    pub fn new(alloc: Global) -> Case
        ensures text { string_bytes result.text ≡ [] }
        ensures stop { result.stop ≡ None }
    {
        Case {
            alloc,
            text: String::new(alloc),
            stop: None,
        }
    }

    /// Ends the case early. What ended it first is why.
    pub fn end(&mut self, stop: Stop)
        ensures { IsEnded stop self.old self.new }
    {
        self.stop = first_of(self.stop, stop);
    }

    /// What the case finds in all, without the blank before it. One that ended early finds why.
    pub fn found(&self) -> &str
        ensures { result.now ≡ found_of self.now }
    {
        match self.stop {
            Some(Stop::Row) => "no case",
            Some(Stop::Memory) => "out of memory",
            Some(Stop::Files) => "no file",
            None => without_blank(&self.text),
        }
    }

    /// What was made, and none where the case ends for want of it.
    pub fn take<T: Drop>(&mut self, made: Result<T, Stop>) -> Option<T>
        ensures made { MatchResult made (λ value. result ≡ Some value) (λ _. result ≡ None) }
        ensures case { MatchResult made (λ _. self.new ≡ self.old)
            (λ stop. IsEnded stop self.old self.new) }
    {
        match made {
            Ok(value) => Some(value),
            Err(stop) => {
                self.end(stop);
                None
            }
        }
    }
}

// What is found.
impl Case {
    /// Finds a text.
    pub fn say(&mut self, text: &str)
        ensures { Finds text.now self.old self.new }
    {
        match self.text.push_str(text) {
            Ok(()) => {}
            Err(_) => self.end(Stop::Memory),
        }
    }

    /// Finds a text, if there was memory for it.
    pub fn tell(&mut self, text: Result<String, AllocError>)
        ensures { MatchResult text (λ told. Finds (string_bytes told) self.old self.new)
            (λ _. IsEnded Memory self.old self.new) }
    {
        match text {
            Ok(text) => self.say(&text),
            Err(_) => self.end(Stop::Memory),
        }
    }

    /// Finds a value, behind a blank.
    pub fn show<T: Display + Drop>(&mut self, value: T)
        ensures { IfSome (T.output value) (λ text. Finds (32 ∷ text) self.old self.new) }
    {
        let text = format!(in self.alloc; " {value}");
        self.tell(text);
    }

    /// Finds a value as it is written in code, behind a blank.
    pub fn debug<T: Debug>(&mut self, value: &T)
        ensures { IfSome (T.debug_output value.now)
            (λ text. Finds (32 ∷ text) self.old self.new) }
    {
        let text = format!(in self.alloc; " {value:?}");
        self.tell(text);
    }

    /// Finds a word of 32 bits in hexadecimal digits, behind a blank.
    pub fn word(&mut self, word: u32)
        ensures { Finds (32 ∷ word_digits word) self.old self.new }
    {
        let text = word_text(self.alloc, word);
        self.tell(text);
    }

    /// Finds bytes, behind a blank and between quotes, with the escapes of a field.
    pub fn bytes(&mut self, bytes: &[u8])
        ensures { Finds (quoted_of bytes.now) self.old self.new }
    {
        let text = quoted(self.alloc, bytes);
        self.tell(text);
    }
}

// What is read. Where a text is out of form the case ends, and goes on with nothing.
impl Case {
    fn or<T: Copy>(&mut self, read: Result<T, Stop>, nothing: T) -> T
        ensures value { MatchResult read (λ value. result ≡ value) (λ _. result ≡ nothing) }
        ensures case { MatchResult read (λ _. self.new ≡ self.old)
            (λ stop. IsEnded stop self.old self.new) }
    {
        match read {
            Ok(value) => value,
            Err(stop) => {
                self.end(stop);
                nothing
            }
        }
    }

    /// A number of 32 bits, of decimal digits.
    pub fn small(&mut self, text: &str) -> u32
        ensures number { result ≡ unwrap_or (word_in 10 text.now) 0 }
        ensures case { EndsUnless (word_in 10 text.now) self.old self.new }
    {
        self.or(small_of(text), 0)
    }

    /// A number of decimal digits, maybe with a sign.
    pub fn number(&mut self, text: &str) -> i64
        ensures number { result ≡ unwrap_or (integer_in text.now) (pos 0) }
        ensures case { EndsUnless (integer_in text.now) self.old self.new }
    {
        self.or(number_of(text), 0)
    }

    /// A word of 32 bits, of hexadecimal digits.
    pub fn hex(&mut self, text: &str) -> u32
        ensures word { result ≡ unwrap_or (word_in 16 text.now) 0 }
        ensures case { EndsUnless (word_in 16 text.now) self.old self.new }
    {
        self.or(word_of(text), 0)
    }

    /// The texts before and behind the first such mark, which is of ASCII.
    pub fn parted<'a>(&mut self, text: &'a str, mark: char) -> (&'a str, &'a str)
        ensures parts { mark < 128 → Parts (parted_at mark text.now) result }
        ensures case { mark < 128 → EndsUnless (parted_at mark text.now) self.old self.new }
    {
        match text.split_once(mark) {
            Some(parts) => parts,
            None => {
                self.end(Stop::Row);
                ("", "")
            }
        }
    }

    /// The bytes of a field.
    pub fn bytes_of(&mut self, texts: &Texts, row: &Row<'_>, number: usize) -> Vec<u8>
        ensures { Reads (field_bytes texts.now row.now number) result.items self.old self.new }
    {
        match row.bytes(self.alloc, texts, number) {
            Ok(bytes) => bytes,
            Err(stop) => {
                self.end(stop);
                Vec::new(self.alloc)
            }
        }
    }

    /// The words of a field.
    pub fn words_of(&mut self, row: &Row<'_>, number: usize) -> Vec<u32>
        ensures { Reads (field_words row.now number) result.items self.old self.new }
    {
        match row.words(self.alloc, number) {
            Ok(words) => words,
            Err(stop) => {
                self.end(stop);
                Vec::new(self.alloc)
            }
        }
    }
}
