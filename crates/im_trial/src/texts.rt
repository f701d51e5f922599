ghost use Rattle.std.specs.Prelude.{◌≡◌, ℕ, List, [], ◌++◌, true, false, is_some, IfErr, IfOk};
ghost use Rattle.std.specs.Prelude.{MatchResult, OnErr, OnOk, Some};
ghost use Rattle.std.specs.List.{flat_map, repeat};
ghost use Rattle.im_num.specs.Bytes.{word_bytes};
ghost use Rattle.im_trial.specs.Finding.{Refuses};
ghost use Rattle.im_trial.specs.Rows.{field_of};
ghost use Rattle.im_trial.specs.Texts.{has_text, is_file, repeat_text, text_named};
ghost use Rattle.im_trial.specs.Texts.{text_of as text_written, texts_behind, with_text, words_of};
ghost use Rattle.im_trial.specs.Texts.{words_text, writing_by, writing_of, written_in};

use crate::escapes::unescaped;
use crate::fields::small_of;
use crate::row::Row;
use crate::stop::Stop;
use std::alloc::{AllocError, Global};
use std::fs;
use std::marker::Model;

/// A text that rows speak of by its name.
#[derive(Drop)]
struct Text {
    name: String,
    bytes: Vec<u8>,
}

/// How a row writes a text: its bytes, its words, or what stands in it so many times.
#[derive(Clone, Copy)]
enum Writing {
    Bytes,
    Words,
    Repeat,
}

/// The texts of the tables.
#[derive(Drop)]
pub struct Texts {
    all: Vec<Text>,
}

impl Model for Texts {
    ghost use Rattle.std.specs.Prelude.{List};
    ghost use Rattle.im_trial.specs.Texts.{Named, all_named};

    ghost Value = { List Named };

    ghost view = { λ texts. all_named texts.all.items };
}

impl Texts {
    /// None yet.
    pub fn new(alloc: Global) -> Texts
        ensures { result ≡ [] }
    {
        Texts {
            all: Vec::new(alloc),
        }
    }

    /// The text of that name.
    pub fn find(&self, name: &str) -> Result<&[u8], Stop>
        ensures { let found = text_named name.now self.now in
            MatchResult result (λ bytes. found ≡ Some bytes.now) (Refuses found) }
    {
        for text in &self.all {
            if text.name.as_str() == name {
                return Ok(text.bytes.as_slice());
            }
        }
        Err(Stop::Row)
    }

    /// What is written in a word: the text of that name for `@NAME`, and else its bytes, without
    /// escapes.
    pub fn written(&self, alloc: Global, word: &str) -> Result<Vec<u8>, Stop>
        ensures { let found = written_in self.now word.now in
            MatchResult result (λ bytes. found ≡ Some bytes.items) (Refuses found) }
    {
        match word.strip_prefix('@') {
            Some(name) => Ok(Vec::from_slice(alloc, self.find(name)?)?),
            None => unescaped(alloc, word),
        }
    }

    // Puts a text of that name behind the others.
    fn push(&mut self, alloc: Global, name: &str, bytes: Vec<u8>) -> Result<(), Stop>
        ensures put { OnOk result (self.new ≡ with_text self.old name.now bytes.items) }
        ensures same { OnErr result (self.new ≡ self.old) }
        ensures stop { IfErr result (λ stop. stop ≡ Stop.Memory) }
    {
        let name = String::from_str(alloc, name)?;
        self.all.push(Text { name, bytes })?;
        Ok(())
    }

    // Takes the text that a row writes, and tells whether it writes one.
    fn take_written(&mut self, alloc: Global, row: &Row<'_>) -> Result<bool, Stop>
        ensures taken { IfOk result (λ taken. taken ≡ is_some (writing_of row.now)) }
        ensures texts { let texts = texts_behind self.old row.now in
            MatchResult result (λ _. texts ≡ Some self.new) (Refuses texts) }
        ensures same { OnErr result (self.new ≡ self.old) }
    {
        match writing_of(row.kind()) {
            None => Ok(false),
            Some(writing) => {
                let bytes = text_of(alloc, self, row, writing)?;
                self.push(alloc, row.name(), bytes)?;
                Ok(true)
            }
        }
    }

    /// Takes the text of a row, and tells whether the row is of a kind that has one: `text NAME
    /// BYTES`, `file NAME`, which is a file beside the table, `words NAME WORDS`, `repeat NAME
    /// FRONT LINK COUNT END`.
    pub fn take(&mut self, rt: &HostRuntime, row: &Row<'_>) -> Result<bool, Stop>
        ensures taken { IfOk result (λ taken. taken ≡ has_text row.now) }
        ensures file { is_file row.now ≡ true → OnOk result ((bytes : List ℕ)
            × (self.new ≡ with_text self.old (field_of row.now 1) bytes)) }
        ensures written { is_file row.now ≡ false → (let texts = texts_behind self.old row.now in
            MatchResult result (λ _. texts ≡ Some self.new) (Refuses texts)) }
        ensures same { OnErr result (self.new ≡ self.old) }
    {
        if row.kind() == "file" {
            let bytes = file_of(rt, row.name())?;
            self.push(rt.alloc(), row.name(), bytes)?;
            return Ok(true);
        }
        self.take_written(rt.alloc(), row)
    }
}

// How a row of that kind writes a text.
fn writing_of(kind: &str) -> Option<Writing>
    ensures { result ≡ writing_by kind.now }
{
    if kind == "text" {
        Some(Writing::Bytes)
    } else if kind == "words" {
        Some(Writing::Words)
    } else if kind == "repeat" {
        Some(Writing::Repeat)
    } else {
        None
    }
}

// The bytes of the text that a row writes so.
fn text_of(alloc: Global, texts: &Texts, row: &Row<'_>, writing: Writing) -> Result<Vec<u8>, Stop>
    ensures { let text = text_written texts.now row.now writing in
        MatchResult result (λ bytes. text ≡ Some bytes.items) (Refuses text) }
{
    match writing {
        Writing::Bytes => row.bytes(alloc, texts, 2),
        Writing::Words => bytes_of_words(alloc, row),
        Writing::Repeat => repeated(alloc, texts, row),
    }
}

fn put_word(bytes: &mut Vec<u8>, word: u32) -> Result<(), AllocError>
    ensures { OnOk result (bytes.new.items ≡ bytes.old.items ++ word_bytes word) }
{
    bytes.extend_from_slice(&word.to_le_bytes())
}

fn put_words(bytes: &mut Vec<u8>, words: &[u32]) -> Result<(), AllocError>
    ensures { OnOk result (bytes.new.items ≡ bytes.old.items ++ flat_map word_bytes words.now) }
{
    for word in words {
        put_word(bytes, *word)?;
    }
    Ok(())
}

// Words, each with its lowest byte first.
fn bytes_of_words(alloc: Global, row: &Row<'_>) -> Result<Vec<u8>, Stop>
    ensures { let text = words_text (words_of row.now 2) in
        MatchResult result (λ bytes. text ≡ Some bytes.items) (Refuses text) }
{
    let words = row.words(alloc, 2)?;
    let mut bytes = Vec::new(alloc);
    put_words(&mut bytes, &words)?;
    Ok(bytes)
}

fn times(alloc: Global, link: &[u8], count: u32) -> Result<Vec<u8>, AllocError>
    ensures { IfOk result (λ bytes. bytes.items ≡ repeat count link.now) }
{
    link.repeat(alloc, count as usize)
}

// A front, a link that stands so many times, and an end.
fn joined(
    alloc: Global,
    front: &[u8],
    link: &[u8],
    count: u32,
    end: &[u8],
) -> Result<Vec<u8>, AllocError>
    ensures { IfOk result (λ bytes. bytes.items
        ≡ front.now ++ (repeat count link.now ++ end.now)) }
{
    let mut bytes = Vec::from_slice(alloc, front)?;
    bytes.extend_from_slice(&times(alloc, link, count)?)?;
    bytes.extend_from_slice(end)?;
    Ok(bytes)
}

// The text of a row by its front, its link, how often the link stands, and its end.
fn repeated(alloc: Global, texts: &Texts, row: &Row<'_>) -> Result<Vec<u8>, Stop>
    ensures { let text = repeat_text texts.now row.now in
        MatchResult result (λ bytes. text ≡ Some bytes.items) (Refuses text) }
{
    let front = row.bytes(alloc, texts, 2)?;
    let link = row.bytes(alloc, texts, 3)?;
    let count = small_of(row.field(4))?;
    let end = row.bytes(alloc, texts, 5)?;
    Ok(joined(alloc, &front, &link, count, &end)?)
}

// The bytes of a file.
fn file_of(rt: &HostRuntime, name: &str) -> Result<Vec<u8>, Stop>
    ensures { IfErr result (λ stop. stop ≡ Stop.Files) }
{
    Ok(fs::read(rt, name)?)
}
