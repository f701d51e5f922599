ghost use Rattle.std.specs.Prelude.{◌≡◌, [], ◌∷◌, ◌++◌, ◌==◌, map, IfErr, IfOk, OnOk, MatchResult};
ghost use Rattle.std.specs.Prelude.{Some, string_bytes};
ghost use Rattle.std.specs.List.{slice_split};
ghost use Rattle.im_trial.specs.Finding.{Refuses};
ghost use Rattle.im_trial.specs.Rows.{field_of, wanted_of};
ghost use Rattle.im_trial.specs.Tables.{fields_in, said_of};
ghost use Rattle.im_trial.specs.Texts.{bytes_of, words_of};

use crate::fields::word_of;
use crate::stop::Stop;
use crate::texts::Texts;
use std::alloc::{AllocError, Global};

/// A row of a table: its fields, of which the first is its kind, the second its name and the last
/// what it wants, and the lines below it.
#[derive(Drop)]
pub struct Row<'a> {
    pub fields: Vec<&'a str>,
    /// The lines below, each with an LF.
    pub below: String,
}

impl<'a> Row<'a> {
    /// The row whose fields a tabulator parts, with nothing below.
    pub(crate) fn new(alloc: Global, line: &'a str) -> Result<Row<'a>, Stop>
        ensures row { IfOk result (λ row. said_of row
            ≡ record { fields = fields_in line.now; below = [] }) }
        ensures stop { IfErr result (λ stop. stop ≡ Stop.Memory) }
    {
        Ok(Row {
            fields: fields_of(alloc, line)?,
            below: String::new(alloc),
        })
    }

    /// Puts a line below it.
    pub(crate) fn put_below(&mut self, line: &str) -> Result<(), Stop>
        ensures fields { self.new.fields ≡ self.old.fields }
        ensures below { OnOk result (string_bytes self.new.below
            ≡ string_bytes self.old.below ++ (line.now ++ 10 ∷ [])) }
        ensures stop { IfErr result (λ stop. stop ≡ Stop.Memory) }
    {
        self.below.push_str(line)?;
        self.below.push('\n')?;
        Ok(())
    }

    /// The field of that number, as it is written, and nothing where there is none.
    pub fn field(&self, number: usize) -> &'a str
        ensures { result.now ≡ field_of self.now number }
    {
        match self.fields.get(number) {
            Some(field) => *field,
            None => "",
        }
    }

    /// The kind, by which it is read.
    pub fn kind(&self) -> &'a str
        ensures { result.now ≡ field_of self.now 0 }
    {
        self.field(0)
    }

    /// The name, which is printed with the verdict.
    pub fn name(&self) -> &'a str
        ensures { result.now ≡ field_of self.now 1 }
    {
        self.field(1)
    }

    /// What the case should find: the last field, or the lines below where that is `|`.
    pub fn wanted(&self) -> &str
        ensures { result.now ≡ wanted_of self.now }
    {
        let field = self.field(self.fields.len().saturating_sub(1));
        if field == "|" {
            self.below.as_str()
        } else {
            field
        }
    }

    /// The lines below, each with an LF.
    pub fn below(&self) -> &str
        ensures { result.now ≡ string_bytes self.now.below }
    {
        self.below.as_str()
    }

    /// The bytes of a field: the lines below for `|`, a text of the tables for `@NAME`, or what is
    /// written, without escapes.
    pub fn bytes(&self, alloc: Global, texts: &Texts, number: usize) -> Result<Vec<u8>, Stop>
        ensures { MatchResult result (λ bytes. bytes_of texts.now self.now number ≡ Some bytes.items)
            (Refuses (bytes_of texts.now self.now number)) }
    {
        let Some(field) = self.fields.get(number) else {
            return Err(Stop::Row);
        };
        if *field == "|" {
            return Ok(Vec::from_slice(alloc, self.below.as_bytes())?);
        }
        texts.written(alloc, field)
    }

    /// The words of a field, of hexadecimal digits, with a blank between two.
    pub fn words(&self, alloc: Global, number: usize) -> Result<Vec<u32>, Stop>
        ensures { MatchResult result (λ words. words_of self.now number ≡ Some words.items)
            (Refuses (words_of self.now number)) }
    {
        let parts = blank_parts(alloc, self.field(number))?;
        let mut words = Vec::new(alloc);
        for part in &parts {
            if !part.is_empty() {
                words.push(word_of(part)?)?;
            }
        }
        Ok(words)
    }
}

// The parts of a line that tabulators part.
fn fields_of(alloc: Global, line: &str) -> Result<Vec<&str>, AllocError>
    ensures { IfOk result (λ fields. map (λ field. field.now) fields.items ≡ fields_in line.now) }
{
    line.split('\t').collect(alloc)
}

fn blank_parts(alloc: Global, text: &str) -> Result<Vec<&str>, AllocError>
    ensures { IfOk result (λ parts. map (λ part. part.now) parts.items
        ≡ slice_split (λ byte. byte == 32) text.now) }
{
    text.split(' ').collect(alloc)
}
