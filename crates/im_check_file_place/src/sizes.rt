//! The bytes of statics.
ghost use Rattle.std.specs.Prelude.{◌≡◌, IfOk, Some, slice_get};
ghost use Rattle.im_check_place.specs.im_rules.FileScope as f;
ghost use Rattle.im_check_scopes.specs.Shape.{scopes_of, entity_of};
ghost use Rattle.im_check_place.specs.im_rules.Scopes as s;
ghost use Rattle.im_ctype.specs.Table.{structs_of};
ghost use Rattle.im_check_file_place.specs.Files.{file_place_of, bytes_of};

use crate::file::File;
use im_check_place::Place;
use im_check_scopes::{Entity, Scope};
use im_ctype::TypeTable;
use im_num::NoMemory;
use im_types::size;

/// The bytes of what a name means: of an object as far as it is declared, 0 of all else.
fn size_of_meaning(table: &TypeTable, meaning: &Entity) -> Result<u64, NoMemory>
    ensures { IfOk result (λ n. n ≡ f.size_of_type (structs_of table.now)
        (f.object_type (Some (entity_of meaning.now)))) }
{
    match meaning {
        Entity::Object(_, ty, _) => size(table, ty),
        Entity::Function(_, _, _) | Entity::Enumerator(_) | Entity::Typedef(_, _) => Ok(0),
    }
}

fn size_of_name(table: &TypeTable, scope: &Scope, name: &[u8]) -> Result<u64, NoMemory>
    ensures { IfOk result (λ n. n ≡ f.size_of_type (structs_of table.now)
        (f.object_type (s.meaning (scopes_of scope.now) name.now))) }
{
    match scope.meaning(name) {
        None => Ok(0),
        Some(meaning) => size_of_meaning(table, meaning),
    }
}

/// The bytes of a string literal with its zero; 0 where there is none of that number.
fn size_of_text(texts: &[Vec<u8>], number: usize) -> u64
    ensures { result ≡ f.size_of_string (slice_get (bytes_of texts.now) number) }
{
    match texts.get(number) {
        None => 0,
        Some(text) => text.len() as u64 + 1,
    }
}

impl File {
    /// The bytes of a static, as far as it is declared: an object, or a string literal behind
    /// those.
    pub fn static_size(&self, number: usize) -> Result<u64, NoMemory>
        ensures { IfOk result (λ n. n ≡ f.static_size (file_place_of self.now) number) }
    {
        let statics = &self.place.outline.statics;
        match statics.get(number) {
            Some(name) => size_of_name(self.place.structs.table(), &self.place.scope, name),
            None => Ok(size_of_text(&self.texts, number - statics.len())),
        }
    }
}
