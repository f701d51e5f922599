//! What names and tags mean.
ghost use Rattle.std.specs.Prelude.{◌≡◌, Some, None, MatchOption};
ghost use Rattle.std.specs.Option.{option_map};
ghost use Rattle.im_check_name_map.specs.im_rules.Scopes as s;
ghost use Rattle.im_check_scopes.specs.Shape.{scopes_of, entity_of, tag_of};
ghost use Rattle.im_check_scopes.specs.Search.{is_before, entity_named, tag_named};

use crate::entity::{Entity, Entry, Tag};
use crate::scope::Scope;

impl Scope {
    /// What a name means: its innermost declaration (C11 6.2.1p4).
    pub fn meaning(&self, name: &[u8]) -> Option<&Entity>
        ensures { MatchOption result (s.meaning (scopes_of self.now) name.now ≡ None)
            (λ e. s.meaning (scopes_of self.now) name.now ≡ Some (entity_of e.now)) }
    {
        let place = self.names.number(name)?;
        entity_in(&self.kept[place].entry)
    }

    /// What a name means in the innermost scope alone.
    pub fn meaning_here(&self, name: &[u8]) -> Option<&Entity>
        ensures { MatchOption result (s.meaning_here (scopes_of self.now) name.now ≡ None)
            (λ e. s.meaning_here (scopes_of self.now) name.now ≡ Some (entity_of e.now)) }
    {
        let place = self.names.number(name)?;
        if is_outside(place, self.innermost) {
            return None;
        }
        entity_in(&self.kept[place].entry)
    }

    /// What a tag means.
    pub fn tag_meaning(&self, tag: &[u8]) -> Option<Tag>
        ensures { option_map tag_of result ≡ s.tag_meaning (scopes_of self.now) tag.now }
    {
        let place = self.tags.number(tag)?;
        tag_in(&self.kept[place].entry)
    }

    /// What a tag means in the innermost scope alone.
    pub fn tag_meaning_here(&self, tag: &[u8]) -> Option<Tag>
        ensures { option_map tag_of result ≡ s.tag_meaning_here (scopes_of self.now) tag.now }
    {
        let place = self.tags.number(tag)?;
        if is_outside(place, self.innermost) {
            return None;
        }
        tag_in(&self.kept[place].entry)
    }

    /// Whether no scope is opened but that of the file.
    pub fn at_file_scope(&self) -> bool
        ensures { result ≡ s.at_file_scope (scopes_of self.now) }
    {
        self.innermost.is_none()
    }
}

fn entity_in(entry: &Entry) -> Option<&Entity>
    ensures { MatchOption result (entity_named entry.now ≡ None)
        (λ e. entity_named entry.now ≡ Some (entity_of e.now)) }
{
    match entry {
        Entry::Named(_, entity) => Some(entity),
        Entry::Opened | Entry::Tagged(_, _) => None,
    }
}

fn tag_in(entry: &Entry) -> Option<Tag>
    ensures { option_map tag_of result ≡ tag_named entry.now }
{
    match entry {
        Entry::Tagged(_, meaning) => Some(*meaning),
        Entry::Opened | Entry::Named(_, _) => None,
    }
}

/// Whether a place stands before the innermost scope.
fn is_outside(place: usize, innermost: Option<usize>) -> bool
    ensures { result ≡ is_before place innermost }
{
    match innermost {
        Some(opening) => place < opening,
        None => false,
    }
}
