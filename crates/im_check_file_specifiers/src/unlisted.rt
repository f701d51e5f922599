//! Specifiers without lists of members or enumerators.
ghost use Rattle.std.specs.Prelude.{◌≡◌, MatchResult};
ghost use Rattle.im_ctree.specs.Tree as t;
ghost use Rattle.im_rules.specs.FileScope as f;
ghost use Rattle.im_rules.specs.TypedUnit.{Specify};
ghost use Rattle.im_rules.specs.UnitBreaks.{file_specifiers};
ghost use Rattle.im_rules_limits.specs.Limits.{IsFileWithin};
ghost use Rattle.im_ctree_parts.specs.Lists.{list_from};
ghost use Rattle.im_check_type_specifiers.specs.Specified.{qualified_of};
ghost use Rattle.im_check_file_place.specs.Files.{file_place_of};
ghost use Rattle.im_check_file_specifiers.specs.Answers.{IsFileFault};
ghost use Rattle.im_check_file_specifiers.specs.Words.{HasNoList, MayStand};

use im_check_file_place::File;
use im_check_stop::Stop;
use im_check_type_specifiers::{Qualified, mention, type_at_file};
use im_ctree::Specifier;
use std::alloc::Global;

/// The type that specifiers without a list name; a struct's tag that isn't in scope is declared.
pub fn unlisted(
    alloc: Global,
    at: u32,
    specifiers: &[Specifier],
    file: &mut File,
) -> Result<Qualified, Stop>
    requires { HasNoList (list_from specifiers.now) }
    ensures { (l : f.Level) → let xs = list_from specifiers.now in
        MayStand l xs → MatchResult result
        (λ q. Specify l (file_place_of file.old) xs (qualified_of q) (file_place_of file.new)
        × IsFileWithin (file_place_of file.old) (file_specifiers l (t.specifiers at xs)))
        (IsFileFault (file_place_of file.old) (file_specifiers l (t.specifiers at xs))) }
{
    let q = type_at_file(
        alloc,
        &file.place.scope,
        &file.place.outline.lists,
        at,
        specifiers,
    )?;
    mention(
        alloc,
        &mut file.place.scope,
        &file.place.outline.lists,
        specifiers,
    )?;
    Ok(q)
}
