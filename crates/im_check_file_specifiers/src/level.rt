//! Where specifiers stand.
ghost use Rattle.std.specs.Prelude.{◌≡◌};
ghost use Rattle.im_ctree_parts.specs.Lists.{list_from};
ghost use Rattle.im_check_file_specifiers.specs.Answers.{level_of};
ghost use Rattle.im_check_file_specifiers.specs.Words as w;

use im_check_type_specifiers::storage_count;
use im_ctree::Specifier;

/// Where specifiers stand: in a declaration at file scope, or in one of members, which has no
/// storage words (C11 6.7.2.1).
#[derive(Clone, Copy, Debug)]
pub enum Level {
    File,
    Members,
}

/// Whether the storage words among specifiers may stand there.
pub fn storage_stands(level: Level, specifiers: &[Specifier]) -> bool
    ensures { result ≡ w.storage_stands (level_of level) (list_from specifiers.now) }
{
    match level {
        Level::File => true,
        Level::Members => storage_count(specifiers) == 0,
    }
}
