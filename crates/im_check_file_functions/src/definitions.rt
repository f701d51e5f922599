//! Function definitions (C11 6.9.1).
ghost use Rattle.std.specs.Prelude.{MatchResult};
ghost use Rattle.im_ctree.specs.Shape.{external_of};
ghost use Rattle.im_ctree.specs.declared.unit.External.TheVariants as ext;
ghost use Rattle.im_rules.specs.UnitBreaks.{an_external};
ghost use Rattle.im_check_file_place.specs.Files.{file_place_of};
ghost use Rattle.im_check_file_specifiers.specs.Answers.{IsFileFault};
ghost use Rattle.im_check_file_functions.specs.Definitions.{DefinitionDone};

use crate::bodies::with_body;
use crate::heads::head;
use im_check_declarators::without_void;
use im_check_defined::Defined;
use im_check_file_names::own_parameters;
use im_check_file_place::File;
use im_check_stop::Stop;
use im_ctree::Function;
use std::alloc::Global;

/// A function definition. Its name, the structs and the names that its specifiers declare, and its
/// string literals are behind those of the file. Want of memory also where it has 2^32 parameters
/// or more.
pub fn definition(alloc: Global, f: &Function, file: &mut File) -> Result<Defined, Stop>
    ensures { let x = external_of (ext.Function f.now) in MatchResult result
        (DefinitionDone file.old x file.new)
        (IsFileFault (file_place_of file.old) (an_external x)) }
{
    let head = head(alloc, &f.specifiers, &f.declarator, file)?;
    let written = own_parameters(&f.declarator);
    let formals = without_void(written, &head.formals);
    with_body(alloc, written, formals, &head.declared, &f.body.items, file)
}
