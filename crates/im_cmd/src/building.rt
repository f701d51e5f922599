ghost use Rattle.std.specs.Prelude.{◌≤◌, length, IfOk, MatchResult};
ghost use Rattle.im_image.specs.Text.{image_text};
ghost use Rattle.im_cmd_lines.specs.Refusals.{refused_of};
ghost use Rattle.im_cmd.specs.Files.{ReadsFile, StoresText};
ghost use Rattle.im_cmd_words.specs.Named.{IsInBounds};
ghost use Rattle.im_cmd.specs.Builds.{Builds, RefusesBuild, Compiles, RefusesReading};
ghost use Rattle.im_cmd.specs.Builds.{RefusesSource, IsBuilt, source_limit};
ghost use Rattle.im_cmd.specs.Stages.{IsBuiltFrom, CompilesFrom, RefusesText, RefusesStore};

use im_cmd_lines::Refusal;
use im_cmd_words::BuildOptions;
use im_driver::{Built, Compiled, Options, compile, compile_whole};
use im_fault::{Quantity, SourceFault};
use im_image::{Image, write_image};
use im_io::{ReadFault, Shelf, read_whole, store};
use std::alloc::Global;

/// Bytes of a source.
const SOURCE_LIMIT: u64 = 4 * 1024 * 1024;

// Of a source that is too long one byte over the limit is read, and no more is counted.
const TOO_LONG: SourceFault = SourceFault::Limit {
    quantity: Quantity::Source,
    count: SOURCE_LIMIT + 1,
};

/// The text of a source file.
pub fn read_source<'a, H: Shelf>(
    alloc: Global,
    shelf: &mut H,
    source: &'a str,
) -> Result<Vec<u8>, Refusal<'a>>
    ensures short { IfOk result (λ text. length text.items ≤ source_limit) }
    ensures read { MatchResult result (λ text. ReadsFile source.now text.items source_limit
        (H.state shelf.old) (H.state shelf.new))
        (λ refusal. RefusesReading source.now
        (H.state shelf.old) (H.state shelf.new) (refused_of refusal)) }
{
    match read_whole(alloc, shelf, source, SOURCE_LIMIT) {
        Ok(text) => Ok(text),
        Err(ReadFault::Absent) => Err(Refusal::CannotRead(source)),
        Err(ReadFault::Fault) => Err(Refusal::CannotRead(source)),
        Err(ReadFault::TooLong(_)) => Err(Refusal::BadSource(source, TOO_LONG)),
        Err(ReadFault::OutOfMemory) => Err(Refusal::OutOfMemory),
    }
}

/// What is built of a source's text.
pub fn build_text<'a>(
    alloc: Global,
    source: &'a str,
    building: BuildOptions,
    text: &[u8],
) -> Result<Built, Refusal<'a>>
    requires { IsInBounds building }
    ensures { MatchResult result (IsBuilt text.now building)
        (λ refusal. RefusesText source.now text.now (refused_of refusal)) }
{
    let options = Options {
        stack: building.stack,
        out_cap: building.out_cap,
        max_gap: building.max_gap,
    };
    match compile(alloc, text, options) {
        Ok(built) => Ok(built),
        Err(SourceFault::OutOfMemory) => Err(Refusal::OutOfMemory),
        Err(fault) => Err(Refusal::BadSource(source, fault)),
    }
}

// The typed program of a source file's text, and what is built of it.
fn compile_text<'a>(
    alloc: Global,
    source: &'a str,
    building: BuildOptions,
    text: &[u8],
) -> Result<Compiled, Refusal<'a>>
    requires { IsInBounds building }
    ensures { MatchResult result (λ whole. IsBuiltFrom text.now building whole.prog whole.built)
        (λ refusal. RefusesText source.now text.now (refused_of refusal)) }
{
    let options = Options {
        stack: building.stack,
        out_cap: building.out_cap,
        max_gap: building.max_gap,
    };
    match compile_whole(alloc, text, options) {
        Ok(whole) => Ok(whole),
        Err(SourceFault::OutOfMemory) => Err(Refusal::OutOfMemory),
        Err(fault) => Err(Refusal::BadSource(source, fault)),
    }
}

/// Writes an image's text to its file.
pub fn store_image<'a, H: Shelf>(
    alloc: Global,
    shelf: &mut H,
    name: &'a str,
    image: &Image,
) -> Result<(), Refusal<'a>>
    ensures { MatchResult result (λ stored. StoresText name.now (image_text image.now)
        (H.state shelf.old) (H.state shelf.new))
        (λ refusal. RefusesStore name.now (image_text image.now)
        (H.state shelf.old) (H.state shelf.new) (refused_of refusal)) }
{
    let Ok(text) = write_image(alloc, image) else {
        return Err(Refusal::OutOfMemory);
    };
    match store(shelf, name, &text) {
        Ok(()) => Ok(()),
        Err(_) => Err(Refusal::CannotWrite(name)),
    }
}

/// Builds a source, and stores nothing. Answers its typed program too.
pub fn compile_program<'a, H: Shelf>(
    alloc: Global,
    shelf: &mut H,
    source: &'a str,
    building: BuildOptions,
) -> Result<Compiled, Refusal<'a>>
    requires { IsInBounds building }
    ensures { MatchResult result (λ whole. CompilesFrom source.now building whole.prog whole.built
        (H.state shelf.old) (H.state shelf.new))
        (λ refusal. RefusesSource source.now
        (H.state shelf.old) (H.state shelf.new) (refused_of refusal)) }
{
    let text = match read_source(alloc, shelf, source) {
        Ok(text) => text,
        Err(refusal) => return Err(refusal),
    };
    match compile_text(alloc, source, building, &text) {
        Ok(whole) => Ok(whole),
        Err(refusal) => Err(refusal),
    }
}

/// Builds a source, and stores nothing.
pub fn compile_source<'a, H: Shelf>(
    alloc: Global,
    shelf: &mut H,
    source: &'a str,
    building: BuildOptions,
) -> Result<Built, Refusal<'a>>
    requires { IsInBounds building }
    ensures { MatchResult result (λ built. Compiles source.now building built (H.state shelf.old)
        (H.state shelf.new))
        (λ refusal. RefusesSource source.now
        (H.state shelf.old) (H.state shelf.new) (refused_of refusal)) }
{
    let text = match read_source(alloc, shelf, source) {
        Ok(text) => text,
        Err(refusal) => return Err(refusal),
    };
    match build_text(alloc, source, building, &text) {
        Ok(built) => Ok(built),
        Err(refusal) => Err(refusal),
    }
}

/// Builds a source and stores its image.
pub fn build<'a, H: Shelf>(
    alloc: Global,
    shelf: &mut H,
    source: &'a str,
    image_name: &'a str,
    building: BuildOptions,
) -> Result<Built, Refusal<'a>>
    requires { IsInBounds building }
    ensures { MatchResult result (λ built. Builds source.now image_name.now building built
        (H.state shelf.old) (H.state shelf.new))
        (λ refusal. RefusesBuild source.now image_name.now building
        (H.state shelf.old) (H.state shelf.new) (refused_of refusal)) }
{
    let built = match compile_source(alloc, shelf, source, building) {
        Ok(built) => built,
        Err(refusal) => return Err(refusal),
    };
    match store_image(alloc, shelf, image_name, &built.image) {
        Ok(()) => Ok(built),
        Err(refusal) => Err(refusal),
    }
}
