ghost use Rattle.std.specs.Prelude.{MatchResult};
ghost use Rattle.im_cmd_lines.specs.Refusals.{refused_of};
ghost use Rattle.im_cmd.specs.Stages.{RefusesContent, RefusesImageText, RefusesMemory};
ghost use Rattle.im_cmd.specs.Upgrades.{IsUpgraded, RefusesUpgrade, Upgrades};

use crate::files::read_file;
use crate::stored::IMAGE_LIMIT;
use im_cmd_lines::Refusal;
use im_image::{ImageFault, Version, read_image, write_image};
use im_io::{Shelf, store};
use im_mem_file::{MemoryFault, read_memory, write_memory};
use im_num::NoMemory;
use std::alloc::Global;

/// What a text becomes in version 2.
#[derive(Drop)]
pub struct Upgraded {
    /// The version that it had.
    pub version: Version,
    pub text: Vec<u8>,
}

// The new text of an image's text.
fn upgraded_image<'a>(alloc: Global, name: &'a str, text: &[u8]) -> Result<Upgraded, Refusal<'a>>
    ensures { MatchResult result (λ new. IsUpgraded text.now new.version new.text.items)
        (λ refusal. RefusesImageText name.now text.now (refused_of refusal)) }
{
    let image = match read_image(alloc, text) {
        Ok(image) => image,
        Err(ImageFault::OutOfMemory) => return Err(Refusal::OutOfMemory),
        Err(fault) => return Err(Refusal::NotAnImage(name, fault)),
    };
    let version = image.version;
    let upgraded = image.upgraded();
    match write_image(alloc, &upgraded) {
        Ok(text) => Ok(Upgraded { version, text }),
        Err(NoMemory::OutOfMemory) => Err(Refusal::OutOfMemory),
    }
}

// The new text of a memory's text.
fn upgraded_memory<'a>(alloc: Global, name: &'a str, text: &[u8]) -> Result<Upgraded, Refusal<'a>>
    ensures { MatchResult result (λ new. IsUpgraded text.now new.version new.text.items)
        (λ refusal. RefusesMemory name.now text.now (refused_of refusal)) }
{
    let saved = match read_memory(alloc, text) {
        Ok(saved) => saved,
        Err(MemoryFault::OutOfMemory) => return Err(Refusal::OutOfMemory),
        Err(fault) => return Err(Refusal::NotAMemory(name, fault)),
    };
    let version = saved.version;
    match write_memory(alloc, &saved.memory, saved.form) {
        Ok(text) => Ok(Upgraded { version, text }),
        Err(NoMemory::OutOfMemory) => Err(Refusal::OutOfMemory),
    }
}

// The new text of a file's text.
fn upgraded_text<'a>(alloc: Global, name: &'a str, text: &[u8]) -> Result<Upgraded, Refusal<'a>>
    ensures { MatchResult result (λ new. IsUpgraded text.now new.version new.text.items)
        (λ refusal. RefusesContent name.now text.now (refused_of refusal)) }
{
    if text.starts_with(b"IMMM") {
        match upgraded_memory(alloc, name, text) {
            Ok(new) => Ok(new),
            Err(refusal) => Err(refusal),
        }
    } else {
        match upgraded_image(alloc, name, text) {
            Ok(new) => Ok(new),
            Err(refusal) => Err(refusal),
        }
    }
}

/// Reads an image or a memory and stores it in version 2 under another name. Answers the version
/// that it had.
pub fn upgrade_file<'a, H: Shelf>(
    alloc: Global,
    shelf: &mut H,
    old: &'a str,
    new: &'a str,
) -> Result<Version, Refusal<'a>>
    ensures { MatchResult result
        (λ version. Upgrades old.now new.now version (H.state shelf.old) (H.state shelf.new))
        (λ refusal. RefusesUpgrade old.now new.now (H.state shelf.old) (H.state shelf.new)
        (refused_of refusal)) }
{
    let text = match read_file(alloc, shelf, old, IMAGE_LIMIT) {
        Ok(text) => text,
        Err(refusal) => return Err(refusal),
    };
    let upgraded = match upgraded_text(alloc, old, &text) {
        Ok(upgraded) => upgraded,
        Err(refusal) => return Err(refusal),
    };
    match store(shelf, new, &upgraded.text) {
        Ok(()) => Ok(upgraded.version),
        Err(_) => Err(Refusal::CannotWrite(new)),
    }
}
