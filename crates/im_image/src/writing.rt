ghost use Rattle.std.specs.Prelude.{◌≡◌, ◌<◌, ◌^◌, ◌++◌, length, IfOk, OnOk};
ghost use Rattle.std.specs.List.{flat_map};
ghost use Rattle.im_num.specs.Bytes.{word_bytes};
ghost use Rattle.im_image.specs.Text.{words_text, run_text, object_text, image_text, form_words};

use crate::form::Form;
use crate::header::MAGIC;
use crate::image::Image;
use crate::object::{CellRun, Object};
use crate::rules::kind_code;
use crate::version::Version;
use im_num::NoMemory;
use std::alloc::{AllocError, Global};

fn put_word(text: &mut Vec<u8>, word: u32) -> Result<(), AllocError>
    ensures { OnOk result (text.new.items ≡ text.old.items ++ word_bytes word) }
{
    text.extend_from_slice(&word.to_le_bytes())
}

fn put_words(text: &mut Vec<u8>, words: &[u32]) -> Result<(), AllocError>
    ensures { OnOk result (text.new.items ≡ text.old.items ++ words_text words.now) }
{
    for word in words {
        put_word(text, *word)?;
    }
    Ok(())
}

fn put_runs(text: &mut Vec<u8>, runs: &[CellRun]) -> Result<(), AllocError>
    ensures { OnOk result (text.new.items ≡ text.old.items ++ flat_map run_text runs.now) }
{
    for run in runs {
        put_words(text, &[run.offset, kind_code(run.kind), run.count])?;
    }
    Ok(())
}

fn put_object(text: &mut Vec<u8>, object: &Object) -> Result<(), AllocError>
    requires name { length object.now.name < 2 ^ 32 }
    requires runs { length object.now.runs < 2 ^ 32 }
    ensures { OnOk result (text.new.items ≡ text.old.items ++ object_text object.now) }
{
    let name_len = object.name.len() as u32;
    let run_count = object.runs.len() as u32;
    put_words(text, &[object.at, object.size, name_len, run_count])?;
    text.extend_from_slice(&object.name)?;
    put_runs(text, &object.runs)?;
    Ok(())
}

// Version 2 has a word for the form.
fn put_form(text: &mut Vec<u8>, version: Version, form: Form) -> Result<(), AllocError>
    ensures { OnOk result (text.new.items ≡ text.old.items
        ++ words_text (form_words version form)) }
{
    match version {
        Version::One => Ok(()),
        Version::Two => put_words(text, &[form.number()]),
    }
}

/// The text of an image, of its version.
pub fn write_image(alloc: Global, image: &Image) -> Result<Vec<u8>, NoMemory>
    ensures { IfOk result (λ text. text.items ≡ image_text image.now) }
{
    let mut text = Vec::new(alloc);
    let header = [
        MAGIC,
        image.version.number(),
        image.words.len() as u32,
        image.statics.len() as u32,
        image.stack,
        image.out_cap,
        image.entry,
        image.objects.len() as u32,
    ];
    put_words(&mut text, &header)?;
    put_form(&mut text, image.version, image.form)?;
    put_words(&mut text, &image.words)?;
    text.extend_from_slice(&image.statics)?;
    for object in &image.objects {
        put_object(&mut text, object)?;
    }
    Ok(text)
}
