ghost use Rattle.std.specs.Prelude.{◌≡◌, ◌≤◌, IfOk, OnOk, IfErr, Ok, Err, Some, None, length};
ghost use Rattle.im_image.specs.declared.fault.ImageFault.{ImageFault};
ghost use Rattle.im_image.specs.Contents.{ImageValue, IsImage};
ghost use Rattle.im_image.specs.Text.{image_text};
ghost use Rattle.im_image.specs.Header.{header_at};
ghost use Rattle.im_image.specs.Faults.{fault_of, form_at, front_requirements, first_unmet};
ghost use Rattle.im_image.specs.Faults.{image_at, objects_place, version_at, IsFaultOf, IsAnswer};

use crate::fault::ImageFault;
use crate::form::Form;
use crate::header::{Header, read_form, read_header};
use crate::image::Image;
use crate::objects::read_objects;
use crate::words::{read_words, short};
use std::alloc::Global;

/// The header and the form of a text that has the code words and the statics too.
fn read_front(bytes: &[u8]) -> Result<(Header, Form), ImageFault>
    ensures header { IfOk result (λ front. front.0 ≡ header_at bytes.now) }
    ensures form { IfOk result (λ front. front.1 ≡ form_at (version_at bytes.now) bytes.now) }
    ensures there { OnOk result (objects_place bytes.now ≤ length bytes.now) }
    ensures right { OnOk result (first_unmet (length bytes.now) (front_requirements bytes.now)
        ≡ None) }
    ensures wrong { IfErr result
        (λ fault. IsFaultOf fault (first_unmet (length bytes.now) (front_requirements bytes.now))) }
{
    let header = read_header(bytes)?;
    let form = read_form(bytes, header.version)?;
    if bytes.len() < header.objects_place() {
        return Err(short(bytes));
    }
    Ok((header, form))
}

/// What the fields say, each at its place, or the first fault.
fn read_fields(alloc: Global, bytes: &[u8]) -> Result<Image, ImageFault>
    ensures fields { IfOk result (λ image. image ≡ image_at bytes.now) }
    ensures right { OnOk result (fault_of bytes.now ≡ None) }
    ensures wrong { IfErr result (λ fault. IsFaultOf fault (fault_of bytes.now)) }
{
    let (header, form) = read_front(bytes)?;
    let statics_place = header.statics_place();
    let objects_place = header.objects_place();
    let field = header.objects_field();
    let words = read_words(alloc, bytes, header.words, header.words_place())?;
    let objects = read_objects(
        alloc,
        bytes,
        field,
        header.statics,
        header.objects,
        objects_place,
    )?;
    let statics = Vec::from_slice(alloc, &bytes[statics_place..objects_place])?;
    Ok(Image {
        version: header.version,
        form,
        words,
        statics,
        stack: header.stack,
        out_cap: header.out_cap,
        entry: header.entry,
        objects,
    })
}

/// The image that the bytes are the text of.
pub fn read_image(alloc: Global, bytes: &[u8]) -> Result<Image, ImageFault>
    // What is read is an image, and the bytes are its text.
    ensures read { IfOk result (λ image. IsImage image × (bytes.now ≡ image_text image)) }
    // The text of an image is read, and gives that image.
    ensures reads_each { (image : ImageValue) → IsImage image → bytes.now ≡ image_text image →
        IsAnswer result (Ok image) }
    // A refusal names the first thing that isn't as it must be.
    ensures refused { IfErr result (λ fault. IsFaultOf fault (fault_of bytes.now)) }
    // Bytes with a fault are refused by it.
    ensures refuses_each { (fault : ImageFault) → fault_of bytes.now ≡ Some fault →
        IsAnswer result (Err fault) }
{
    read_fields(alloc, bytes)
}
