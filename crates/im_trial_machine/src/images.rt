use crate::numbers::place_of;
use im_image::{Image, read_image, upgrade, write_image};
use im_trial::{Case, Row, Stop, Texts};
use std::alloc::Global;

// Why a text is refused, or that it is an image.
fn tell_answer(text: &[u8], case: &mut Case) {
    match read_image(case.alloc, text) {
        Ok(_) => case.say(" an image"),
        Err(fault) => case.show(fault),
    }
}

// Puts another byte at a place, both in decimal digits with `=` between them.
fn change(text: &mut [u8], words: &str, case: &mut Case) {
    let (place, byte) = case.parted(words, '=');
    let place = place_of(place, case);
    let Ok(byte) = u8::try_from(case.small(byte)) else {
        case.end(Stop::Row);
        return;
    };
    if let Some(old) = text.get_mut(place) {
        *old = byte;
    }
}

/// `changed-image`, a name, a text, other bytes as places and values, more bytes behind: why that
/// is refused.
pub(crate) fn changed(texts: &Texts, row: &Row<'_>, case: &mut Case) {
    let mut text = case.bytes_of(texts, row, 2);
    for words in row.field(3).split_ascii_whitespace() {
        change(&mut text, words, case);
    }
    let more = case.bytes_of(texts, row, 4);
    let _ = case.take(text.extend_from_slice(&more).map_err(Stop::from));
    tell_answer(&text, case);
}

// Whether a text is refused as short at its end.
fn is_short(alloc: Global, text: &[u8]) -> bool {
    let mut answer = Case::new(alloc);
    tell_answer(text, &mut answer);
    let mut wanted = Case::new(alloc);
    wanted.say(" short image at");
    wanted.show(text.len());
    answer.found() == wanted.found()
}

/// `fronts-of-image`, a name, a text: how many of its fronts are refused as short at their end.
pub(crate) fn fronts(texts: &Texts, row: &Row<'_>, case: &mut Case) {
    let text = case.bytes_of(texts, row, 2);
    let mut refused: u32 = 0;
    for end in 0..text.len() {
        if is_short(case.alloc, &text[..end]) {
            refused = refused.saturating_add(1);
        }
    }
    case.show(refused);
}

fn tell_objects(image: &Image, case: &mut Case) {
    for object in &image.objects {
        case.say(",");
        case.bytes(&object.name);
        for run in &object.runs {
            case.show(run.offset);
            case.debug(&run.kind);
        }
    }
}

fn tell_image(image: &Image, text: &[u8], case: &mut Case) {
    case.show(image.version.number());
    case.show(image.form.number());
    case.show(image.stack);
    case.show(image.entry);
    for word in &image.words {
        case.word(*word);
    }
    tell_objects(image, case);
    match write_image(case.alloc, image) {
        Ok(again) if again.as_slice() == text => case.say("; again the same"),
        Ok(_) => {}
        Err(_) => case.end(Stop::Memory),
    }
}

/// `image`, a name, a text: its version, form, stack, entry, code and objects, and whether it is
/// written again the same.
pub(crate) fn image(texts: &Texts, row: &Row<'_>, case: &mut Case) {
    let text = case.bytes_of(texts, row, 2);
    match read_image(case.alloc, &text) {
        Ok(image) => tell_image(&image, &text, case),
        Err(fault) => case.show(fault),
    }
}

/// `upgrade`, a name, a text: the text in version 2.
pub(crate) fn upgraded(texts: &Texts, row: &Row<'_>, case: &mut Case) {
    let text = case.bytes_of(texts, row, 2);
    match upgrade(case.alloc, &text) {
        Ok(bytes) => case.bytes(&bytes),
        Err(fault) => case.show(fault),
    }
}
