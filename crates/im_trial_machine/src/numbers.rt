use im_num::{Kind, of_word, put_word, to_word, word_at, wrap};
use im_trial::{Case, Row, Stop, Texts};

fn kind_of(text: &str) -> Option<Kind> {
    match text {
        "I8" => Some(Kind::I8),
        "U8" => Some(Kind::U8),
        "I16" => Some(Kind::I16),
        "U16" => Some(Kind::U16),
        "I32" => Some(Kind::I32),
        "U32" => Some(Kind::U32),
        "Ptr" => Some(Kind::Ptr),
        _ => None,
    }
}

/// A place in bytes, of decimal digits.
pub(crate) fn place_of(text: &str, case: &mut Case) -> usize {
    match text.parse::<usize>() {
        Ok(place) => place,
        Err(_) => {
            case.end(Stop::Row);
            0
        }
    }
}

/// `wrap`, a kind, a number: what it is converted to (C11 6.3.1.3).
pub(crate) fn wrapped(row: &Row<'_>, case: &mut Case) {
    let number = case.number(row.field(2));
    case.show(number);
    case.say(" ->");
    match kind_of(row.field(1)) {
        Some(kind) => case.show(wrap(kind, i128::from(number))),
        None => case.end(Stop::Row),
    }
}

/// `holds`, a kind, a word: what it holds of that kind.
pub(crate) fn held(row: &Row<'_>, case: &mut Case) {
    let word = case.hex(row.field(2));
    case.show(word);
    case.say(" ->");
    match kind_of(row.field(1)) {
        Some(kind) => case.show(of_word(kind, word)),
        None => case.end(Stop::Row),
    }
}

/// `low`, a number: its low 32 bits.
pub(crate) fn low(row: &Row<'_>, case: &mut Case) {
    let number = case.number(row.field(1));
    case.show(to_word(i128::from(number)));
}

/// `stands`, a name, bytes, a place: the word there.
pub(crate) fn stands(texts: &Texts, row: &Row<'_>, case: &mut Case) {
    let bytes = case.bytes_of(texts, row, 2);
    let place = place_of(row.field(3), case);
    match word_at(&bytes, place) {
        Some(word) => case.word(word),
        None => case.say(" none"),
    }
}

/// `put`, a name, bytes, a place, a word: the bytes with the word there.
pub(crate) fn put(texts: &Texts, row: &Row<'_>, case: &mut Case) {
    let mut bytes = case.bytes_of(texts, row, 2);
    let place = place_of(row.field(3), case);
    let word = case.hex(row.field(4));
    let is_put = put_word(&mut bytes, place, word);
    case.say(if is_put { " put" } else { " not put" });
    case.bytes(&bytes);
}
