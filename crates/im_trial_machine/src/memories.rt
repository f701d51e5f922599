use im_mem::{FlatMem, Memory};
use im_trial::{Case, Row, Stop, Texts};

/// The bytes of memory, in all.
const MEMORY: u32 = 5_242_880;

fn tell_bytes(memory: &FlatMem, at: u32, count: u32, case: &mut Case) {
    if at > MEMORY || count > MEMORY - at {
        case.end(Stop::Row);
        return;
    }
    case.bytes(memory.bytes_at(at, count));
}

fn fill(memory: &mut FlatMem, at: u32, bytes: &[u8], case: &mut Case) {
    if at > MEMORY || bytes.len() > (MEMORY - at) as usize {
        case.end(Stop::Row);
        return;
    }
    memory.fill(at, bytes);
}

fn load(memory: &FlatMem, at: u32, size: u32, case: &mut Case) {
    match memory.load(at, size) {
        Some(word) => case.word(word),
        None => case.say(" refused"),
    }
}

// What an address, a size and a word say.
fn store(memory: &mut FlatMem, at: u32, words: &str, case: &mut Case) {
    let (size, word) = case.parted(words, ' ');
    let is_stored = memory.store(at, case.small(size), case.hex(word));
    case.say(if is_stored { " stored" } else { " refused" });
}

/// Makes an access: `store`, an address, a size and a word; `load`, an address and a size; `fill`,
/// an address, of the bytes that are given; `bytes`, an address and their number.
fn access(memory: &mut FlatMem, words: &str, bytes: &[u8], case: &mut Case) {
    let (what, rest) = case.parted(words, ' ');
    let (at, rest) = case.parted(rest, ' ');
    let at = case.small(at);
    match what {
        "fill" => fill(memory, at, bytes, case),
        "bytes" => tell_bytes(memory, at, case.small(rest), case),
        "load" => load(memory, at, case.small(rest), case),
        _ => store(memory, at, rest, case),
    }
}

/// `memory`, a name, accesses with `;` between two, bytes.
pub(crate) fn memory(texts: &Texts, row: &Row<'_>, case: &mut Case) {
    let bytes = case.bytes_of(texts, row, 3);
    let Ok(mut memory) = FlatMem::new(case.alloc) else {
        case.end(Stop::Memory);
        return;
    };
    for words in row.field(2).split(';') {
        access(&mut memory, words, &bytes, case);
    }
}
