ghost use Rattle.std.specs.Prelude.{◌≡◌, ◌+◌, ◌≤◌, length, None, IfOk, OnOk, IfErr};
ghost use Rattle.im_image.specs.Faults as texts;
ghost use Rattle.im_image.specs.Faults.{word_at as word_of, version_of, version_at, form_of};
ghost use Rattle.im_mem_file.specs.Faults as faults;
ghost use Rattle.im_mem_file.specs.Faults.{header_requirements, version_requirements};
ghost use Rattle.im_mem_file.specs.Faults.{form_requirements, count_requirements, first_unmet};
ghost use Rattle.im_mem_file.specs.Faults.{pages_place, form_in, IsFaultOf};
ghost use Rattle.im_mem_file.specs.Header.{header_at};

use crate::fault::MemoryFault;
use crate::words::{check, word_at};
use im_image::{Form, Version};
use im_mem_paged::PAGE_COUNT;

/// The bytes "IMMM" as a word.
pub const MAGIC: u32 = 0x4d4d_4d49;

/// What stands before the pages.
#[derive(Clone, Copy)]
pub struct Header {
    pub version: Version,
    pub form: Form,
    /// How many pages.
    pub pages: u32,
    /// The place of the first page.
    pub place: usize,
}

fn is_version(word: u32) -> bool
    ensures { result ≡ texts.is_version word }
{
    word == 1 || word == 2
}

/// The version of a word that is one's.
fn to_version(word: u32) -> Version
    ensures { result ≡ version_of word }
{
    if word == 1 {
        Version::One
    } else {
        Version::Two
    }
}

/// The form of a word that is one's.
fn to_form(word: u32) -> Form
    ensures { result ≡ form_of word }
{
    if word == 0 {
        Form::OneLength
    } else {
        Form::TwoLengths
    }
}

/// The place of the number of pages.
fn count_place(version: Version) -> usize
    ensures { result ≡ faults.count_place version }
{
    match version {
        Version::One => 8,
        Version::Two => 12,
    }
}

/// Behind the magic stands the version.
#[tactic(auto, unfolding(crate::specs::Faults::version_requirements))]
fn read_version(bytes: &[u8]) -> Result<Version, MemoryFault>
    ensures version { IfOk result (λ version. version ≡ version_at bytes.now) }
    ensures there { OnOk result (8 ≤ length bytes.now) }
    ensures right { OnOk result (first_unmet (version_requirements bytes.now) ≡ None) }
    ensures wrong { IfErr result
        (λ fault. IsFaultOf fault (first_unmet (version_requirements bytes.now))) }
{
    let magic = word_at(bytes, 0)?;
    check(magic == MAGIC, MemoryFault::BadMagic)?;
    let version = word_at(bytes, 4)?;
    check(is_version(version), MemoryFault::BadVersion(version))?;
    Ok(to_version(version))
}

/// The form of a text of this version.
#[tactic(auto, unfolding(crate::specs::Faults::form_requirements))]
fn read_form(bytes: &[u8], version: Version) -> Result<Form, MemoryFault>
    requires { 8 ≤ length bytes.now }
    ensures form { IfOk result (λ form. form ≡ form_in version bytes.now) }
    ensures there { OnOk result (faults.count_place version ≤ length bytes.now) }
    ensures right { OnOk result (first_unmet (form_requirements version bytes.now) ≡ None) }
    ensures wrong { IfErr result
        (λ fault. IsFaultOf fault (first_unmet (form_requirements version bytes.now))) }
{
    match version {
        Version::One => Ok(Form::OneLength),
        Version::Two => {
            let form = word_at(bytes, 8)?;
            check(form <= 1, MemoryFault::BadForm(form))?;
            Ok(to_form(form))
        }
    }
}

/// The number of pages, which stands at a place.
#[tactic(auto, unfolding(crate::specs::Faults::count_requirements))]
fn read_count(bytes: &[u8], place: usize) -> Result<u32, MemoryFault>
    requires { place ≤ length bytes.now }
    ensures count { IfOk result (λ count. count ≡ word_of bytes.now place) }
    ensures there { OnOk result (place + 4 ≤ length bytes.now) }
    ensures right { OnOk result (first_unmet (count_requirements bytes.now place) ≡ None) }
    ensures wrong { IfErr result
        (λ fault. IsFaultOf fault (first_unmet (count_requirements bytes.now place))) }
{
    let count = word_at(bytes, place)?;
    check(count <= PAGE_COUNT, MemoryFault::BadPages(count))?;
    Ok(count)
}

/// Reads what stands before the pages.
pub fn read_header(bytes: &[u8]) -> Result<Header, MemoryFault>
    ensures header { IfOk result (λ header. header ≡ header_at bytes.now) }
    ensures there { OnOk result (pages_place bytes.now ≤ length bytes.now) }
    ensures right { OnOk result (first_unmet (header_requirements bytes.now) ≡ None) }
    ensures wrong { IfErr result
        (λ fault. IsFaultOf fault (first_unmet (header_requirements bytes.now))) }
{
    let version = read_version(bytes)?;
    let form = read_form(bytes, version)?;
    let count_place = count_place(version);
    let pages = read_count(bytes, count_place)?;
    Ok(Header {
        version,
        form,
        pages,
        place: count_place + 4,
    })
}
