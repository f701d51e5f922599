ghost use Rattle.std.specs.Prelude.{◌≡◌, ◌≤◌, ◌+◌, ◌*◌, length, None, true, false, IfOk, OnOk};
ghost use Rattle.std.specs.Prelude.{OnErr, IfErr};
ghost use Rattle.im_image.specs.Header.{header_at};
ghost use Rattle.im_image.specs.Faults as faults;
ghost use Rattle.im_image.specs.Faults.{form_at, header_size, header_requirements};
ghost use Rattle.im_image.specs.Faults.{form_requirements, first_unmet, version_of, form_of};
ghost use Rattle.im_image.specs.Faults.{IsFaultOf};

use crate::fault::ImageFault;
use crate::form::Form;
use crate::rules;
use crate::version::Version;
use crate::words::word_at;

/// The bytes "IMRV" as a word.
pub const MAGIC: u32 = 0x5652_4d49;

/// What the eight words that both versions have say, from the second on.
#[derive(Clone, Copy)]
pub struct Header {
    pub version: Version,
    /// How many code words.
    pub words: u32,
    /// Bytes of statics.
    pub statics: u32,
    /// Bytes of stack.
    pub stack: u32,
    /// The output's capacity in bytes.
    pub out_cap: u32,
    /// The address of the entry.
    pub entry: u32,
    /// How many objects.
    pub objects: u32,
}

impl Header {
    /// The place of the first code word.
    pub fn words_place(&self) -> usize
        ensures { result ≡ header_size self.now.version }
    {
        match self.version {
            Version::One => 32,
            Version::Two => 36,
        }
    }

    /// The place of the first byte of the statics.
    pub fn statics_place(&self) -> usize
        ensures { result ≡ header_size self.now.version + 4 * self.now.words }
    {
        self.words_place() + 4 * self.words as usize
    }

    /// The place of the first object.
    pub fn objects_place(&self) -> usize
        ensures { result ≡ header_size self.now.version + 4 * self.now.words + self.now.statics }
    {
        self.statics_place() + self.statics as usize
    }

    /// The number of the field that the objects are.
    pub fn objects_field(&self) -> u32
        ensures { result ≡ faults.objects_field self.now.version }
    {
        match self.version {
            Version::One => 9,
            Version::Two => 10,
        }
    }
}

/// A rule, and the fault where it is broken.
fn check(holds: bool, fault: ImageFault) -> Result<(), ImageFault>
    ensures kept { OnOk result (holds ≡ true) }
    ensures broken { OnErr result (holds ≡ false) }
    ensures fault { IfErr result (λ answer. answer ≡ fault) }
{
    if holds { Ok(()) } else { Err(fault) }
}

fn is_version(word: u32) -> bool
    ensures { result ≡ faults.is_version word }
{
    word == 1 || word == 2
}

/// The version of a word that is one's.
fn to_version(word: u32) -> Version
    ensures { result ≡ version_of word }
{
    if word == 1 {
        Version::One
    } else {
        Version::Two
    }
}

/// The form of a word that is one's.
fn to_form(word: u32) -> Form
    ensures { result ≡ form_of word }
{
    if word == 0 {
        Form::OneLength
    } else {
        Form::TwoLengths
    }
}

/// The eight words that both versions have.
#[tactic(auto, unfolding(crate::specs::Faults::header_requirements))]
pub fn read_header(bytes: &[u8]) -> Result<Header, ImageFault>
    ensures header { IfOk result (λ header. header ≡ header_at bytes.now) }
    ensures there { OnOk result (32 ≤ length bytes.now) }
    ensures right { OnOk result (first_unmet (length bytes.now) (header_requirements bytes.now)
        ≡ None) }
    ensures wrong { IfErr result
        (λ fault. IsFaultOf fault (first_unmet (length bytes.now) (header_requirements bytes.now))) }
{
    let magic = word_at(bytes, 0)?;
    check(magic == MAGIC, ImageFault::BadMagic)?;
    let version = word_at(bytes, 4)?;
    check(is_version(version), ImageFault::BadVersion(version))?;
    let words = word_at(bytes, 8)?;
    check(rules::is_word_count(words), ImageFault::BadField(3))?;
    let statics = word_at(bytes, 12)?;
    check(rules::is_statics_size(statics), ImageFault::BadField(4))?;
    let stack = word_at(bytes, 16)?;
    check(rules::is_stack_size(stack), ImageFault::BadField(5))?;
    let out_cap = word_at(bytes, 20)?;
    check(rules::is_output_capacity(out_cap), ImageFault::BadField(6))?;
    let entry = word_at(bytes, 24)?;
    check(rules::is_entry(words, entry), ImageFault::BadField(7))?;
    let objects = word_at(bytes, 28)?;
    check(objects <= statics, ImageFault::BadField(8))?;
    Ok(Header {
        version: to_version(version),
        words,
        statics,
        stack,
        out_cap,
        entry,
        objects,
    })
}

/// The form of a text of this version.
#[tactic(auto, unfolding(crate::specs::Faults::form_requirements))]
pub fn read_form(bytes: &[u8], version: Version) -> Result<Form, ImageFault>
    requires { 32 ≤ length bytes.now }
    ensures form { IfOk result (λ form. form ≡ form_at version bytes.now) }
    ensures there { OnOk result (header_size version ≤ length bytes.now) }
    ensures right { OnOk result (first_unmet (length bytes.now)
        (form_requirements version bytes.now) ≡ None) }
    ensures wrong { IfErr result
        (λ fault. IsFaultOf fault (first_unmet (length bytes.now) (form_requirements version bytes.now))) }
{
    match version {
        Version::One => Ok(Form::OneLength),
        Version::Two => {
            let form = word_at(bytes, 32)?;
            check(form <= 1, ImageFault::BadField(9))?;
            Ok(to_form(form))
        }
    }
}
