use crate::form::Form;
use crate::object::Object;
use crate::version::Version;
use std::marker::Model;

/// What a device is loaded with. Each value meets the rules of the image's text.
#[derive(Debug, Drop)]
pub struct Image {
    /// The version of its text.
    pub version: Version,
    /// How memory tells the length of the output.
    pub form: Form,
    /// The code, from address 0x1000 on.
    pub words: Vec<u32>,
    /// The first bytes of the statics, from address 0x100000 on.
    pub statics: Vec<u8>,
    /// Bytes of stack.
    pub stack: u32,
    /// The output's capacity in bytes.
    pub out_cap: u32,
    /// The address of the first instruction to be executed.
    pub entry: u32,
    /// The named objects among the statics, by address.
    pub objects: Vec<Object>,
}

impl Model for Image {
    ghost use Rattle.im_image.specs.Contents.{ImageValue, IsImage};

    ghost Value = { ImageValue };

    ghost view = { λ a. record {
      version = a.version;
      form = a.form;
      words = a.words.items;
      statics = a.statics.items;
      stack = a.stack;
      out_cap = a.out_cap;
      entry = a.entry;
      objects = a.objects.items;
    } };

    ghost invariant = { λ a. IsImage (record {
      version = a.version;
      form = a.form;
      words = a.words.items;
      statics = a.statics.items;
      stack = a.stack;
      out_cap = a.out_cap;
      entry = a.entry;
      objects = a.objects.items;
    }) };
}
