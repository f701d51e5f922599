ghost use Rattle.std.specs.Prelude.{◌≤◌, ◌++◌, codes, decimal, length};
ghost use Rattle.std.specs.List.{flat_map};
ghost use Rattle.im_io.specs.Whole.{Sends};
ghost use Rattle.im_mem.specs.Map.{code_start};
ghost use Rattle.im_rv.specs.Decode.{decode as decoded_word};
ghost use Rattle.im_cmd_lines.specs.Numerals.{hex_word};
ghost use Rattle.im_cmd_lines.specs.Dumps.{dump_lines, form_line, header_lines, instruction_text};
ghost use Rattle.im_cmd_lines.specs.Dumps.{object_line, word_line, word_lines};

use crate::instruction::send_instruction;
use crate::numerals::hex_text;
use im_image::{Form, Image, Object, Version};
use im_io::{Failed, Sink, send, send_pieces};
use im_mem::CODE_START;
use itoa::Buffer;

fn send_header<S: Sink>(
    sink: &mut S,
    version: u32,
    code: usize,
    statics: usize,
    stack: u32,
    out_cap: u32,
    entry: u32,
) -> Result<(), Failed>
    ensures { Sends (codes "version " ++ decimal version ++ codes "\ncode " ++ decimal code
        ++ codes "\nstatics " ++ decimal statics ++ codes "\nstack " ++ decimal stack
        ++ codes "\nout-cap " ++ decimal out_cap ++ codes "\nentry " ++ hex_word entry
        ++ codes "\n") result (S.state sink.old) (S.state sink.new) }
{
    let mut version_text = Buffer::new();
    let mut code_text = Buffer::new();
    let mut statics_text = Buffer::new();
    let mut stack_text = Buffer::new();
    let mut out_cap_text = Buffer::new();
    send_pieces(
        sink,
        &[
            b"version ",
            version_text.format(version).as_bytes(),
            b"\ncode ",
            code_text.format(code).as_bytes(),
            b"\nstatics ",
            statics_text.format(statics).as_bytes(),
            b"\nstack ",
            stack_text.format(stack).as_bytes(),
            b"\nout-cap ",
            out_cap_text.format(out_cap).as_bytes(),
            b"\nentry ",
            &hex_text(entry),
            b"\n",
        ],
    )
}

fn send_header_lines<S: Sink>(sink: &mut S, image: &Image) -> Result<(), Failed>
    ensures { Sends (header_lines image.now) result (S.state sink.old) (S.state sink.new) }
{
    send_header(
        sink,
        image.version.number(),
        image.words.len(),
        image.statics.len(),
        image.stack,
        image.out_cap,
        image.entry,
    )
}

fn send_form_line<S: Sink>(sink: &mut S, version: Version, form: Form) -> Result<(), Failed>
    ensures { Sends (form_line version form) result (S.state sink.old) (S.state sink.new) }
{
    let mut text = Buffer::new();
    match version {
        Version::One => send(sink, b""),
        Version::Two => send_pieces(
            sink,
            &[b"form ", text.format(form.number()).as_bytes(), b"\n"],
        ),
    }
}

fn send_object_line<S: Sink>(sink: &mut S, object: &Object) -> Result<(), Failed>
    ensures { Sends (object_line object.now) result (S.state sink.old) (S.state sink.new) }
{
    let mut size_text = Buffer::new();
    send_pieces(
        sink,
        &[
            b"var ",
            &object.name,
            b" ",
            &hex_text(object.at),
            b" ",
            size_text.format(object.size).as_bytes(),
            b"\n",
        ],
    )
}

fn send_object_lines<S: Sink>(sink: &mut S, objects: &[Object]) -> Result<(), Failed>
    ensures { Sends (flat_map object_line objects.now) result (S.state sink.old)
        (S.state sink.new) }
{
    for object in objects {
        match send_object_line(sink, object) {
            Ok(()) => {}
            Err(fault) => return Err(fault),
        }
    }
    Ok(())
}

// A word by its address, in front of the instruction.
fn send_word<S: Sink>(sink: &mut S, at: u32, word: u32) -> Result<(), Failed>
    ensures { Sends (hex_word at ++ codes ": " ++ hex_word word ++ codes " ") result
        (S.state sink.old) (S.state sink.new) }
{
    send_pieces(sink, &[&hex_text(at), b": ", &hex_text(word), b" "])
}

fn send_rest<S: Sink>(sink: &mut S, word: u32) -> Result<(), Failed>
    ensures { Sends (instruction_text (decoded_word word) ++ codes "\n") result (S.state sink.old)
        (S.state sink.new) }
{
    match send_instruction(sink, word) {
        Ok(()) => send(sink, b"\n"),
        Err(fault) => Err(fault),
    }
}

fn send_word_line<S: Sink>(sink: &mut S, at: u32, word: u32) -> Result<(), Failed>
    ensures { Sends (word_line at word) result (S.state sink.old) (S.state sink.new) }
{
    match send_word(sink, at, word) {
        Ok(()) => send_rest(sink, word),
        Err(fault) => Err(fault),
    }
}

fn send_word_lines<S: Sink>(sink: &mut S, words: &[u32]) -> Result<(), Failed>
    requires { length words.now ≤ 261120 }
    ensures { Sends (word_lines code_start words.now) result (S.state sink.old) (S.state sink.new) }
{
    let mut at = CODE_START;
    for word in words {
        match send_word_line(sink, at, *word) {
            Ok(()) => {}
            Err(fault) => return Err(fault),
        }
        at += 4;
    }
    Ok(())
}

fn send_code<S: Sink>(sink: &mut S, image: &Image) -> Result<(), Failed>
    ensures { Sends (word_lines code_start image.now.words) result (S.state sink.old)
        (S.state sink.new) }
{
    send_word_lines(sink, &image.words)
}

fn send_objects<S: Sink>(sink: &mut S, image: &Image) -> Result<(), Failed>
    ensures { Sends (flat_map object_line image.now.objects) result (S.state sink.old)
        (S.state sink.new) }
{
    send_object_lines(sink, &image.objects)
}

fn send_form<S: Sink>(sink: &mut S, image: &Image) -> Result<(), Failed>
    ensures { Sends (form_line image.now.version image.now.form) result (S.state sink.old)
        (S.state sink.new) }
{
    send_form_line(sink, image.version, image.form)
}

// The header and the form.
fn send_whole_header<S: Sink>(sink: &mut S, image: &Image) -> Result<(), Failed>
    ensures { Sends (header_lines image.now ++ form_line image.now.version image.now.form)
        result (S.state sink.old) (S.state sink.new) }
{
    match send_header_lines(sink, image) {
        Ok(()) => send_form(sink, image),
        Err(fault) => Err(fault),
    }
}

// The header, the form and the objects.
fn send_front<S: Sink>(sink: &mut S, image: &Image) -> Result<(), Failed>
    ensures { Sends ((header_lines image.now ++ form_line image.now.version image.now.form)
        ++ flat_map object_line image.now.objects) result (S.state sink.old) (S.state sink.new) }
{
    match send_whole_header(sink, image) {
        Ok(()) => send_objects(sink, image),
        Err(fault) => Err(fault),
    }
}

/// Sends the lines of an image: its header, its objects, and its code by address.
pub fn send_dump_lines<S: Sink>(sink: &mut S, image: &Image) -> Result<(), Failed>
    ensures { Sends (dump_lines image.now) result (S.state sink.old) (S.state sink.new) }
{
    match send_front(sink, image) {
        Ok(()) => send_code(sink, image),
        Err(fault) => Err(fault),
    }
}
