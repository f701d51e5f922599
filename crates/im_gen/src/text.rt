ghost use Rattle.std.specs.Prelude.{◌≡◌, ◌++◌, IfOk, OnOk};
ghost use Rattle.std.specs.String.{string_bytes};
ghost use Rattle.im_gen.specs.Gen.{call_text, calls_text, function_text, functions_text};
ghost use Rattle.im_gen.specs.Gen.{gen_source};

use crate::sequence::next_word;
use im_num::NoMemory;
use std::alloc::{AllocError, Global};
use std::fmt::Write;

/// Writes the function of this number.
fn write_function(text: &mut String, number: u32, word: u32) -> Result<(), AllocError>
    ensures { OnOk result (string_bytes text.new ≡ string_bytes text.old ++ function_text number word) }
{
    let to = word >> 28;
    let from = (word >> 24) % 16;
    let factor = (word >> 8) % 65536;
    write!(
        text,
        "unsigned int f{number}(unsigned int x){{g[{to}]=g[{from}]+x*{factor}u;return g[{to}]^x;}}\n"
    )
}

fn write_functions(text: &mut String, count: u32) -> Result<(), AllocError>
    ensures { OnOk result (string_bytes text.new ≡ string_bytes text.old ++ functions_text count) }
{
    let mut word = count;
    for k in 0..count {
        word = next_word(word);
        write_function(text, k + 1, word)?;
    }
    Ok(())
}

/// Writes the call of the function of this number.
fn write_call(text: &mut String, number: u32) -> Result<(), AllocError>
    ensures { OnOk result (string_bytes text.new ≡ string_bytes text.old ++ call_text number) }
{
    write!(text, "x=f{number}(x);putchar(x&255u);")
}

fn write_calls(text: &mut String, count: u32) -> Result<(), AllocError>
    ensures { OnOk result (string_bytes text.new ≡ string_bytes text.old ++ calls_text count) }
{
    for k in 0..count {
        write_call(text, k + 1)?;
    }
    Ok(())
}

/// The source of so many functions, which main calls in their order.
pub fn source(alloc: Global, count: u32) -> Result<Vec<u8>, NoMemory>
    ensures { IfOk result (λ text. text.items ≡ gen_source count) }
{
    let mut text = String::new(alloc);
    text.push_str("unsigned int g[16];\n")?;
    write_functions(&mut text, count)?;
    text.push_str("int main(void){unsigned int x;x=1u;")?;
    write_calls(&mut text, count)?;
    text.push_str("return 0;}\n")?;
    Ok(text.into_bytes())
}
