ghost use Rattle.std.specs.Prelude.{◌≡◌, true};
ghost use Rattle.im_mem.specs.Memory.{little, view, is_place};
ghost use Rattle.im_device.specs.Shows.{output_length as output_length_of, output_of};

use im_image::Form;
use im_mem::{Memory, OUT_LEN0, OUT_LEN1, OUT_SEL, OUTPUT_CAPACITY, OUTPUT_START};
use im_mem_paged::PagedMem;

/// The word at an address of the runtime's.
pub fn word_at<M: Memory>(memory: &M, at: u32) -> u32
    requires { is_place at 4 ≡ true }
    ensures { result ≡ little (M.bytes memory.now) at 4 }
{
    match memory.load(at, 4) {
        Some(word) => word,
        None => unreachable!(),
    }
}

// The byte at an address of the runtime's.
fn byte_at<M: Memory>(memory: &M, at: u32) -> u32
    requires { is_place at 1 ≡ true }
    ensures { result ≡ M.bytes memory.now at }
{
    match memory.load(at, 1) {
        Some(byte) => byte,
        None => unreachable!(),
    }
}

// The output's length in bytes, as memory names it.
fn output_length<M: Memory>(memory: &M, form: Form) -> u32
    ensures { result ≡ output_length_of form (M.bytes memory.now) }
{
    match form {
        Form::OneLength => word_at(memory, OUT_LEN0),
        Form::TwoLengths => {
            if byte_at(memory, OUT_SEL) == 0 {
                word_at(memory, OUT_LEN0)
            } else {
                word_at(memory, OUT_LEN1)
            }
        }
    }
}

/// The output that a memory shows under a form.
pub fn output(memory: &PagedMem, form: Form) -> &[u8]
    ensures { result.now ≡ output_of form (view memory.now) }
{
    memory.bytes_at(
        OUTPUT_START,
        output_length(memory, form).min(OUTPUT_CAPACITY),
    )
}
