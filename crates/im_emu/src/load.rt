ghost use Rattle.std.specs.Prelude.{◌≡◌, ◌≤◌, ◌<◌, ◌+◌, ◌*◌, ◌%◌, length, IfOk};
ghost use Rattle.std.specs.List.{flat_map};
ghost use Rattle.im_num.specs.Bytes.{word_bytes};
ghost use Rattle.im_mem.specs.Memory.{view, written};
ghost use Rattle.im_device.specs.Load.{memory_of};

use im_image::Image;
use im_mem::{
    BUFFER0_START, CODE_START, IN_LEN, INPUT_START, Memory, OUT_CAP, STACK_END, STACK_LIM,
    STATICS_START,
};
use im_mem_paged::PagedMem;
use im_num::NoMemory;
use std::alloc::Global;

fn put_word(memory: &mut PagedMem, at: u32, word: u32)
    requires aligned { at % 4 ≡ 0 }
    requires room { at + 4 ≤ 5242880 }
    ensures { view memory.new ≡ written (view memory.old) at (word_bytes word) }
{
    memory.store(at, 4, word);
}

fn put_words(memory: &mut PagedMem, at: u32, words: &[u32])
    requires aligned { at % 4 ≡ 0 }
    requires room { at + 4 * length words.now ≤ 5242880 }
    ensures { view memory.new ≡ written (view memory.old) at (flat_map word_bytes words.now) }
{
    for i in 0..words.len() {
        put_word(memory, at + 4 * i as u32, words[i]);
    }
}

/// The first memory of a machine: all zero but for the words that the runtime reads, the first
/// register buffer, the code, the statics and the input.
pub fn first_memory(alloc: Global, image: &Image, input: &[u8]) -> Result<PagedMem, NoMemory>
    requires { length input.now ≤ 1048576 }
    ensures { IfOk result (λ memory. view memory ≡ memory_of image.now input.now) }
{
    let mut memory = PagedMem::new(alloc)?;
    put_word(&mut memory, OUT_CAP, image.out_cap);
    put_word(&mut memory, IN_LEN, input.len() as u32);
    put_word(&mut memory, STACK_LIM, STACK_END - image.stack);
    put_word(&mut memory, BUFFER0_START, image.entry);
    put_word(&mut memory, BUFFER0_START + 8, STACK_END);
    put_words(&mut memory, CODE_START, &image.words);
    memory.fill(STATICS_START, &image.statics);
    memory.fill(INPUT_START, input);
    Ok(memory)
}
