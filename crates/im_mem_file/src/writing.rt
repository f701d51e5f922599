ghost use Rattle.std.specs.Prelude.{◌≡◌, ◌++◌, ◌<◌, IfOk, OnOk};
ghost use Rattle.im_num.specs.Bytes.{word_bytes};
ghost use Rattle.im_image.specs.declared.version.Version.TheVariants.{Two};
ghost use Rattle.im_image.specs.Text.{words_text};
ghost use Rattle.im_mem.specs.Memory.{view};
ghost use Rattle.im_mem_file.specs.Text.{page_text, MemoryText};

use crate::header::MAGIC;
use im_image::{Form, Version};
use im_mem_paged::PagedMem;
use im_num::NoMemory;
use std::alloc::{AllocError, Global};

fn put_word(text: &mut Vec<u8>, word: u32) -> Result<(), AllocError>
    ensures { OnOk result (text.new.items ≡ text.old.items ++ word_bytes word) }
{
    text.extend_from_slice(&word.to_le_bytes())
}

fn put_words(text: &mut Vec<u8>, words: &[u32]) -> Result<(), AllocError>
    ensures { OnOk result (text.new.items ≡ text.old.items ++ words_text words.now) }
{
    for word in words {
        put_word(text, *word)?;
    }
    Ok(())
}

fn put_page(text: &mut Vec<u8>, memory: &PagedMem, page: u32) -> Result<(), AllocError>
    requires { page < 1280 }
    ensures { OnOk result (text.new.items ≡ text.old.items ++ page_text (view memory.now) page) }
{
    put_word(text, page)?;
    text.extend_from_slice(memory.page(page))
}

/// The version 2 text of a memory in a form. Only pages that were written to are looked at.
pub fn write_memory(alloc: Global, memory: &PagedMem, form: Form) -> Result<Vec<u8>, NoMemory>
    ensures { IfOk result (λ text. MemoryText text.items Two form (view memory.now)) }
{
    let pages = memory.nonzero_pages(alloc)?;
    let count = pages.len() as u32;
    let mut text = Vec::new(alloc);
    let header = [MAGIC, Version::Two.number(), form.number(), count];
    put_words(&mut text, &header)?;
    for page in &pages {
        put_page(&mut text, memory, *page)?;
    }
    Ok(text)
}
