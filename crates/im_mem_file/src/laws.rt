ghost use Rattle.im_mem_file.specs.Laws.{EachText, OneMemory};

/// The text of a memory has no fault, and says that memory and that form.
pub fn one_memory_law()
    ensures { OneMemory }
{}

/// Bytes without a fault are the text of the memory and the form that they say.
pub fn each_memory_text_law()
    ensures { EachText }
{}
