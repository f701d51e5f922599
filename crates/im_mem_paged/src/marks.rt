ghost use Rattle.std.specs.Prelude.{◌≡◌, ◌≤◌, ◌<◌, ◌+◌, ◌/◌, ◌^◌, length};
ghost use Rattle.im_mem_paged.specs.Marks.{KeepsMarks, MarksBytes, MarksPageOf};

/// Marks the pages of so many bytes from a place on, those behind the last mark left out.
pub fn mark_bytes(marks: &mut Vec<bool>, at: usize, count: usize)
    requires { at + count < 2 ^ 33 }
    ensures length { length marks.new.items ≡ length marks.old.items }
    ensures keeps { KeepsMarks marks.old.items marks.new.items }
    ensures all { MarksBytes at count marks.new.items }
{
    let first = at / 4096;
    let behind = (at + count + 4095) / 4096;
    let len = marks.len();
    let end = if behind < len { behind } else { len };
    for page in first..end {
        marks[page] = true;
    }
}

/// Marks the page of an address.
pub fn mark_page(marks: &mut Vec<bool>, at: u32)
    requires { at / 4096 < length marks.old.items }
    ensures length { length marks.new.items ≡ length marks.old.items }
    ensures keeps { KeepsMarks marks.old.items marks.new.items }
    ensures page { MarksPageOf at marks.new.items }
{
    marks[(at / 4096) as usize] = true;
}
