ghost use Rattle.im_block.specs.Laws.{AddedCutsLaw, EachLineLaw, SearchLaw, SectionLaw};

/// Whatever lines weigh, a run passes each of them at most once, and once more for each unit of
/// fuel.
pub fn each_line_law()
    ensures { EachLineLaw }
{}

/// Cuts that are added change nothing else that a run does.
pub fn added_cuts_law()
    ensures { AddedCutsLaw }
{}

/// Where cuts stand and no path has a write that may meet an open read, no run whose tags hold
/// writes an exposed byte of its section.
pub fn section_law()
    ensures { SectionLaw }
{}

/// Where for each read the search is closed along the edges, and passes each write, the function is
/// sectioned.
pub fn search_law()
    ensures { SearchLaw }
{}
