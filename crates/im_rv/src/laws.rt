ghost use Rattle.im_rv.specs.Laws.{RowsApart, RowsReached, LinesApart, ZeroStays, OneRegister};
ghost use Rattle.im_rv.specs.Laws.{OnlyStores, WordsStay, BytesStay, TornBetween, EndsCalm};

/// No word stands for two operations, so the order of the table is no matter.
pub fn rows_apart_law()
    ensures { RowsApart }
{}

/// Each of the 47 operations has a word.
pub fn rows_reached_law()
    ensures { RowsReached }
{}

/// Two instructions with the same fields and the same immediate as a word are the same, so decoding
/// undoes encoding.
pub fn lines_apart_law()
    ensures { LinesApart }
{}

/// x0 reads as 0 after any step (RISC-V Unprivileged ISA, 2.1).
pub fn zero_stays_law()
    ensures { ZeroStays }
{}

/// Registers hold words after any step.
pub fn words_stay_law()
    ensures { WordsStay }
{}

/// Memory holds bytes after any step, also one within which power fails.
pub fn bytes_stay_law()
    ensures { BytesStay }
{}

/// Where power fails within a step, each byte is the old one or the one that the whole step leaves.
pub fn torn_between_law()
    ensures { TornBetween }
{}

/// A step changes at most one register.
pub fn one_register_law()
    ensures { OneRegister }
{}

/// Only a store changes memory, and only its one, two or four bytes at the sum of rs1 and the
/// immediate, which become the lowest bytes of rs2 (RISC-V Unprivileged ISA, 2.6).
pub fn only_stores_law()
    ensures { OnlyStores }
{}

/// A step that halts or faults leaves processor and memory as they were.
pub fn ends_calm_law()
    ensures { EndsCalm }
{}
