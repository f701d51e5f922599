use crate::{blocks, commands, losses, meanings, programs, sources, typed, units};
use im_trial::{Case, Kinds, Row, Stop, Texts};

// Sources, from their text to their image.
fn run_source(texts: &Texts, row: &Row<'_>, case: &mut Case) -> bool {
    match row.kind() {
        "program" => programs::program(texts, row, case),
        "source" => sources::source(texts, row, case),
        "typedefs" => sources::typedefs(row, case),
        "functions" => typed::typed(texts, row, case),
        "statics" => typed::typed(texts, row, case),
        "nodes" => typed::typed(texts, row, case),
        "frames" => typed::typed(texts, row, case),
        _ => return false,
    }
    true
}

// Meanings, block code, and commands.
fn run_whole(texts: &Texts, row: &Row<'_>, case: &mut Case) -> bool {
    match row.kind() {
        "meaning" => meanings::meaning(texts, row, case),
        "blocks" => blocks::blocks(texts, row, case),
        "unit" => units::unit(row, case),
        "command" => commands::command(texts, row, case),
        "losses" => losses::losses(texts, row, case),
        _ => return false,
    }
    true
}

/// Cases of the whole compiler.
pub(crate) struct Top;

impl Kinds for Top {
    fn run(&self, _rt: &HostRuntime, texts: &Texts, row: &Row<'_>, case: &mut Case) {
        if !run_source(texts, row, case) && !run_whole(texts, row, case) {
            case.end(Stop::Row);
        }
    }
}
