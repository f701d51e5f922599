use crate::{assembling, forcing, frames, losses, placing, recutting, selecting, statics};
use im_trial::{Case, Kinds, Row, Stop, Texts};

/// Cases of what each pass makes of code.
pub(crate) struct Middle;

impl Kinds for Middle {
    fn run(&self, _rt: &HostRuntime, _texts: &Texts, row: &Row<'_>, case: &mut Case) {
        match row.kind() {
            "force" => forcing::a_loop_with_calls_and_writes(case),
            "recut" => recutting::recut_code(row, case),
            "frame" => frames::objects_lie_behind_slots(case),
            "statics" => statics::statics_lie_apart(case),
            "assemble" => assembling::a_program_is_linked(case),
            "chain" => assembling::a_chain_takes_no_word(case),
            "place" => placing::place_code(row, case),
            "select" => selecting::select_code(row, case),
            "losses" => losses::power_fails(case),
            _ => case.end(Stop::Row),
        }
    }
}
