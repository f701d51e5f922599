use crate::{
    gaps, images, instructions, largest, machines, memories, numbers, pages, periods, routines,
    saved, sections, survivals,
};
use im_trial::{Case, Kinds, Row, Stop, Texts};

// Numbers and words.
fn run_number(texts: &Texts, row: &Row<'_>, case: &mut Case) -> bool {
    match row.kind() {
        "wrap" => numbers::wrapped(row, case),
        "holds" => numbers::held(row, case),
        "low" => numbers::low(row, case),
        "stands" => numbers::stands(texts, row, case),
        "put" => numbers::put(texts, row, case),
        _ => return false,
    }
    true
}

// Instructions and memory.
fn run_instruction(texts: &Texts, row: &Row<'_>, case: &mut Case) -> bool {
    match row.kind() {
        "instruction" => instructions::instruction(row, case),
        "x3" => instructions::x3(row, case),
        "step" => instructions::one_step(row, case),
        "memory" => memories::memory(texts, row, case),
        "routine" => routines::routine(row, case),
        "first-buffer" => routines::first_buffer(row, case),
        "runtime" => routines::runtime(texts, row, case),
        _ => return false,
    }
    true
}

// Images and linked code.
fn run_image(texts: &Texts, row: &Row<'_>, case: &mut Case) -> bool {
    match row.kind() {
        "image" => images::image(texts, row, case),
        "changed-image" => images::changed(texts, row, case),
        "fronts-of-image" => images::fronts(texts, row, case),
        "upgrade" => images::upgraded(texts, row, case),
        "gap" => gaps::longest(texts, row, case),
        "gap-of-calls" => gaps::a_call_within_a_call(case),
        "page" => pages::a_page_of_two_parts(case),
        "largest" => largest::the_largest_code(case),
        _ => return false,
    }
    true
}

// Machines.
fn run_machine(texts: &Texts, row: &Row<'_>, case: &mut Case) -> bool {
    match row.kind() {
        "periods" => periods::periods(texts, row, case),
        "trace" => machines::traced(texts, row, case),
        "period" => machines::period(texts, row, case),
        "input" => machines::input(texts, row, case),
        "variables" => machines::variables(texts, row, case),
        "saved" => saved::saved(texts, row, case),
        "upgraded-memory" => saved::upgraded(texts, row, case),
        "resumed" => saved::resumed(texts, row, case),
        "joined" => saved::joined(texts, row, case),
        "sections" => sections::sections(texts, row, case),
        "survival" => survivals::survival(texts, row, case),
        _ => return false,
    }
    true
}

/// Cases of words, images, machines and linked code.
pub(crate) struct Device;

impl Kinds for Device {
    fn run(&self, _rt: &HostRuntime, texts: &Texts, row: &Row<'_>, case: &mut Case) {
        let is_known = run_number(texts, row, case)
            || run_instruction(texts, row, case)
            || run_image(texts, row, case)
            || run_machine(texts, row, case);
        if !is_known {
            case.end(Stop::Row);
        }
    }
}
