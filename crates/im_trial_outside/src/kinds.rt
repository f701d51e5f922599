use crate::{command_lines, files, host, images, lines, refusals, reports};
use im_trial::{Case, Kinds, Row, Stop, Texts};

// What is told of images and of their runs.
fn run_image(texts: &Texts, row: &Row<'_>, case: &mut Case) -> bool {
    match row.kind() {
        "dump" => images::dump(texts, row, case),
        "variable-lines" => images::variable_lines(texts, row, case),
        "shown" => lines::shown(row, case),
        "run-lines" => lines::run_lines(row, case),
        "ending-line" => lines::ending_line(row, case),
        _ => return false,
    }
    true
}

// What is told of sources.
fn run_source(row: &Row<'_>, case: &mut Case) -> bool {
    match row.kind() {
        "build-lines" => reports::build_lines(row, case),
        "report-lines" => reports::report_lines(row, case),
        "evaluation-lines" => reports::evaluation_lines(row, case),
        "generation-line" => lines::generation_line(row, case),
        "refusal" => refusals::refusal(row, case),
        _ => return false,
    }
    true
}

// Words and files.
fn run_words(rt: &HostRuntime, row: &Row<'_>, case: &mut Case) -> bool {
    match row.kind() {
        "command-line" => command_lines::command_line(row, case),
        "shelf" => files::shelf(row, case),
        "sink" => files::sink(row, case),
        "host" => host::host(rt, case),
        _ => return false,
    }
    true
}

/// Cases of words, lines and files.
pub(crate) struct Outside;

impl Kinds for Outside {
    fn run(&self, rt: &HostRuntime, texts: &Texts, row: &Row<'_>, case: &mut Case) {
        let is_known = run_words(rt, row, case)
            || run_source(row, case)
            || run_image(texts, row, case);
        if !is_known {
            case.end(Stop::Row);
        }
    }
}
