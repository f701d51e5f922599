use crate::{lexical, literals, nesting, numbered, parsing, readings, specifiers, types, words};
use im_trial::{Case, Kinds, Row, Stop, Texts};

// Tokens.
fn run_token(texts: &Texts, row: &Row<'_>, case: &mut Case) -> bool {
    match row.kind() {
        "number" => lexical::number(texts, row, case),
        "character" => lexical::character(texts, row, case),
        "keyword" => lexical::keyword(texts, row, case),
        "punctuator" => lexical::punctuator(texts, row, case),
        "tokens" => lexical::tokens(texts, row, case),
        "punctuators" => lexical::punctuators(case),
        "string" => literals::string(case),
        "word" => words::word(texts, row, case),
        "nesting" => nesting::nesting(texts, row, case),
        _ => return false,
    }
    true
}

// Trees.
fn run_tree(texts: &Texts, row: &Row<'_>, case: &mut Case) -> bool {
    match row.kind() {
        "printed" => readings::printed(texts, row, case),
        "printed-as" => readings::printed_as(texts, row, case),
        "externals" => readings::externals(texts, row, case),
        "read" => readings::read(texts, row, case),
        "fronts" => readings::fronts(texts, row, case),
        "declaration" => parsing::declared(row, case),
        "statement" => parsing::stated(row, case),
        _ => return false,
    }
    true
}

// Types.
fn run_type(row: &Row<'_>, case: &mut Case) -> bool {
    match row.kind() {
        "string-numbers" => numbered::string_numbers(case),
        "specifiers" => specifiers::specifiers(case),
        "type" => types::types_of_a_table(case),
        _ => return false,
    }
    true
}

/// Cases of the front end.
pub(crate) struct Front;

impl Kinds for Front {
    fn run(&self, _rt: &HostRuntime, texts: &Texts, row: &Row<'_>, case: &mut Case) {
        let is_known = run_token(texts, row, case)
            || run_tree(texts, row, case)
            || run_type(row, case);
        if !is_known {
            case.end(Stop::Row);
        }
    }
}
