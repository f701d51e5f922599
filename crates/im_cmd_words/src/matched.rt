ghost use Rattle.std.specs.Prelude.{◌≡◌, ◌≤◌, IfSome, codes, option_map};
ghost use Rattle.clap.specs.Words.{first_of, found_of, rows_of, subcommand_rows_of};
ghost use Rattle.im_cmd_words.specs.Named.{asked, asked_by, build_asked, building_asked};
ghost use Rattle.im_cmd_words.specs.Named.{check_asked, dump_asked, exec_asked, gen_asked};
ghost use Rattle.im_cmd_words.specs.Named.{eval_asked, evaluation_asked, evaluation_meaning};
ghost use Rattle.im_cmd_words.specs.Named.{HasBounds, IsInBounds, is_set, meaning, number_asked};
ghost use Rattle.im_cmd_words.specs.Named.{options_asked, options_meaning, report_asked, run_asked};
ghost use Rattle.im_cmd_words.specs.Named.{upgrade_asked};
ghost use Rattle.im_cmd_words.specs.Numbers.{optional_between};

use crate::number::{number_between, plain_number};
use crate::{BuildOptions, Command, EvalOptions, RunOptions};
use clap::ArgMatches;

/// The value of the operand or option of this name, where the words give one.
fn value_of<'a>(found: &ArgMatches<'a>, name: &str) -> Option<&'a str>
    ensures { option_map (λ s. s.now) result ≡ first_of name.now (rows_of (found_of found.now)) }
{
    found.get_str(name)
}

/// Whether the flag of this name is among the words.
fn is_set(found: &ArgMatches<'_>, name: &str) -> bool
    ensures { result ≡ is_set name.now (rows_of (found_of found.now)) }
{
    value_of(found, name).is_some_and(|text| text == "true")
}

fn run_options<'a>(found: &ArgMatches<'a>) -> Option<RunOptions<'a>>
    ensures { option_map options_meaning result ≡ options_asked (rows_of (found_of found.now)) }
{
    let steps = plain_number(value_of(found, "steps")?)?;
    Some(RunOptions {
        input: value_of(found, "input"),
        trace: value_of(found, "trace"),
        steps,
        vars: is_set(found, "vars"),
        save: value_of(found, "save"),
    })
}

fn eval_options<'a>(found: &ArgMatches<'a>) -> Option<EvalOptions<'a>>
    ensures { option_map evaluation_meaning result
        ≡ evaluation_asked (rows_of (found_of found.now)) }
{
    let fuel = plain_number(value_of(found, "fuel")?)?;
    let input = value_of(found, "input");
    let vars = is_set(found, "vars");
    Some(EvalOptions { input, fuel, vars })
}

/// The number that the option or operand of this name has.
fn number_of(found: &ArgMatches<'_>, name: &str, least: u32, most: u32) -> Option<u32>
    ensures number { result ≡ number_asked name.now least most (rows_of (found_of found.now)) }
    ensures least { IfSome result (λ number. least ≤ number) }
    ensures most { IfSome result (λ number. number ≤ most) }
{
    number_between(value_of(found, name)?, least, most)
}

/// The longest gap that is asked for; `Some(None)` where the words ask for none.
fn gap_of(found: &ArgMatches<'_>) -> Option<Option<u32>>
    ensures gap { result ≡ optional_between 160 1000000
        (first_of (codes "max-gap") (rows_of (found_of found.now))) }
    ensures bounds { IfSome result (λ gap. IfSome gap (λ gap. (160 ≤ gap) × (gap ≤ 1000000))) }
{
    match value_of(found, "max-gap") {
        Some(text) => {
            let gap = number_between(text, 160, 1_000_000)?;
            Some(Some(gap))
        }
        None => Some(None),
    }
}

fn build_options(found: &ArgMatches<'_>) -> Option<BuildOptions>
    ensures asked { result ≡ building_asked (rows_of (found_of found.now)) }
    ensures bounds { IfSome result IsInBounds }
{
    let stack = number_of(found, "stack", 256, 1_048_576)?;
    let out_cap = number_of(found, "out-cap", 0, 1_048_576)?;
    let max_gap = gap_of(found)?;
    Some(BuildOptions {
        stack,
        out_cap,
        max_gap,
    })
}

fn build_command<'a>(found: &ArgMatches<'a>) -> Option<Command<'a>>
    ensures asked { option_map meaning result ≡ build_asked (rows_of (found_of found.now)) }
    ensures bounds { IfSome result HasBounds }
{
    let building = build_options(found)?;
    let source = value_of(found, "SRC")?;
    let image = value_of(found, "IMG")?;
    Some(Command::Build {
        source,
        image,
        building,
    })
}

fn run_command<'a>(found: &ArgMatches<'a>) -> Option<Command<'a>>
    ensures asked { option_map meaning result ≡ run_asked (rows_of (found_of found.now)) }
    ensures bounds { IfSome result HasBounds }
{
    let building = build_options(found)?;
    let options = run_options(found)?;
    let source = value_of(found, "SRC")?;
    let image = value_of(found, "IMG")?;
    Some(Command::Run {
        source,
        image,
        building,
        options,
    })
}

fn exec_command<'a>(found: &ArgMatches<'a>) -> Option<Command<'a>>
    ensures asked { option_map meaning result ≡ exec_asked (rows_of (found_of found.now)) }
    ensures bounds { IfSome result HasBounds }
{
    let options = run_options(found)?;
    let image = value_of(found, "IMG")?;
    let resume = value_of(found, "resume");
    Some(Command::Exec {
        image,
        options,
        resume,
    })
}

fn dump_command<'a>(found: &ArgMatches<'a>) -> Option<Command<'a>>
    ensures asked { option_map meaning result ≡ dump_asked (rows_of (found_of found.now)) }
    ensures bounds { IfSome result HasBounds }
{
    let image = value_of(found, "IMG")?;
    Some(Command::Dump { image })
}

fn upgrade_command<'a>(found: &ArgMatches<'a>) -> Option<Command<'a>>
    ensures asked { option_map meaning result ≡ upgrade_asked (rows_of (found_of found.now)) }
    ensures bounds { IfSome result HasBounds }
{
    let old = value_of(found, "IN")?;
    let new = value_of(found, "OUT")?;
    Some(Command::Upgrade { old, new })
}

fn report_command<'a>(found: &ArgMatches<'a>) -> Option<Command<'a>>
    ensures asked { option_map meaning result ≡ report_asked (rows_of (found_of found.now)) }
    ensures bounds { IfSome result HasBounds }
{
    let building = build_options(found)?;
    let source = value_of(found, "SRC")?;
    Some(Command::Report { source, building })
}

fn eval_command<'a>(found: &ArgMatches<'a>) -> Option<Command<'a>>
    ensures asked { option_map meaning result ≡ eval_asked (rows_of (found_of found.now)) }
    ensures bounds { IfSome result HasBounds }
{
    let building = build_options(found)?;
    let options = eval_options(found)?;
    let source = value_of(found, "SRC")?;
    Some(Command::Eval {
        source,
        building,
        options,
    })
}

fn gen_command<'a>(found: &ArgMatches<'a>) -> Option<Command<'a>>
    ensures asked { option_map meaning result ≡ gen_asked (rows_of (found_of found.now)) }
    ensures bounds { IfSome result HasBounds }
{
    let count = number_of(found, "N", 1, 300)?;
    Some(Command::Gen { count })
}

fn check_command<'a>(found: &ArgMatches<'a>) -> Option<Command<'a>>
    ensures asked { option_map meaning result ≡ check_asked (rows_of (found_of found.now)) }
    ensures bounds { IfSome result HasBounds }
{
    let source = value_of(found, "SRC")?;
    Some(Command::Check { source })
}

/// The command of this name, with what was found for the words after it.
fn command_of<'a>(name: &str, found: &ArgMatches<'a>) -> Option<Command<'a>>
    ensures asked { option_map meaning result ≡ asked_by name.now (rows_of (found_of found.now)) }
    ensures bounds { IfSome result HasBounds }
{
    match name {
        "build" => build_command(found),
        "run" => run_command(found),
        "exec" => exec_command(found),
        "dump" => dump_command(found),
        "upgrade" => upgrade_command(found),
        "report" => report_command(found),
        "eval" => eval_command(found),
        "gen" => gen_command(found),
        "check" => check_command(found),
        _ => None,
    }
}

/// What the table's matches ask for.
pub(crate) fn matched_command<'a>(matches: &ArgMatches<'a>) -> Option<Command<'a>>
    ensures asked { option_map meaning result ≡ asked (subcommand_rows_of matches.now) }
    ensures bounds { IfSome result HasBounds }
{
    let (name, found) = matches.subcommand()?;
    command_of(name, found)
}
