ghost use Rattle.std.specs.Prelude.{◌≡◌, IfOk, false};
ghost use Rattle.clap.specs.Words.{app_of, rule_of, shape_of};
ghost use Rattle.clap.specs.declared.builder.command.Command.TheViews.{out-Command};
ghost use Rattle.im_cmd_words.specs.Table.{build_options, build_row, check_row, command_line};
ghost use Rattle.im_cmd_words.specs.Table.{counted, dump_row, eval_options, eval_row, exec_row};
ghost use Rattle.im_cmd_words.specs.Table.{exec_options, file_options, flag, gen_row, limit};
ghost use Rattle.im_cmd_words.specs.Table.{numbered, operand, report_row, run_options, run_row};
ghost use Rattle.im_cmd_words.specs.Table.{step_options, upgrade_row, valued, with_rules};

use clap::builder::ValueParser;
use clap::{Arg, ArgAction};
use std::alloc::{AllocError, Global};

/// A word that a command needs, by its place.
fn operand<'a>(alloc: Global, name: &'a str, help: &'a str) -> Arg<'a>
    ensures rule { rule_of result ≡ operand name.entry.now }
    ensures local { result.global ≡ false }
{
    Arg::new(alloc, name).required(true).help(help)
}

/// A number from `least` to `most` that a command needs, by its place.
fn counted<'a>(alloc: Global, name: &'a str, least: u32, most: u32, help: &'a str) -> Arg<'a>
    ensures rule { rule_of result ≡ counted name.entry.now least most }
    ensures local { result.global ≡ false }
{
    operand(alloc, name, help).value_parser(ValueParser::signed(i64::from(least), i64::from(most)))
}

fn flag<'a>(alloc: Global, name: &'a str, help: &'a str) -> Arg<'a>
    ensures rule { rule_of result ≡ flag name.entry.now }
    ensures local { result.global ≡ false }
{
    Arg::new(alloc, name)
        .long(name)
        .action(ArgAction::SetTrue)
        .help(help)
}

/// An option whose value help calls `placeholder`.
fn valued<'a>(alloc: Global, name: &'a str, placeholder: &'a str, help: &'a str) -> Arg<'a>
    ensures rule { rule_of result ≡ valued name.entry.now }
    ensures local { result.global ≡ false }
{
    Arg::new(alloc, name)
        .long(name)
        .value_name(placeholder)
        .help(help)
}

/// An option whose value is a number from `least` to `most`.
fn limit<'a>(alloc: Global, name: &'a str, least: u32, most: u32, help: &'a str) -> Arg<'a>
    ensures rule { rule_of result ≡ limit name.entry.now least most }
    ensures local { result.global ≡ false }
{
    valued(alloc, name, "N", help).value_parser(ValueParser::signed(
        i64::from(least),
        i64::from(most),
    ))
}

/// The same, with a number that stands where the words give none.
fn numbered<'a>(
    alloc: Global,
    name: &'a str,
    default: &'a str,
    least: u32,
    most: u32,
    help: &'a str,
) -> Arg<'a>
    ensures rule { rule_of result ≡ numbered name.entry.now default.entry.now least most }
    ensures local { result.global ≡ false }
{
    limit(alloc, name, least, most, help).default_value(default)
}

/// What an image is built with.
fn with_build_options<'a>(
    alloc: Global,
    command: clap::Command<'a>,
) -> Result<clap::Command<'a>, AllocError>
    requires local { (out-Command command).has_globals ≡ false }
    ensures row { IfOk result (λ c. app_of c ≡ with_rules (app_of command.entry) build_options) }
    ensures local { IfOk result (λ c. (out-Command c).has_globals ≡ false) }
{
    let stack = "Bytes of stack, 256 to 1048576";
    let output = "Bytes of output that there is room for, 0 to 1048576";
    let gap = "Instructions of the longest gap at most, 160 to 1000000; any without it";
    command
        .arg(numbered(alloc, "stack", "65536", 256, 1_048_576, stack))?
        .arg(numbered(alloc, "out-cap", "1048576", 0, 1_048_576, output))?
        .arg(limit(alloc, "max-gap", 160, 1_000_000, gap))
}

/// The files that a run reads.
fn with_file_options<'a>(
    alloc: Global,
    command: clap::Command<'a>,
) -> Result<clap::Command<'a>, AllocError>
    requires local { (out-Command command).has_globals ≡ false }
    ensures row { IfOk result (λ c. app_of c ≡ with_rules (app_of command.entry) file_options) }
    ensures local { IfOk result (λ c. (out-Command c).has_globals ≡ false) }
{
    let input = "The file that the program reads; the input is empty without it";
    let trace = "The file that lists the periods of power; there is one without it";
    command
        .arg(valued(alloc, "input", "F", input))?
        .arg(valued(alloc, "trace", "F", trace))
}

/// How long a run lasts, whether its variables are shown, and where its last memory is stored.
fn with_step_options<'a>(
    alloc: Global,
    command: clap::Command<'a>,
) -> Result<clap::Command<'a>, AllocError>
    requires local { (out-Command command).has_globals ≡ false }
    ensures row { IfOk result (λ c. app_of c ≡ with_rules (app_of command.entry) step_options) }
    ensures local { IfOk result (λ c. (out-Command c).has_globals ≡ false) }
{
    let steps = "Instructions of the one period without --trace, 0 to 4294967295";
    let vars = "Shows the program's variables at the end";
    let save = "The file that gets the last memory";
    command
        .arg(numbered(alloc, "steps", "100000000", 0, 4_294_967_295, steps))?
        .arg(flag(alloc, "vars", vars))?
        .arg(valued(alloc, "save", "F", save))
}

/// What an image is run with.
fn with_run_options<'a>(
    alloc: Global,
    command: clap::Command<'a>,
) -> Result<clap::Command<'a>, AllocError>
    requires local { (out-Command command).has_globals ≡ false }
    ensures row { IfOk result (λ c. app_of c ≡ with_rules (app_of command.entry) run_options) }
    ensures local { IfOk result (λ c. (out-Command c).has_globals ≡ false) }
{
    with_step_options(alloc, with_file_options(alloc, command)?)
}

/// The same, and the memory that a run begins with.
fn with_exec_options<'a>(
    alloc: Global,
    command: clap::Command<'a>,
) -> Result<clap::Command<'a>, AllocError>
    requires local { (out-Command command).has_globals ≡ false }
    ensures row { IfOk result (λ c. app_of c ≡ with_rules (app_of command.entry) exec_options) }
    ensures local { IfOk result (λ c. (out-Command c).has_globals ≡ false) }
{
    let resume = "The file of a saved memory that the run begins with; --input isn't read then";
    with_run_options(alloc, command)?.arg(valued(alloc, "resume", "F", resume))
}

fn build_row<'a>(alloc: Global) -> Result<clap::Command<'a>, AllocError>
    ensures row { IfOk result (λ c. shape_of c ≡ build_row) }
    ensures local { IfOk result (λ c. (out-Command c).has_globals ≡ false) }
{
    let command = clap::Command::new(alloc, "build")
        .about("Builds a C source and stores its image")
        .arg(operand(alloc, "SRC", "The C source"))?
        .arg(operand(alloc, "IMG", "The file that gets the image"))?;
    with_build_options(alloc, command)
}

fn run_row<'a>(alloc: Global) -> Result<clap::Command<'a>, AllocError>
    ensures row { IfOk result (λ c. shape_of c ≡ run_row) }
    ensures local { IfOk result (λ c. (out-Command c).has_globals ≡ false) }
{
    let command = clap::Command::new(alloc, "run")
        .about("Builds a C source, stores its image, and runs that")
        .arg(operand(alloc, "SRC", "The C source"))?
        .arg(operand(alloc, "IMG", "The file that gets the image"))?;
    let command = with_build_options(alloc, command)?;
    with_run_options(alloc, command)
}

fn exec_row<'a>(alloc: Global) -> Result<clap::Command<'a>, AllocError>
    ensures row { IfOk result (λ c. shape_of c ≡ exec_row) }
    ensures local { IfOk result (λ c. (out-Command c).has_globals ≡ false) }
{
    let command = clap::Command::new(alloc, "exec")
        .about("Runs an image")
        .arg(operand(alloc, "IMG", "The image's file"))?;
    with_exec_options(alloc, command)
}

fn dump_row<'a>(alloc: Global) -> Result<clap::Command<'a>, AllocError>
    ensures row { IfOk result (λ c. shape_of c ≡ dump_row) }
    ensures local { IfOk result (λ c. (out-Command c).has_globals ≡ false) }
{
    clap::Command::new(alloc, "dump")
        .about("Shows what an image holds")
        .arg(operand(alloc, "IMG", "The image's file"))
}

fn upgrade_row<'a>(alloc: Global) -> Result<clap::Command<'a>, AllocError>
    ensures row { IfOk result (λ c. shape_of c ≡ upgrade_row) }
    ensures local { IfOk result (λ c. (out-Command c).has_globals ≡ false) }
{
    clap::Command::new(alloc, "upgrade")
        .about("Stores an image or a saved memory in version 2 under another name")
        .arg(operand(alloc, "IN", "The file of the image or of the memory"))?
        .arg(operand(alloc, "OUT", "The file that gets version 2"))
}

fn report_row<'a>(alloc: Global) -> Result<clap::Command<'a>, AllocError>
    ensures row { IfOk result (λ c. shape_of c ≡ report_row) }
    ensures local { IfOk result (λ c. (out-Command c).has_globals ≡ false) }
{
    let command = clap::Command::new(alloc, "report")
        .about("Builds a C source and tells its size, longest gap, frames and cuts")
        .arg(operand(alloc, "SRC", "The C source"))?;
    with_build_options(alloc, command)
}

/// What a source is evaluated with.
fn with_eval_options<'a>(
    alloc: Global,
    command: clap::Command<'a>,
) -> Result<clap::Command<'a>, AllocError>
    requires local { (out-Command command).has_globals ≡ false }
    ensures row { IfOk result (λ c. app_of c ≡ with_rules (app_of command.entry) eval_options) }
    ensures local { IfOk result (λ c. (out-Command c).has_globals ≡ false) }
{
    let input = "The file that the program reads; the input is empty without it";
    let fuel = "Calls, turns of loops, bytes read and written at most, 0 to 4294967295";
    let vars = "Shows the program's variables at the end";
    command
        .arg(valued(alloc, "input", "F", input))?
        .arg(numbered(alloc, "fuel", "1000000", 0, 4_294_967_295, fuel))?
        .arg(flag(alloc, "vars", vars))
}

fn eval_row<'a>(alloc: Global) -> Result<clap::Command<'a>, AllocError>
    ensures row { IfOk result (λ c. shape_of c ≡ eval_row) }
    ensures local { IfOk result (λ c. (out-Command c).has_globals ≡ false) }
{
    let command = clap::Command::new(alloc, "eval")
        .about("Evaluates what a C source means, with the frames of its build")
        .arg(operand(alloc, "SRC", "The C source"))?;
    let command = with_build_options(alloc, command)?;
    with_eval_options(alloc, command)
}

fn gen_row<'a>(alloc: Global) -> Result<clap::Command<'a>, AllocError>
    ensures row { IfOk result (λ c. shape_of c ≡ gen_row) }
    ensures local { IfOk result (λ c. (out-Command c).has_globals ≡ false) }
{
    clap::Command::new(alloc, "gen")
        .about("Builds and runs a made source, and tells its output's length and sum")
        .arg(counted(alloc, "N", 1, 300, "Functions of the source, 1 to 300"))
}

fn check_row<'a>(alloc: Global) -> Result<clap::Command<'a>, AllocError>
    ensures row { IfOk result (λ c. shape_of c ≡ check_row) }
    ensures local { IfOk result (λ c. (out-Command c).has_globals ≡ false) }
{
    clap::Command::new(alloc, "check")
        .about("Tells where and why a C source is refused")
        .arg(operand(alloc, "SRC", "The C source"))
}

/// The table of commands, as clap reads it.
pub(crate) fn command_table<'a>(alloc: Global) -> Result<clap::Command<'a>, AllocError>
    ensures { IfOk result (λ c. app_of c ≡ command_line) }
{
    clap::Command::new(alloc, "intermit")
        .about("Compiles C for devices that lose power, and runs the images")
        .after_help("`intermit COMMAND --help` tells a command's options.")
        .subcommand_required(true)
        .subcommand(build_row(alloc)?)?
        .subcommand(run_row(alloc)?)?
        .subcommand(exec_row(alloc)?)?
        .subcommand(dump_row(alloc)?)?
        .subcommand(upgrade_row(alloc)?)?
        .subcommand(report_row(alloc)?)?
        .subcommand(eval_row(alloc)?)?
        .subcommand(gen_row(alloc)?)?
        .subcommand(check_row(alloc)?)
}
