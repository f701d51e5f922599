ghost use Rattle.std.specs.Prelude.{◌≡◌, ◌∷◌, [], ℕ, IfOk, List, MatchResult, None, option_map};
ghost use Rattle.im_mem.specs.Memory.{view};
ghost use Rattle.im_cmd_words.specs.Named.{options_meaning};
ghost use Rattle.im_cmd_lines.specs.Refusals.{refused_of};
ghost use Rattle.im_cmd.specs.Runs.{ReadsInput, RefusesInput, ReadsTrace, RefusesTrace, RefusesRun};
ghost use Rattle.im_cmd.specs.Runs.{has_torn, needs_form};
ghost use Rattle.im_cmd.specs.Outcome.{shown};
ghost use Rattle.im_cmd.specs.Stages.{ended_of, variables_of, IsBegun, Loads, Ran, RanOn};
ghost use Rattle.im_cmd.specs.Stages.{RefusesLoad, RefusesMachine, RefusesPeriods, TakesPeriods};

use crate::files::read_file;
use crate::resuming::resume_image;
use crate::saving::save_memory;
use im_cmd_lines::Refusal;
use im_cmd_words::RunOptions;
use im_emu::{LoadFault, Machine};
use im_image::{Form, Image};
use im_io::Shelf;
use im_mem_paged::PagedMem;
use im_num::{NoMemory, Var};
use im_power::{Period, Trace, TraceFault, read_trace};
use std::alloc::Global;

/// Bytes of an input's or a trace's file.
const RUN_FILE_LIMIT: u64 = 16 * 1024 * 1024;

/// A machine on which an image was run.
#[derive(Drop)]
pub struct Run {
    pub machine: Machine<PagedMem>,
    /// The image's variables as the run left them, where they are to be shown.
    pub variables: Option<Vec<Var>>,
}

/// The bytes of the file that is named for the input; none without a name.
pub fn read_input<'a, H: Shelf>(
    alloc: Global,
    shelf: &mut H,
    file: Option<&'a str>,
) -> Result<Vec<u8>, Refusal<'a>>
    ensures { let named = option_map (λ file. file.now) file.entry in MatchResult result
        (λ input. ReadsInput named input.items (H.state shelf.old) (H.state shelf.new))
        (λ refusal. RefusesInput named (H.state shelf.old) (H.state shelf.new)
        (refused_of refusal)) }
{
    match file {
        Some(name) => match read_file(alloc, shelf, name, RUN_FILE_LIMIT) {
            Ok(input) => Ok(input),
            Err(refusal) => Err(refusal),
        },
        None => Ok(Vec::new(alloc)),
    }
}

/// A machine with an image and an input.
pub fn load<'a>(
    alloc: Global,
    image: &Image,
    input: &[u8],
) -> Result<Machine<PagedMem>, Refusal<'a>>
    ensures { MatchResult result (λ machine. Loads image.now input.now machine)
        (λ refusal. RefusesLoad input.now (refused_of refusal)) }
{
    match Machine::load(alloc, image, input) {
        Ok(machine) => Ok(machine),
        Err(LoadFault::InputTooLong(length, limit)) => Err(Refusal::InputTooLong(length, limit)),
        Err(LoadFault::OutOfMemory) => Err(Refusal::OutOfMemory),
    }
}

// A machine with an image and the input that is named.
fn begin_anew<'a, H: Shelf>(
    alloc: Global,
    shelf: &mut H,
    image: &Image,
    file: Option<&'a str>,
) -> Result<Machine<PagedMem>, Refusal<'a>>
    ensures { let named = option_map (λ file. file.now) file.entry in
        (image_name : List ℕ) → MatchResult result
        (λ machine. IsBegun image.now named None machine (H.state shelf.old) (H.state shelf.new))
        (λ refusal. RefusesMachine image_name image.now named None (H.state shelf.old)
        (H.state shelf.new) (refused_of refusal)) }
{
    let input = match read_input(alloc, shelf, file) {
        Ok(input) => input,
        Err(refusal) => return Err(refusal),
    };
    match load(alloc, image, &input) {
        Ok(machine) => Ok(machine),
        Err(refusal) => Err(refusal),
    }
}

// A machine with what a run begins with: the memory of the file that is named to be resumed, and
// without one the image's own with the input that is named.
fn begin<'a, H: Shelf>(
    alloc: Global,
    shelf: &mut H,
    image_name: &'a str,
    image: &Image,
    input: Option<&'a str>,
    resume: Option<&'a str>,
) -> Result<Machine<PagedMem>, Refusal<'a>>
    ensures { let named = option_map (λ file. file.now) input.entry in
        let saved = option_map (λ file. file.now) resume.entry in MatchResult result
        (λ machine. IsBegun image.now named saved machine (H.state shelf.old) (H.state shelf.new))
        (λ refusal. RefusesMachine image_name.now image.now named saved (H.state shelf.old)
        (H.state shelf.new) (refused_of refusal)) }
{
    match resume {
        Some(name) => match resume_image(alloc, shelf, image_name, image, name) {
            Ok(machine) => Ok(machine),
            Err(refusal) => Err(refusal),
        },
        None => match begin_anew(alloc, shelf, image, input) {
            Ok(machine) => Ok(machine),
            Err(refusal) => Err(refusal),
        },
    }
}

// One period of so many instructions, with zeros in the registers.
fn one_period(alloc: Global, steps: u32) -> Result<Trace, NoMemory>
    ensures { IfOk result (λ periods. periods
        ≡ (record { n = steps; junk = 0; count = 1; mask = 0 }) ∷ []) }
{
    let mut periods = Vec::new(alloc);
    periods.push(Period {
        n: steps,
        junk: 0,
        count: 1,
        mask: 0,
    })?;
    Ok(Trace::new(periods))
}

// The periods that a file lists.
fn read_trace_file<'a, H: Shelf>(
    alloc: Global,
    shelf: &mut H,
    name: &'a str,
) -> Result<Trace, Refusal<'a>>
    ensures { MatchResult result (λ periods. ReadsTrace name.now periods (H.state shelf.old)
        (H.state shelf.new))
        (λ refusal. RefusesTrace name.now (H.state shelf.old) (H.state shelf.new)
        (refused_of refusal)) }
{
    let text = match read_file(alloc, shelf, name, RUN_FILE_LIMIT) {
        Ok(text) => text,
        Err(refusal) => return Err(refusal),
    };
    match read_trace(alloc, &text) {
        Ok(trace) => Ok(trace),
        Err(TraceFault::OutOfMemory) => Err(Refusal::OutOfMemory),
        Err(fault) => Err(Refusal::NotATrace(name, fault)),
    }
}

// The periods that the named file lists; without a name the one of so many instructions.
fn read_periods<'a, H: Shelf>(
    alloc: Global,
    shelf: &mut H,
    options: RunOptions<'a>,
) -> Result<Trace, Refusal<'a>>
    ensures { MatchResult result (λ periods. TakesPeriods (options_meaning options.entry) periods
        (H.state shelf.old) (H.state shelf.new))
        (λ refusal. RefusesPeriods (options_meaning options.entry).trace (H.state shelf.old)
        (H.state shelf.new) (refused_of refusal)) }
{
    match options.trace {
        Some(name) => match read_trace_file(alloc, shelf, name) {
            Ok(trace) => Ok(trace),
            Err(refusal) => Err(refusal),
        },
        None => match one_period(alloc, options.steps) {
            Ok(trace) => Ok(trace),
            Err(NoMemory::OutOfMemory) => Err(Refusal::OutOfMemory),
        },
    }
}

// Whether some period ends within a store.
fn has_torn(periods: &[Period]) -> bool
    ensures { result ≡ has_torn periods.now }
{
    periods.iter().any(|period| period.mask != 0)
}

// Whether the form doesn't allow what some period does.
fn needs_form(form: Form, trace: &Trace) -> bool
    ensures { result ≡ needs_form form trace.now }
{
    match form {
        Form::OneLength => has_torn(trace.as_slice()),
        Form::TwoLengths => false,
    }
}

// The variables of a machine's image, where they are to be shown.
fn shown_variables(
    alloc: Global,
    machine: &Machine<PagedMem>,
    vars: bool,
) -> Result<Option<Vec<Var>>, NoMemory>
    ensures { IfOk result (λ variables. variables_of (λ vars. vars.items) variables
        ≡ shown vars machine.now.objects (view machine.now.memory)) }
{
    if vars {
        Ok(Some(machine.vars(alloc)?))
    } else {
        Ok(None)
    }
}

// The machine on which an image was run.
fn run_machine<'a, H: Shelf>(
    alloc: Global,
    shelf: &mut H,
    image_name: &'a str,
    image: &Image,
    options: RunOptions<'a>,
    resume: Option<&'a str>,
) -> Result<Machine<PagedMem>, Refusal<'a>>
    ensures { let saved = option_map (λ file. file.now) resume.entry in MatchResult result
        (λ machine. RanOn saved (options_meaning options.entry) image.now machine
        (H.state shelf.old) (H.state shelf.new))
        (λ refusal. RefusesRun image_name.now image.now saved (options_meaning options.entry)
        (H.state shelf.old) (H.state shelf.new) (refused_of refusal)) }
{
    let mut machine = match begin(alloc, shelf, image_name, image, options.input, resume) {
        Ok(machine) => machine,
        Err(refusal) => return Err(refusal),
    };
    let trace = match read_periods(alloc, shelf, options) {
        Ok(trace) => trace,
        Err(refusal) => return Err(refusal),
    };
    if needs_form(machine.output_form(), &trace) {
        return Err(Refusal::TornStores);
    }
    machine.run(&trace);
    Ok(machine)
}

/// Runs an image with the input or the memory and under the periods that the options name, and
/// stores its last memory where they name a file for it.
pub fn run_image<'a, H: Shelf>(
    alloc: Global,
    shelf: &mut H,
    image_name: &'a str,
    image: &Image,
    options: RunOptions<'a>,
    resume: Option<&'a str>,
) -> Result<Run, Refusal<'a>>
    ensures { let saved = option_map (λ file. file.now) resume.entry in MatchResult result
        (λ run. Ran saved (options_meaning options.entry) image.now run.machine.form
        (ended_of run.machine) (variables_of (λ vars. vars.items) run.variables)
        (H.state shelf.old) (H.state shelf.new))
        (λ refusal. RefusesRun image_name.now image.now saved (options_meaning options.entry)
        (H.state shelf.old) (H.state shelf.new) (refused_of refusal)) }
{
    let machine = match run_machine(alloc, shelf, image_name, image, options, resume) {
        Ok(machine) => machine,
        Err(refusal) => return Err(refusal),
    };
    let variables = match shown_variables(alloc, &machine, options.vars) {
        Ok(variables) => variables,
        Err(NoMemory::OutOfMemory) => return Err(Refusal::OutOfMemory),
    };
    match save_memory(alloc, shelf, &machine, options.save) {
        Ok(()) => Ok(Run { machine, variables }),
        Err(refusal) => Err(refusal),
    }
}
