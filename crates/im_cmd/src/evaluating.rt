ghost use Rattle.std.specs.Prelude.{◌≡◌, map, option_map, IfOk, MatchResult};
ghost use Rattle.im_typed.specs.ProgramOf.{program_of};
ghost use Rattle.im_typed.specs.declared.frames.Frame as frame;
ghost use Rattle.im_compile.specs.Passed.{IsSource};
ghost use Rattle.im_driver.specs.im_keeps_built.Laws.{frames_of};
ghost use Rattle.im_keeps_source.specs.Laws.{meaning_of};
ghost use Rattle.im_eval_machine.specs.Endings.{told};
ghost use Rattle.im_cmd_words.specs.Named.{IsInBounds, evaluation_meaning};
ghost use Rattle.im_cmd_lines.specs.Refusals.{refused_of};
ghost use Rattle.im_cmd.specs.Runs.{TakesInput, RefusesInput};
ghost use Rattle.im_cmd.specs.Evaluations.{Evaluates, RefusesEvaluation};
ghost use Rattle.im_cmd.specs.Stages.{IsTakable, IsTooLong};

use crate::building::compile_program;
use crate::running::read_input;
use im_cmd_lines::Refusal;
use im_cmd_words::{BuildOptions, EvalOptions};
use im_driver::{Built, Compiled};
use im_eval::{Outcome, eval_framed};
use im_io::Shelf;
use im_mem::INPUT_CAPACITY;
use im_num::NoMemory;
use im_typed::Frame;
use std::alloc::Global;

/// What was built of a source, and what its program does.
#[derive(Drop)]
pub struct Evaluation {
    pub built: Built,
    pub outcome: Outcome,
}

// A machine has room for the input.
fn has_room<'a>(input: &[u8]) -> Result<(), Refusal<'a>>
    ensures { MatchResult result (λ done. IsTakable input.now)
        (λ refusal. IsTooLong input.now (refused_of refusal)) }
{
    if input.len() > INPUT_CAPACITY as usize {
        let most = u64::from(INPUT_CAPACITY);
        return Err(Refusal::InputTooLong(input.len() as u64, most));
    }
    Ok(())
}

// The bytes of the file that is named for the input, which a machine has room for.
fn take_input<'a, H: Shelf>(
    alloc: Global,
    shelf: &mut H,
    file: Option<&'a str>,
) -> Result<Vec<u8>, Refusal<'a>>
    ensures { let named = option_map (λ file. file.now) file.entry in MatchResult result
        (λ input. TakesInput named input.items (H.state shelf.old) (H.state shelf.new))
        (λ refusal. RefusesInput named (H.state shelf.old) (H.state shelf.new)
        (refused_of refusal)) }
{
    let input = match read_input(alloc, shelf, file) {
        Ok(input) => input,
        Err(refusal) => return Err(refusal),
    };
    match has_room(&input) {
        Ok(()) => Ok(input),
        Err(refusal) => Err(refusal),
    }
}

// The bytes of frames, in their order.
fn sizes_of(alloc: Global, frames: &[Frame]) -> Result<Vec<u32>, NoMemory>
    ensures { IfOk result (λ sizes. sizes.items ≡ map {A = frame.Frame} (λ f. f.size) frames.now) }
{
    let mut sizes = Vec::new(alloc);
    for frame in frames {
        sizes.push(frame.size)?;
    }
    Ok(sizes)
}

// What the program does on an input, with the frames, the stack and the room for output of its
// image.
fn outcome_of(alloc: Global, whole: &Compiled, input: &[u8], fuel: u32) -> Result<Outcome, NoMemory>
    requires { IsSource whole.now.prog }
    ensures { IfOk result (λ outcome. told outcome ≡ meaning_of (program_of whole.now.prog)
        (frames_of whole.now.built) whole.now.built.image input.now fuel) }
{
    let built = &whole.built;
    let sizes = sizes_of(alloc, &built.frames.frames)?;
    let image = &built.image;
    let fuel = u64::from(fuel);
    eval_framed(
        alloc,
        &whole.prog,
        &sizes,
        image.stack,
        image.out_cap,
        input,
        fuel,
    )
}

/// Builds a source, stores nothing, and evaluates what its program means on the input that the
/// options name, with so much fuel.
pub fn evaluate<'a, H: Shelf>(
    alloc: Global,
    shelf: &mut H,
    source: &'a str,
    building: BuildOptions,
    options: EvalOptions<'a>,
) -> Result<Evaluation, Refusal<'a>>
    requires { IsInBounds building }
    ensures { let asked = evaluation_meaning options.entry in MatchResult result
        (λ done. Evaluates source.now building asked done.built (told done.outcome)
        (H.state shelf.old) (H.state shelf.new))
        (λ refusal. RefusesEvaluation source.now building asked (H.state shelf.old)
        (H.state shelf.new) (refused_of refusal)) }
{
    let whole = match compile_program(alloc, shelf, source, building) {
        Ok(whole) => whole,
        Err(refusal) => return Err(refusal),
    };
    let input = match take_input(alloc, shelf, options.input) {
        Ok(input) => input,
        Err(refusal) => return Err(refusal),
    };
    match outcome_of(alloc, &whole, &input, options.fuel) {
        Ok(outcome) => {
            let built = whole.built;
            Ok(Evaluation { built, outcome })
        }
        Err(NoMemory::OutOfMemory) => Err(Refusal::OutOfMemory),
    }
}
