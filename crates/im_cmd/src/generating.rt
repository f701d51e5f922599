ghost use Rattle.std.specs.Prelude.{◌<◌, ◌^◌, MatchResult};
ghost use Rattle.im_gen.specs.Gen.{gen_source};
ghost use Rattle.im_cmd_lines.specs.Refusals.{refused_of};
ghost use Rattle.im_cmd_words.specs.Named.{default_building};
ghost use Rattle.im_cmd.specs.Builds.{IsBuilt};
ghost use Rattle.im_cmd.specs.Generations.{RefusesGeneration};
ghost use Rattle.im_cmd.specs.Stages.{Generated, RunsMade};

use crate::building::build_text;
use crate::running::load;
use im_cmd_lines::Refusal;
use im_cmd_words::BuildOptions;
use im_driver::Built;
use im_emu::Machine;
use im_gen::{source, trace};
use im_mem_paged::PagedMem;
use im_num::NoMemory;
use std::alloc::Global;

/// What a build has where no word gives any.
const DEFAULT_BUILDING: BuildOptions = BuildOptions {
    stack: 65_536,
    out_cap: 1_048_576,
    max_gap: None,
};

// What is built of the made source of so many functions.
fn build_made<'a>(alloc: Global, count: u32) -> Result<Built, Refusal<'a>>
    ensures { MatchResult result (IsBuilt (gen_source count) default_building)
        (λ refusal. RefusesGeneration count (refused_of refusal)) }
{
    let text = match source(alloc, count) {
        Ok(text) => text,
        Err(NoMemory::OutOfMemory) => return Err(Refusal::OutOfMemory),
    };
    match build_text(alloc, "gen", DEFAULT_BUILDING, &text) {
        Ok(built) => Ok(built),
        Err(refusal) => Err(refusal),
    }
}

// The machine on which what was built is run, with no input and under the periods of its longest
// gap.
fn run_made<'a>(alloc: Global, count: u32, built: &Built) -> Result<Machine<PagedMem>, Refusal<'a>>
    requires { built.now.gap < 2 ^ 31 }
    ensures { MatchResult result (RunsMade count built.now)
        (λ refusal. RefusesGeneration count (refused_of refusal)) }
{
    let trace = match trace(alloc, count, built.gap) {
        Ok(trace) => trace,
        Err(NoMemory::OutOfMemory) => return Err(Refusal::OutOfMemory),
    };
    let mut machine = match load(alloc, &built.image, b"") {
        Ok(machine) => machine,
        Err(refusal) => return Err(refusal),
    };
    machine.run(&trace);
    Ok(machine)
}

/// Builds the made source of so many functions and runs its image. Answers the machine as the run
/// left it.
pub fn generate<'a>(alloc: Global, count: u32) -> Result<Machine<PagedMem>, Refusal<'a>>
    ensures { MatchResult result (Generated count)
        (λ refusal. RefusesGeneration count (refused_of refusal)) }
{
    let built = match build_made(alloc, count) {
        Ok(built) => built,
        Err(refusal) => return Err(refusal),
    };
    match run_made(alloc, count, &built) {
        Ok(machine) => Ok(machine),
        Err(refusal) => Err(refusal),
    }
}
