use crate::example::Example;
use im_driver::{Built, Options, compile};
use im_emu::Machine;
use im_image::Image;
use im_mem_paged::PagedMem;
use im_power::Period;
use im_rv::Went;
use std::alloc::Global;
use std::{fs, io};

/// Whether the output is as it should be where power stays, and in periods of the longest gap.
#[derive(Clone, Copy)]
pub(crate) struct Runs {
    pub(crate) whole: bool,
    pub(crate) in_periods: bool,
}

/// So many periods of so many instructions, with junk in the registers.
fn periods(n: u32, count: u32) -> Period {
    Period {
        n,
        junk: 0xa5a5_a5a5,
        count,
        mask: 0,
    }
}

fn no_answer() -> io::Error {
    io::Error::from(io::ErrorKind::Other)
}

fn built_of(alloc: Global, source: &[u8]) -> io::Result<Built> {
    let options = Options {
        stack: 65536,
        out_cap: 65536,
        max_gap: None,
    };
    compile(alloc, source, options).map_err(|_| no_answer())
}

/// Whether the image halts within these periods with that output.
fn halts_with(
    alloc: Global,
    image: &Image,
    input: &[u8],
    period: Period,
    expected: &[u8],
) -> io::Result<bool> {
    let mut machine: Machine<PagedMem> = Machine::load(alloc, image, input).map_err(
        |_| no_answer(),
    )?;
    machine.power(period);
    Ok(machine.went() == Went::Halted && machine.output() == expected)
}

pub(crate) fn runs_of(rt: &HostRuntime, example: &Example) -> io::Result<Runs> {
    let alloc = rt.alloc();
    let source = fs::read(rt, example.source)?;
    let input = fs::read(rt, example.input)?;
    let expected = fs::read(rt, example.output)?;
    let built = built_of(alloc, &source)?;
    let image = &built.image;
    let whole = halts_with(alloc, image, &input, periods(4_000_000_000, 1), &expected)?;
    let gap = periods(built.gap, 4_000_000_000);
    let in_periods = halts_with(alloc, image, &input, gap, &expected)?;
    Ok(Runs { whole, in_periods })
}
