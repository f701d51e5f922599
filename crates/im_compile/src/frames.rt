ghost use Rattle.std.specs.Prelude.{◌≡◌, ◌≤◌, ◌<◌, ◌^◌, All, IfOk, MatchResult, length};
ghost use Rattle.im_block.specs.declared.unit.Function.{Function as FunctionOf};
ghost use Rattle.im_frame.specs.Layout.{bytes_of};
ghost use Rattle.im_select_addresses.specs.Addresses.{AreLayouts};
ghost use Rattle.im_compile.specs.Faults.{IsFrameFault};
ghost use Rattle.im_compile.specs.Made.{AreNamedFrames};
ghost use Rattle.im_compile.specs.Ready.{IsFrameOf, of_frame};

use crate::fault::CompileFault;
use im_block::Function;
use im_frame::{FrameFault, Layout, lay_out};
use im_num::NoMemory;
use im_typed::{Frame, Frames};
use std::alloc::Global;

/// The fault of a function's frame.
fn fault_of(function: usize, fault: FrameFault) -> CompileFault
    ensures { result ≡ of_frame function fault }
{
    match fault {
        FrameFault::Limit(bytes) => CompileFault::Frame { function, bytes },
        FrameFault::OutOfMemory => CompileFault::OutOfMemory,
    }
}

/// The layout of each function's frame.
pub(crate) fn layouts_of(alloc: Global, functions: &[Function]) -> Result<Vec<Layout>, CompileFault>
    requires { All (λ (f : FunctionOf). bytes_of f ≤ f.need) functions.now }
    ensures { MatchResult result (λ layouts. AreLayouts functions.now layouts.items)
        (IsFrameFault functions.now) }
{
    let mut layouts = Vec::new(alloc);
    for number in 0..functions.len() {
        match lay_out(alloc, &functions[number]) {
            Ok(layout) => layouts.push(layout)?,
            Err(fault) => return Err(fault_of(number, fault)),
        }
    }
    Ok(layouts)
}

/// The frame of a function, by its name.
fn frame_of(alloc: Global, name: &[u8], layout: &Layout) -> Result<Frame, NoMemory>
    ensures { IfOk result (IsFrameOf name.now layout.now) }
{
    Ok(Frame {
        name: Vec::from_slice(alloc, name)?,
        size: layout.frame,
    })
}

/// The bytes of each function's frame, by its name.
pub(crate) fn frames_of(
    alloc: Global,
    names: &[Vec<u8>],
    layouts: &[Layout],
) -> Result<Frames, NoMemory>
    requires { length layouts.now ≡ length names.now }
    ensures { IfOk result (λ frames. AreNamedFrames names.now layouts.now frames.frames.items) }
{
    let mut frames = Vec::new(alloc);
    for number in 0..names.len() {
        frames.push(frame_of(alloc, &names[number], &layouts[number])?)?;
    }
    Ok(Frames { frames })
}
