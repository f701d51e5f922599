ghost use Rattle.std.specs.Prelude.{◌≡◌, ◌≤◌, All, IfOk, length};
ghost use Rattle.im_block.specs.declared.unit.Function.{Function as FunctionOf};
ghost use Rattle.im_frame.specs.Layout.{bytes_of};
ghost use Rattle.im_select_addresses.specs.Addresses.{AreLayouts};
ghost use Rattle.im_trial_middle.specs.Buildable.{IsBuildable};

use crate::fault::Fault;
use im_block::{Function, Unit};
use im_frame::{Layout, lay_out};
use im_image::Image;
use im_link_laws::linkable_law;
use im_pack::pack;
use im_select_addresses::place_statics;
use im_select_assemble::{Program, assemble};
use std::alloc::Global;

// The layout of each function's frame.
fn layouts_of(alloc: Global, functions: &[Function]) -> Result<Vec<Layout>, Fault>
    requires { All (λ (f : FunctionOf). bytes_of f ≤ f.need) functions.now }
    ensures { IfOk result (λ layouts. AreLayouts functions.now layouts.items) }
{
    let mut layouts = Vec::new(alloc);
    for number in 0..functions.len() {
        let layout = lay_out(alloc, &functions[number])?;
        layouts.push(layout)?;
    }
    Ok(layouts)
}

// The same names, owned.
fn owned(alloc: Global, names: &[&str]) -> Result<Vec<String>, Fault>
    ensures { IfOk result (λ strings. length strings.items ≡ length names.now) }
{
    let mut strings = Vec::new(alloc);
    for name in names {
        strings.push(String::from_str(alloc, name)?)?;
    }
    Ok(strings)
}

/// The image of placed code, whose functions have these names: laid out, selected, linked and
/// packed.
pub(crate) fn image_of(alloc: Global, unit: Unit, names: &[&str]) -> Result<Image, Fault>
    requires buildable { IsBuildable unit }
    requires named { length names.now ≡ length unit.functions.items }
{
    linkable_law();
    let layouts = layouts_of(alloc, &unit.functions)?;
    let names = owned(alloc, names)?;
    let statics = place_statics(alloc, &unit.statics)?;
    let program = Program {
        layouts: &layouts,
        statics: &statics,
        names: &names,
    };
    let assembled = assemble(alloc, unit, &program)?;
    let code = assembled.linker.finish()?;
    let image = pack(alloc, &assembled.statics, &statics, &code, 256, 16)?;
    Ok(image)
}
