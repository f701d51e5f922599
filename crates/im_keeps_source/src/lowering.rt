//! What lowered code promises to the passes behind it. The law is a function whose contract says
//! it.
ghost use Rattle.im_keeps_source.specs.LoweringLaws.{LowersLaw};

use im_lower_relation::{lower_keeps_law, lowered_form_law};

/// Lowered code, of the size that is due, that placing can take, is what the record of passes asks
/// of lowering.
pub fn lowers_law()
    ensures { LowersLaw }
{
    lower_keeps_law();
    lowered_form_law();
}
