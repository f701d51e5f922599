ghost use Rattle.im_pack_laws.specs.ImageLaws.{InImageLaw, SelectsLaw};

use crate::{holds_objects_law, loads_law, named_law, packed_law, places_law};
use im_link_laws::{linked_law, words_law};
use im_select_executes::objects_law;

/// A packed program, loaded with any input, is in its image as the law of selection asks.
pub fn in_image_law()
    ensures { InImageLaw }
{
    holds_objects_law();
    linked_law();
    loads_law();
    packed_law();
    places_law();
}

/// A packed program meets the line of the passes that selection is, if the machine follows its
/// code.
pub fn selects_law()
    ensures { SelectsLaw }
{
    in_image_law();
    named_law();
    objects_law();
    packed_law();
    words_law();
}
