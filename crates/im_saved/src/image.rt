ghost use Rattle.im_saved.specs.ImageLaws.{ImageLaw};

use crate::live_law;
use im_keeps_run::written_law;

/// Where registers live at an image's words so that each cut saves them, its run uses only saved
/// registers behind its cuts, as long as it keeps to its code.
pub fn image_law()
    ensures { ImageLaw }
{
    live_law();
    written_law();
}
