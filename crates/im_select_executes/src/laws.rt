ghost use Rattle.im_select_executes.specs.Laws.{ExecutesLaw, ObjectsLaw};

use crate::survives_law;
use im_keeps_run::written_law;
use im_saved::image_law;
use im_select_addresses::shown_law;
use im_select_relation::select_keeps_law;

/// Placed code that is selected and linked, and whose image lies in memory, is followed by the
/// device's own run.
pub fn executes_law()
    ensures { ExecutesLaw }
{
    select_keeps_law();
    written_law();
    survives_law();
    image_law();
}

/// The image's objects show the statics.
pub fn objects_law()
    ensures { ObjectsLaw }
{
    shown_law();
    written_law();
}
