ghost use Rattle.im_select_executes.specs.Survives.{SurvivesLaw};

use im_rtlib_laws::{sections_law, touched_law};

/// In a run of plain steps whose touches are in order no section writes what it has read, a section
/// that stores the selector makes that one store, a length is stored only where the other is
/// selected, and returns go behind calls.
pub fn survives_law()
    ensures { SurvivesLaw }
{
    touched_law();
    sections_law();
}
