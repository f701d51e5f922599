ghost use Rattle.im_driver_laws.specs.Ends.{EndedLaw};
ghost use Rattle.im_driver_laws.specs.Laws.{OneProgramLaw, RightLaw};
ghost use Rattle.im_driver_laws.specs.Rules.{OneUnitLaw, ProgramIsTypedLaw, TypedIsProgramLaw};
ghost use Rattle.im_driver_laws.specs.Rules.{RefusedIsFaultLaw, FaultlessHasProgramLaw};
ghost use Rattle.im_driver_laws.specs.Rules.{ProgramHasNoFaultLaw, RefusedHasFaultLaw};
ghost use Rattle.im_driver_laws.specs.Rules.{ProgramHasNoExcessLaw, RefusedIsExcessLaw};
ghost use Rattle.im_driver_laws.specs.Rules.{StaticsAreLastLaw, ProgramOrBrokenLaw, NeverBothLaw};

use im_ctree::unique_unit_law;
use im_front::one_word_law;
use im_lex::one_reading;
use im_rules::laws::{typed_breaks_none_law, typed_once_law};
use im_rules_asked::laws::{
    first_excess_law, first_fault_law, typed_or_broken_law, units_agree_law,
};
use im_typed::more_fuel_law;

/// A source has one program at most. Of a right source, within the limits by its own counts, no
/// fault but want of memory is true.
pub fn right_source_law()
    ensures one { OneProgramLaw }
    ensures right { RightLaw }
{
    one_reading();
    one_word_law();
    unique_unit_law();
    typed_once_law();
    typed_breaks_none_law();
}

/// A source's tokens spell at most one unit. The source has a program exactly where the typing
/// functions of `im_rules_asked` type this unit to it, within the limits by them. Where the source
/// is refused for a rule, a node of the unit breaks this rule by them, and its first token stands
/// at that place.
pub fn source_typed_law()
    ensures unit { OneUnitLaw }
    ensures typed { ProgramIsTypedLaw }
    ensures program { TypedIsProgramLaw }
    ensures fault { RefusedIsFaultLaw }
{
    one_reading();
    one_word_law();
    unique_unit_law();
    units_agree_law();
    first_excess_law();
}

/// The first fault of a source's unit is computed, and the first excess. Where there is neither,
/// the source has the program that is computed too; a source with a program has no fault, and one
/// that is refused for a rule has one.
pub fn source_faults_law()
    ensures faultless { FaultlessHasProgramLaw }
    ensures none { ProgramHasNoFaultLaw }
    ensures some { RefusedHasFaultLaw }
{
    source_typed_law();
    typed_breaks_none_law();
    first_fault_law();
    first_excess_law();
}

/// A source that has a tree and is within the limits has a program, or a node of its tree breaks a
/// rule; and never both.
pub fn program_or_broken_law()
    ensures either { ProgramOrBrokenLaw }
    ensures never_both { NeverBothLaw }
{
    source_typed_law();
    typed_or_broken_law();
    typed_breaks_none_law();
}

/// A source with a program has no first excess. One that is refused for a limit (parameters, bytes
/// of a type, bytes of all statics) has that count, over its limit, by the functions; and one that
/// is refused for its statics has no size over the limit.
pub fn source_limits_law()
    ensures within { ProgramHasNoExcessLaw }
    ensures excess { RefusedIsExcessLaw }
    ensures statics { StaticsAreLastLaw }
{
    source_typed_law();
    first_excess_law();
}

/// A compiled source that ends on an input is right on it with any fuel. So what is promised of one
/// that may go on for ever is promised of it too: all that it writes with some fuel is reached,
/// each moment under losses is one of the run without them, and no other memory is changed.
pub fn ended_source_law()
    ensures { EndedLaw }
{
    more_fuel_law();
}
