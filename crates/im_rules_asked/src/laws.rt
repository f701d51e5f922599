//! What holds of these functions. Each law is a function with an empty body, whose contract says it.
ghost use Rattle.im_rules_asked.specs.Laws.{RightHasNoFault, TypedBreaksNoRule};
ghost use Rattle.im_rules_asked.specs.Laws.{ExpressionIsAsked, NameIsAsked, DeclaratorIsAsked};
ghost use Rattle.im_rules_asked.specs.Laws.{AskedIsExpression, AskedIsName, AskedIsDeclarator};
ghost use Rattle.im_rules_asked.specs.Laws.{UnitIsAsked, AskedIsUnit, BrokenIsAsked};
ghost use Rattle.im_rules_asked.specs.Laws.{FaultlessIsTyped, TypedIsFaultless, FirstFaultIsOne};
ghost use Rattle.im_rules_asked.specs.Laws.{FirstFaultIsBroken, IsTypedOrBroken};
ghost use Rattle.im_rules_asked.specs.Laws.{SizedHasSize, HasSizeIsSized};
ghost use Rattle.im_rules_asked.specs.Laws.{ExceedsIsExcess, ExcessExceeds, NoExcessIsWithin};
ghost use Rattle.im_rules_asked.specs.Laws.{WithinHasNoExcess, FirstExcessIsOne, SmallHasNoLarge};
ghost use Rattle.im_rules_asked.specs.Laws.{NoStopIsRight, RightHasNoStop};
ghost use Rattle.im_rules_asked.specs.Laws.{FirstBrokenIsOne, FirstLargeIsOne};

/// What is right has no fault, so a typed unit breaks no rule.
pub fn right_has_no_fault_law()
    ensures demands { RightHasNoFault }
    ensures unit { TypedBreaksNoRule }
{}

/// Of an expression, type name or declarator that `im_rules` types, all that is asked is so, and
/// the function gives what it is typed to.
pub fn typed_is_asked_law()
    ensures expression { ExpressionIsAsked }
    ensures type_name { NameIsAsked }
    ensures declarator { DeclaratorIsAsked }
{}

/// An expression, type name or declarator of which all that is asked is so is typed by `im_rules`
/// to what the function gives.
pub fn asked_is_typed_law()
    ensures expression { AskedIsExpression }
    ensures type_name { AskedIsName }
    ensures declarator { AskedIsDeclarator }
{}

/// A unit is typed to a program by `im_rules` exactly where these functions type it to that one,
/// and a node that `im_rules` calls broken has that fault here.
pub fn units_agree_law()
    ensures typed { UnitIsAsked }
    ensures asked { AskedIsUnit }
    ensures broken { BrokenIsAsked }
{}

/// `first_fault_of` decides whether `im_rules` types a unit: it is `None` exactly where it does,
/// and else a rule and the first token of a node that breaks it, by these functions and by the
/// relations of `im_rules`.
pub fn first_fault_law()
    ensures none { FaultlessIsTyped }
    ensures typed { TypedIsFaultless }
    ensures some { FirstFaultIsOne }
    ensures broken { FirstFaultIsBroken }
{}

/// By the relations of `im_rules` each unit is typed to a program or has a node that breaks a rule.
pub fn typed_or_broken_law()
    ensures either { IsTypedOrBroken }
{}

/// The sizes of types, in bytes, that `im_rules_limits` counts in a unit are exactly those that
/// these functions give.
pub fn sizes_agree_law()
    ensures sized { SizedHasSize }
    ensures given { HasSizeIsSized }
{}

/// `first_excess_of` decides whether a unit is within the limits of `im_rules_limits`: it is `None`
/// exactly where it is, and else a count that is over its limit.
pub fn first_excess_law()
    ensures exceeds { ExceedsIsExcess }
    ensures excess { ExcessExceeds }
    ensures none { NoExcessIsWithin }
    ensures within { WithinHasNoExcess }
    ensures some { FirstExcessIsOne }
    ensures small { SmallHasNoLarge }
{}

/// `first_stop_of` tells which comes first in source order, a broken rule or a size over its limit:
/// it is `None` exactly where `im_rules` types the unit and no size in it is over the limit.
pub fn first_stop_law()
    ensures none { NoStopIsRight }
    ensures right { RightHasNoStop }
    ensures broken { FirstBrokenIsOne }
    ensures large { FirstLargeIsOne }
{}
