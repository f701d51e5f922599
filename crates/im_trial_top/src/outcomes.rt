use im_eval::{Outcome, Reason};
use im_num::Var;
use im_trial::Case;

/// Tells how an outcome ends.
pub(crate) fn tell_ending(outcome: &Outcome, case: &mut Case) {
    match outcome {
        Outcome::Undefined(why) => {
            case.say(" undefined");
            case.debug(why);
        }
        Outcome::More { output } => {
            case.say(" more fuel");
            case.bytes(output);
        }
        Outcome::End {
            reason: Reason::StackExhausted,
            ..
        } => case.say(" stack exhausted"),
        Outcome::End { status, output, .. } => {
            case.say(" returns");
            case.show(*status);
            case.bytes(output);
        }
    }
}

fn tell_variables(variables: &[Var], case: &mut Case) {
    for variable in variables {
        case.say(",");
        case.bytes(&variable.name);
        case.debug(&variable.cells);
    }
}

/// Tells all of an outcome.
pub(crate) fn tell_outcome(outcome: &Outcome, case: &mut Case) {
    if let Outcome::End {
        reason,
        status,
        output,
        variables,
    } = outcome
    {
        case.debug(reason);
        case.show(*status);
        case.bytes(output);
        tell_variables(variables, case);
    } else {
        tell_ending(outcome, case);
    }
}
