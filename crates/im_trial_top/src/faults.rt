use im_fault::SourceFault;
use im_trial::Case;

/// Tells why a source is refused.
pub(crate) fn tell_fault(fault: SourceFault, case: &mut Case) {
    match fault {
        SourceFault::Line { place, why } => {
            case.say(" line");
            case.show(place.line);
            case.debug(&why);
        }
        SourceFault::Limit { quantity, count } => {
            case.debug(&quantity);
            case.show(count);
        }
        SourceFault::OutOfMemory => case.say(" no memory"),
    }
}
