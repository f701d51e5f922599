use im_fault::{LineFault, Quantity, SourceFault};
use im_trial::Case;

fn quantity_text(quantity: Quantity) -> &'static str {
    match quantity {
        Quantity::Source => " source",
        Quantity::Parameters => " parameters",
        Quantity::Size => " size",
        Quantity::Statics => " statics",
        Quantity::Frame => " frame",
        Quantity::Code => " code",
        Quantity::Derivations => " derivations",
    }
}

fn line_text(why: LineFault) -> &'static str {
    match why {
        LineFault::BadByte => " bad byte",
        LineFault::OpenComment => " open comment",
        LineFault::OpenLiteral => " open literal",
        LineFault::BadEscape => " bad escape",
        LineFault::BadNumber => " bad number",
        LineFault::BadDirective => " bad directive",
        LineFault::Syntax => " syntax",
        LineFault::Nesting => " nesting",
        LineFault::Dimensions => " dimensions",
        LineFault::Rule(_) => " rule",
    }
}

/// Tells why a source is refused.
pub(crate) fn tell_fault(fault: SourceFault, case: &mut Case) {
    match fault {
        SourceFault::Line { place, why } => {
            case.say(" line");
            case.show(place.line);
            case.say(line_text(why));
            if let LineFault::Rule(number) = why {
                case.show(number);
            }
        }
        SourceFault::Limit { quantity, count } => {
            case.say(quantity_text(quantity));
            case.show(count);
        }
        SourceFault::OutOfMemory => case.say(" no memory"),
    }
}
