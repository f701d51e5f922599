use im_power::{Trace, read_trace};
use im_trial::{Case, Row, Texts};

fn tell_periods(trace: &Trace, case: &mut Case) {
    for it in trace.as_slice() {
        case.show(it.n);
        case.show(it.junk);
        case.show(it.count);
        case.show(it.mask);
        case.say(";");
    }
}

/// `periods`, a name, a text: the periods of the trace, told twice, the second time made of its
/// periods; or why it is refused.
pub(crate) fn periods(texts: &Texts, row: &Row<'_>, case: &mut Case) {
    let text = case.bytes_of(texts, row, 2);
    match read_trace(case.alloc, &text) {
        Ok(trace) => {
            tell_periods(&trace, case);
            case.say(" again");
            tell_periods(&Trace::new(trace.into_vec()), case);
        }
        Err(fault) => case.show(fault),
    }
}
