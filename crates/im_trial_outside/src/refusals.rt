use crate::lines::{sink, tell_sent};
use im_cmd_lines::{Refusal, send_refusal_line};
use im_fault::{LineFault, Place, Quantity, SourceFault};
use im_image::{Form, ImageFault};
use im_mem_file::MemoryFault;
use im_power::TraceFault;
use im_trial::{Case, Row, Stop};

fn limit(quantity: Quantity, count: u32) -> Option<SourceFault> {
    Some(SourceFault::Limit {
        quantity,
        count: u64::from(count),
    })
}

fn in_line(line: u32, why: LineFault) -> Option<SourceFault> {
    let place = Place {
        line,
        start: 0,
        end: 0,
    };
    Some(SourceFault::Line { place, why })
}

fn source_fault_of(why: &str, number: u32, line: u32) -> Option<SourceFault> {
    match why {
        "Source" => limit(Quantity::Source, number),
        "Parameters" => limit(Quantity::Parameters, number),
        "Frame" => limit(Quantity::Frame, number),
        "Derivations" => limit(Quantity::Derivations, number),
        "Syntax" => in_line(line, LineFault::Syntax),
        "Nesting" => in_line(line, LineFault::Nesting),
        "Dimensions" => in_line(line, LineFault::Dimensions),
        "Rule" => in_line(line, LineFault::Rule(number)),
        _ => None,
    }
}

fn image_fault_of(why: &str, number: u32) -> Option<ImageFault> {
    match why {
        "Image::ShortImage" => Some(ImageFault::ShortImage(u64::from(number))),
        "Image::BadMagic" => Some(ImageFault::BadMagic),
        "Image::BadVersion" => Some(ImageFault::BadVersion(number)),
        "Image::BadField" => Some(ImageFault::BadField(number)),
        "Image::Trailing" => Some(ImageFault::Trailing(u64::from(number))),
        "Image::OutOfMemory" => Some(ImageFault::OutOfMemory),
        _ => None,
    }
}

fn trace_fault_of(why: &str, number: u32) -> Option<TraceFault> {
    match why {
        "Trace::BadLine" => Some(TraceFault::BadLine(u64::from(number))),
        "Trace::ZeroRepeat" => Some(TraceFault::ZeroRepeat(u64::from(number))),
        "Trace::TooMany" => Some(TraceFault::TooMany(u64::from(number))),
        "Trace::OutOfMemory" => Some(TraceFault::OutOfMemory),
        _ => None,
    }
}

fn memory_fault_of(why: &str, number: u32) -> Option<MemoryFault> {
    match why {
        "Memory::ShortMemory" => Some(MemoryFault::ShortMemory(u64::from(number))),
        "Memory::BadMagic" => Some(MemoryFault::BadMagic),
        "Memory::BadVersion" => Some(MemoryFault::BadVersion(number)),
        "Memory::BadForm" => Some(MemoryFault::BadForm(number)),
        "Memory::BadPages" => Some(MemoryFault::BadPages(number)),
        "Memory::BadPage" => Some(MemoryFault::BadPage(number)),
        "Memory::Trailing" => Some(MemoryFault::Trailing(u64::from(number))),
        _ => None,
    }
}

// A refusal for a fault within a source, an image, a trace or a memory.
fn faulty<'a>(name: &'a str, why: &str, number: u32, line: u32) -> Option<Refusal<'a>> {
    if let Some(fault) = source_fault_of(why, number, line) {
        return Some(Refusal::BadSource(name, fault));
    }
    if let Some(fault) = image_fault_of(why, number) {
        return Some(Refusal::NotAnImage(name, fault));
    }
    if let Some(fault) = memory_fault_of(why, number) {
        return Some(Refusal::NotAMemory(name, fault));
    }
    let fault = trace_fault_of(why, number)?;
    Some(Refusal::NotATrace(name, fault))
}

// An image `i` of one form, and a memory `m` of the other.
fn forms_differ(form: u32) -> Refusal<'static> {
    if form == 0 {
        Refusal::FormsDiffer("i", Form::OneLength, "m", Form::TwoLengths)
    } else {
        Refusal::FormsDiffer("i", Form::TwoLengths, "m", Form::OneLength)
    }
}

fn refusal_of<'a>(name: &'a str, why: &str, number: u32, line: u32) -> Option<Refusal<'a>> {
    match why {
        "CannotRead" => Some(Refusal::CannotRead(name)),
        "CannotWrite" => Some(Refusal::CannotWrite(name)),
        "InputTooLong" => Some(Refusal::InputTooLong(u64::from(number), u64::from(line))),
        "FileTooLong" => Some(Refusal::FileTooLong(name, u64::from(number))),
        "FormsDiffer" => Some(forms_differ(number)),
        "TornStores" => Some(Refusal::TornStores),
        "OutOfMemory" => Some(Refusal::OutOfMemory),
        _ => faulty(name, why, number, line),
    }
}

fn tell_refusal(refusal: &Refusal<'_>, case: &mut Case) {
    if let Some(mut sink) = sink(case) {
        let sent = send_refusal_line(&mut sink, refusal);
        tell_sent(sent, &sink, case);
    }
}

/// `refusal`, a name, a file, a cause, its number, its line: the line that tells it.
pub(crate) fn refusal(row: &Row<'_>, case: &mut Case) {
    let number = case.small(row.field(4));
    let line = case.small(row.field(5));
    match refusal_of(row.field(2), row.field(3), number, line) {
        Some(refusal) => tell_refusal(&refusal, case),
        None => case.end(Stop::Row),
    }
}
