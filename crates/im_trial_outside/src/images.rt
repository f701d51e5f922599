use crate::lines::{sink, sink_with, tell_sent};
use im_cmd_lines::{send_dump_lines, send_variable_lines};
use im_image::{Image, read_image};
use im_num::{CellValue, Var};
use im_trial::{Case, Row, Stop, Texts};
use std::alloc::Global;

fn image_of(text: &[u8], case: &mut Case) -> Option<Image> {
    match read_image(case.alloc, text) {
        Ok(image) => Some(image),
        Err(_) => {
            case.end(Stop::Row);
            None
        }
    }
}

/// `dump`, a name, an image, the write that fails or 0, the room: its lines, and how many writes
/// were refused.
pub(crate) fn dump(texts: &Texts, row: &Row<'_>, case: &mut Case) {
    let text = case.bytes_of(texts, row, 2);
    let failing = case.small(row.field(3));
    let room = case.small(row.field(4));
    let Some(mut sink) = sink_with(room, failing, case) else {
        return;
    };
    if let Some(image) = image_of(&text, case) {
        let sent = send_dump_lines(&mut sink, &image);
        tell_sent(sent, &sink, case);
        case.show(sink.faults());
    }
}

fn inside_of(object: &str, offset: &str) -> Result<CellValue, Stop> {
    let object = object.parse::<u32>().map_err(|_| Stop::Row)?;
    let offset = offset.parse::<u32>().map_err(|_| Stop::Row)?;
    Ok(CellValue::Inside { object, offset })
}

fn cell_of(text: &str) -> Result<CellValue, Stop> {
    if let Some((object, offset)) = text.split_once('+') {
        return inside_of(object, offset);
    }
    match text {
        "null" => Ok(CellValue::Null),
        "local" => Ok(CellValue::Local),
        "unset" => Ok(CellValue::NoValue),
        _ => {
            let number = text.parse::<i64>().map_err(|_| Stop::Row)?;
            Ok(CellValue::Number(i128::from(number)))
        }
    }
}

fn cells_of(alloc: Global, text: &str) -> Result<Vec<CellValue>, Stop> {
    let mut cells = Vec::new(alloc);
    for cell in text.split(' ') {
        cells.push(cell_of(cell)?)?;
    }
    Ok(cells)
}

// A variable: its name, and its cells.
fn variable_of(alloc: Global, text: &str) -> Result<Var, Stop> {
    let (name, rest) = text.split_once(' ').ok_or(Stop::Row)?;
    let cells = cells_of(alloc, rest)?;
    let name = Vec::from_slice(alloc, name.as_bytes())?;
    Ok(Var { name, cells })
}

// Variables, with `,` between two.
fn variables_of(alloc: Global, text: &str) -> Result<Vec<Var>, Stop> {
    let mut variables = Vec::new(alloc);
    for words in text.split(',') {
        variables.push(variable_of(alloc, words)?)?;
    }
    Ok(variables)
}

fn tell_variables(text: &[u8], variables: &[Var], case: &mut Case) {
    let Some(mut sink) = sink(case) else {
        return;
    };
    if let Some(image) = image_of(text, case) {
        let sent = send_variable_lines(&mut sink, &image.objects, variables);
        tell_sent(sent, &sink, case);
    }
}

/// `variable-lines`, a name, an image, variables.
pub(crate) fn variable_lines(texts: &Texts, row: &Row<'_>, case: &mut Case) {
    let text = case.bytes_of(texts, row, 2);
    let made = variables_of(case.alloc, row.field(3));
    if let Some(variables) = case.take(made) {
        tell_variables(&text, &variables, case);
    }
}
