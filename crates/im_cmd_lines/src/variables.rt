ghost use Rattle.std.specs.Prelude.{◌≡◌, ◌++◌, codes, decimal, map};
ghost use Rattle.std.specs.List.{flat_map};
ghost use Rattle.std.specs.Fmt.{signed_decimal};
ghost use Rattle.im_io.specs.Whole.{Sends};
ghost use Rattle.im_num.specs.Variables.{variable_of};
ghost use Rattle.im_cmd_lines.specs.Variables.{cell_text, object_name, variable_line};
ghost use Rattle.im_cmd_lines.specs.Variables.{variable_lines};

use im_image::Object;
use im_io::{Failed, Sink, send, send_pieces};
use im_num::{CellValue, Var};
use itoa::Buffer;

// The name of the object of this number; empty where there is none.
fn name_at(objects: &[Object], number: u32) -> &[u8]
    ensures { result.now ≡ object_name objects.now number }
{
    match objects.get(number as usize) {
        Some(object) => &object.name,
        None => b"",
    }
}

fn send_number<S: Sink>(sink: &mut S, number: i128) -> Result<(), Failed>
    ensures { Sends (codes " " ++ signed_decimal number) result (S.state sink.old)
        (S.state sink.new) }
{
    let mut text = Buffer::new();
    send_pieces(sink, &[b" ", text.format(number).as_bytes()])
}

fn send_place<S: Sink>(sink: &mut S, name: &[u8], offset: u32) -> Result<(), Failed>
    ensures { Sends (codes " " ++ (name.now ++ codes "+" ++ decimal offset)) result
        (S.state sink.old) (S.state sink.new) }
{
    let mut text = Buffer::new();
    send_pieces(sink, &[b" ", name, b"+", text.format(offset).as_bytes()])
}

fn send_cell<S: Sink>(sink: &mut S, objects: &[Object], cell: CellValue) -> Result<(), Failed>
    ensures { Sends (codes " " ++ cell_text objects.now cell) result (S.state sink.old)
        (S.state sink.new) }
{
    match cell {
        CellValue::Number(number) => send_number(sink, number),
        CellValue::Null => send(sink, b" null"),
        CellValue::Inside { object, offset } => send_place(sink, name_at(objects, object), offset),
        CellValue::Local => send(sink, b" local"),
        CellValue::NoValue => send(sink, b" unset"),
    }
}

fn send_cells<S: Sink>(sink: &mut S, objects: &[Object], cells: &[CellValue]) -> Result<(), Failed>
    ensures { Sends (flat_map (λ cell. codes " " ++ cell_text objects.now cell) cells.now) result
        (S.state sink.old) (S.state sink.new) }
{
    for cell in cells {
        match send_cell(sink, objects, *cell) {
            Ok(()) => {}
            Err(fault) => return Err(fault),
        }
    }
    Ok(())
}

// The name and the cells.
fn send_values<S: Sink>(sink: &mut S, objects: &[Object], variable: &Var) -> Result<(), Failed>
    ensures { Sends (codes "var " ++ (variable_of variable.now).name
        ++ flat_map (λ cell. codes " " ++ cell_text objects.now cell)
        (variable_of variable.now).cells) result (S.state sink.old) (S.state sink.new) }
{
    match send_pieces(sink, &[b"var ", &variable.name]) {
        Ok(()) => send_cells(sink, objects, &variable.cells),
        Err(fault) => Err(fault),
    }
}

fn send_variable_line<S: Sink>(
    sink: &mut S,
    objects: &[Object],
    variable: &Var,
) -> Result<(), Failed>
    ensures { Sends (variable_line objects.now (variable_of variable.now)) result (S.state sink.old)
        (S.state sink.new) }
{
    match send_values(sink, objects, variable) {
        Ok(()) => send(sink, b"\n"),
        Err(fault) => Err(fault),
    }
}

/// Sends the lines of variables: each one's name and the values of its cells. A place is told by
/// the name of its object and bytes from the object's start.
pub fn send_variable_lines<S: Sink>(
    sink: &mut S,
    objects: &[Object],
    variables: &[Var],
) -> Result<(), Failed>
    ensures { Sends (variable_lines objects.now (map variable_of variables.now)) result
        (S.state sink.old) (S.state sink.new) }
{
    for variable in variables {
        match send_variable_line(sink, objects, variable) {
            Ok(()) => {}
            Err(fault) => return Err(fault),
        }
    }
    Ok(())
}
