use im_num::{CellValue, Var};
use im_trial::Case;

fn tell_cell(cell: CellValue, case: &mut Case) {
    match cell {
        CellValue::Number(number) => case.show(number),
        CellValue::Null => case.say(" null"),
        CellValue::Local => case.say(" local"),
        CellValue::NoValue => case.say(" unset"),
        CellValue::Inside { object, offset } => {
            case.say(" inside");
            case.show(object);
            case.show(offset);
        }
    }
}

/// Tells variables, each with its cells.
pub(crate) fn tell_vars(vars: &[Var], case: &mut Case) {
    for var in vars {
        case.say(",");
        case.bytes(&var.name);
        for cell in &var.cells {
            tell_cell(*cell, case);
        }
    }
}
