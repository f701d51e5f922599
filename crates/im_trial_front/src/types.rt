use im_ctype::{Integer, TypeTable};
use im_trial::{Case, Stop};
use im_types::{Type, array_of, copy, id_of, pointer_to, same, size, type_from};
use std::alloc::Global;

/// A pointer to const arrays of 10 pointers to struct 3.
fn pointer_to_rows(alloc: Global) -> Result<Type, Stop> {
    let inner = pointer_to(alloc, false, Type::Struct(3))?;
    let row = array_of(alloc, inner, 10)?;
    Ok(pointer_to(alloc, true, row)?)
}

fn tell_table(alloc: Global, ty: &Type, case: &mut Case) -> Result<(), Stop> {
    let mut table = TypeTable::new(alloc);
    let id = id_of(&mut table, ty)?;
    let back = type_from(alloc, &table, id)?;
    case.say(if same(ty, &back) {
        " back"
    } else {
        " not back"
    });
    Ok(())
}

fn tell_copy(alloc: Global, ty: &Type, case: &mut Case) -> Result<(), Stop> {
    let again = copy(alloc, ty)?;
    case.say(if same(ty, &again) {
        " copied"
    } else {
        " not copied"
    });
    Ok(())
}

fn tell_type_in_table(alloc: Global, case: &mut Case) -> Result<(), Stop> {
    let ty = pointer_to_rows(alloc)?;
    tell_table(alloc, &ty, case)?;
    tell_copy(alloc, &ty, case)?;
    let is_int = same(&ty, &Type::Integer(Integer::Int));
    case.say(if is_int { " int" } else { " no int" });
    let table = TypeTable::new(alloc);
    case.show(size(&table, &Type::Integer(Integer::Short))?);
    Ok(())
}

/// Pointers to const arrays of 10 pointers to struct 3 go into a table and come back the same.
pub(crate) fn types_of_a_table(case: &mut Case) {
    if let Err(stop) = tell_type_in_table(case.alloc, case) {
        case.end(stop);
    }
}
