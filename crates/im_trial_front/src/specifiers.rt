use im_check_name_map::TagList;
use im_check_scopes::{Entity, Scope};
use im_check_stop::Stop as CheckStop;
use im_check_type_specifiers::{Qualified, declare_alone, mention, specified_type, type_at_file};
use im_ctree::{Specifier, SpecifierKind, SpecifierWord};
use im_ctype::Integer;
use im_trial::{Case, Stop};
use im_types::{Type, is_pointer, pointer_to, same};
use std::alloc::Global;

fn word(at: u32, word: SpecifierWord) -> Specifier {
    Specifier {
        at,
        kind: SpecifierKind::Word(word),
    }
}

/// The name `text` of `typedef char *text;`.
fn scope_of(alloc: Global) -> Result<Scope, Stop> {
    let mut scope = Scope::new(alloc);
    let text = pointer_to(alloc, false, Type::Integer(Integer::Char))?;
    let name = Vec::from_slice(alloc, b"text")?;
    match scope.declare(alloc, name, Entity::Typedef(false, text)) {
        Ok(_) => Ok(scope),
        Err(_) => Err(Stop::Memory),
    }
}

fn type_text(ty: &Type) -> &'static str {
    if is_pointer(ty) {
        " a pointer"
    } else if same(ty, &Type::Integer(Integer::UnsignedLong)) {
        " unsigned long"
    } else if same(ty, &Type::Struct(0)) {
        " struct 0"
    } else {
        " another type"
    }
}

fn tell_type(found: &Result<Qualified, CheckStop>, case: &mut Case) {
    match found {
        Ok(q) => {
            case.say(if q.constant { " const" } else { " plain" });
            case.say(type_text(&q.ty));
        }
        Err(CheckStop::Rule { number, token }) => {
            case.say(" rule");
            case.show(*number);
            case.say(" at");
            case.show(*token);
        }
        Err(_) => case.say(" otherwise"),
    }
}

/// `unsigned const long`
fn tell_long(scope: &Scope, lists: &TagList, case: &mut Case) {
    let long = [
        word(0, SpecifierWord::Unsigned),
        word(1, SpecifierWord::Const),
        word(2, SpecifierWord::Long),
    ];
    let found = specified_type(case.alloc, scope, lists, 0, &long);
    tell_type(&found, case);
}

/// `text`
fn tell_named(scope: &Scope, lists: &TagList, case: &mut Case) -> Result<(), Stop> {
    let name = Vec::from_slice(case.alloc, b"text")?;
    let named = [Specifier {
        at: 3,
        kind: SpecifierKind::TypedefName(name),
    }];
    let found = specified_type(case.alloc, scope, lists, 3, &named);
    tell_type(&found, case);
    Ok(())
}

/// `const struct list`
fn tell_tagged(scope: &mut Scope, lists: &TagList, case: &mut Case) -> Result<(), Stop> {
    let alloc = case.alloc;
    let tag = Vec::from_slice(alloc, b"list")?;
    let tagged = [
        word(4, SpecifierWord::Const),
        Specifier {
            at: 5,
            kind: SpecifierKind::StructTag(tag),
        },
    ];
    if mention(alloc, scope, lists, &tagged).is_err() {
        return Err(Stop::Memory);
    }
    let found = specified_type(alloc, scope, lists, 4, &tagged);
    tell_type(&found, case);
    Ok(())
}

/// `struct list;` in a block, and `struct list` behind it.
fn tell_lone(scope: &mut Scope, lists: &TagList, case: &mut Case) -> Result<(), Stop> {
    let alloc = case.alloc;
    let tag = Vec::from_slice(alloc, b"list")?;
    let tagged = [Specifier {
        at: 12,
        kind: SpecifierKind::StructTag(tag),
    }];
    scope.open()?;
    if declare_alone(alloc, scope, lists, 9, 9, b"list").is_err() {
        return Err(Stop::Memory);
    }
    let found = specified_type(alloc, scope, lists, 12, &tagged);
    tell_type(&found, case);
    Ok(())
}

/// `static int`, at file scope and in a block.
fn tell_stored(scope: &Scope, lists: &TagList, case: &mut Case) {
    let alloc = case.alloc;
    let stored = [word(7, SpecifierWord::Static), word(8, SpecifierWord::Int)];
    let at_file = type_at_file(alloc, scope, lists, 7, &stored).is_ok();
    case.say(if at_file { " at file" } else { " not at file" });
    let found = specified_type(alloc, scope, lists, 7, &stored);
    tell_type(&found, case);
}

fn tell_specifiers(alloc: Global, case: &mut Case) -> Result<(), Stop> {
    let mut lists = TagList::new(alloc);
    lists.push(alloc, b"list")?;
    let mut scope = scope_of(alloc)?;
    tell_long(&scope, &lists, case);
    tell_named(&scope, &lists, case)?;
    tell_tagged(&mut scope, &lists, case)?;
    tell_stored(&scope, &lists, case);
    tell_lone(&mut scope, &lists, case)?;
    Ok(())
}

/// The types of `unsigned const long`, of `text`, of `const struct list`, of the words `static
/// int`, and of `struct list` behind `struct list;` in a block.
pub(crate) fn specifiers(case: &mut Case) {
    if let Err(stop) = tell_specifiers(case.alloc, case) {
        case.end(stop);
    }
}
