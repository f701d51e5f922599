ghost use Rattle.std.specs.Prelude.{◌≡◌, Some, None};
ghost use Rattle.im_ctree.specs.Tree as t;
ghost use Rattle.im_ctree.specs.Shape.{specifiers_of, declarator_of, type_name_of};
ghost use Rattle.im_ctree.specs.Shape.{optional_expression_of, initializer_of};
ghost use Rattle.im_parse_expression.specs.Initializing.{initializers_tree};
ghost use Rattle.im_parse_expression.specs.Declaring.{Makes, specifier_tree, specifier_list};
ghost use Rattle.im_parse_expression.specs.Declaring.{member_tree, members_tree, declarators_tree};
ghost use Rattle.im_parse_expression.specs.Declaring.{enumerator_tree, enumerators_tree};
ghost use Rattle.im_parse_expression.specs.Declaring.{stars_tree, suffix_tree, suffixes_tree};
ghost use Rattle.im_parse_expression.specs.Declaring.{one_array, one_function, parameter_tree};
ghost use Rattle.im_parse_expression.specs.Declaring.{parameters_tree, maybe_tree};

use im_ctree::{
    Core, Declarator, Enumerator, Expression, Initializer, Member, Parameter, Specifier,
    SpecifierKind, Specifiers, Star, Suffix, SuffixKind, TypeName,
};
use im_parse_core::Stop;
use std::alloc::Global;

pub fn specifiers(at: u32, mut items: Vec<Specifier>) -> Specifiers
    ensures { specifiers_of result ≡ t.specifiers at (specifier_list items) }
{
    items.shrink_to_fit();
    Specifiers { at, items }
}

pub fn typedef_name(alloc: Global, at: u32, name: &[u8]) -> Result<Specifier, Stop>
    ensures { Makes specifier_tree result (t.typedef_specifier at name.now) }
{
    let kind = SpecifierKind::TypedefName(Vec::from_slice(alloc, name)?);
    Ok(Specifier { at, kind })
}

pub fn struct_tag(alloc: Global, at: u32, name: &[u8]) -> Result<Specifier, Stop>
    ensures { Makes specifier_tree result (t.struct_tag at name.now) }
{
    let kind = SpecifierKind::StructTag(Vec::from_slice(alloc, name)?);
    Ok(Specifier { at, kind })
}

pub fn enum_tag(alloc: Global, at: u32, name: &[u8]) -> Result<Specifier, Stop>
    ensures { Makes specifier_tree result (t.enum_tag at name.now) }
{
    let kind = SpecifierKind::EnumTag(Vec::from_slice(alloc, name)?);
    Ok(Specifier { at, kind })
}

pub fn struct_specifier(at: u32, members: Vec<Member>) -> Specifier
    ensures { specifier_tree result ≡ t.struct_specifier at None (members_tree members) }
{
    let kind = SpecifierKind::Struct(None, members);
    Specifier { at, kind }
}

pub fn named_struct(
    alloc: Global,
    at: u32,
    name: &[u8],
    members: Vec<Member>,
) -> Result<Specifier, Stop>
    ensures { Makes specifier_tree result
        (t.struct_specifier at (Some name.now) (members_tree members)) }
{
    let tag = Vec::from_slice(alloc, name)?;
    let kind = SpecifierKind::Struct(Some(tag), members);
    Ok(Specifier { at, kind })
}

pub fn enum_specifier(at: u32, enumerators: Vec<Enumerator>) -> Specifier
    ensures { specifier_tree result ≡ t.enum_specifier at None (enumerators_tree enumerators) }
{
    let kind = SpecifierKind::Enum(None, enumerators);
    Specifier { at, kind }
}

pub fn named_enum(
    alloc: Global,
    at: u32,
    name: &[u8],
    enumerators: Vec<Enumerator>,
) -> Result<Specifier, Stop>
    ensures { Makes specifier_tree result
        (t.enum_specifier at (Some name.now) (enumerators_tree enumerators)) }
{
    let tag = Vec::from_slice(alloc, name)?;
    let kind = SpecifierKind::Enum(Some(tag), enumerators);
    Ok(Specifier { at, kind })
}

pub fn member(specifiers: Specifiers, declarators: Vec<Declarator>) -> Member
    ensures { member_tree result ≡ (specifiers_of specifiers, declarators_tree declarators) }
{
    Member {
        specifiers,
        declarators,
    }
}

pub fn enumerator(alloc: Global, at: u32, name: &[u8]) -> Result<Enumerator, Stop>
    ensures { Makes enumerator_tree result (at, name.now, t.no_expression) }
{
    let name = Vec::from_slice(alloc, name)?;
    Ok(Enumerator {
        at,
        name,
        value: None,
    })
}

pub fn valued_enumerator(
    alloc: Global,
    at: u32,
    name: &[u8],
    value: Expression,
) -> Result<Enumerator, Stop>
    ensures { Makes enumerator_tree result (at, name.now, optional_expression_of (Some value)) }
{
    let name = Vec::from_slice(alloc, name)?;
    let value = Some(Box::new(alloc, value)?);
    Ok(Enumerator { at, name, value })
}

pub fn named(
    alloc: Global,
    at: u32,
    stars: Vec<Star>,
    name: &[u8],
    mut suffixes: Vec<Suffix>,
) -> Result<Declarator, Stop>
    ensures { Makes declarator_of result
        (t.declarator at (stars_tree stars) (t.name_core name.now) (suffixes_tree suffixes)) }
{
    let core = Core::Name(Vec::from_slice(alloc, name)?);
    suffixes.shrink_to_fit();
    Ok(Declarator {
        at,
        stars,
        core,
        suffixes,
    })
}

pub fn nameless(at: u32, stars: Vec<Star>, suffixes: Vec<Suffix>) -> Declarator
    ensures { declarator_of result ≡ t.declarator at (stars_tree stars) t.absent_core
        (suffixes_tree suffixes) }
{
    Declarator {
        at,
        stars,
        core: Core::Absent,
        suffixes,
    }
}

pub fn array(at: u32) -> Suffix
    ensures { suffix_tree result ≡ one_array at t.no_expression }
{
    let kind = SuffixKind::Array(None);
    Suffix { at, kind }
}

pub fn sized_array(alloc: Global, at: u32, length: Expression) -> Result<Suffix, Stop>
    ensures { Makes suffix_tree result (one_array at (optional_expression_of (Some length))) }
{
    let kind = SuffixKind::Array(Some(Box::new(alloc, length)?));
    Ok(Suffix { at, kind })
}

pub fn function(at: u32, mut parameters: Vec<Parameter>) -> Suffix
    ensures { suffix_tree result ≡ one_function at (parameters_tree parameters) }
{
    parameters.shrink_to_fit();
    let kind = SuffixKind::Function(parameters);
    Suffix { at, kind }
}

pub fn parameter(
    alloc: Global,
    specifiers: Specifiers,
    declarator: Option<Declarator>,
) -> Result<Parameter, Stop>
    ensures { Makes parameter_tree result (specifiers_of specifiers, maybe_tree declarator) }
{
    let declarator = match declarator {
        None => None,
        Some(declarator) => Some(Box::new(alloc, declarator)?),
    };
    Ok(Parameter {
        specifiers,
        declarator,
    })
}

pub fn type_name(
    alloc: Global,
    specifiers: Specifiers,
    declarator: Option<Declarator>,
) -> Result<TypeName, Stop>
    ensures { Makes type_name_of result
        (t.type_name (specifiers_of specifiers) (maybe_tree declarator)) }
{
    let declarator = match declarator {
        None => None,
        Some(declarator) => Some(Box::new(alloc, declarator)?),
    };
    Ok(TypeName {
        specifiers,
        declarator,
    })
}

pub fn braced(at: u32, mut items: Vec<Initializer>) -> Initializer
    ensures { initializer_of result ≡ t.braced_initializer at (initializers_tree items) }
{
    items.shrink_to_fit();
    Initializer::List(at, items)
}
