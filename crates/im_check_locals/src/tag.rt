//! Declarations in a block that are a struct's tag alone.
ghost use Rattle.std.specs.Prelude.{◌≡◌, false, MatchOption};
ghost use Rattle.im_ctree.specs.Tree as t;
ghost use Rattle.im_ctree.specs.Shape.{init_declarators_of};
ghost use Rattle.im_ctree.specs.declared.specifier.Specifiers.{out-Specifiers};
ghost use Rattle.im_ctree_parts.specs.Lists.{list_from, specifier_in};
ghost use Rattle.im_check_locals.specs.Tags.{is_struct_tag, lone, IsOrdinary, IsAlone};

use im_ctree::{Declaration, InitDeclarator, Name, Specifier, SpecifierKind};

/// A struct's tag.
#[derive(Clone, Copy)]
pub(crate) struct LoneTag<'a> {
    /// The number of its first token.
    pub(crate) at: u32,
    pub(crate) tag: &'a Name,
}

fn struct_tag(specifier: &Specifier) -> Option<LoneTag<'_>>
    ensures { MatchOption result (is_struct_tag (specifier_in specifier.now) ≡ false)
        (λ m. specifier_in specifier.now ≡ t.struct_tag m.at m.tag.now.items) }
{
    match &specifier.kind {
        SpecifierKind::StructTag(tag) => Some(LoneTag {
            at: specifier.at,
            tag,
        }),
        _ => None,
    }
}

fn alone_among(specifiers: &[Specifier]) -> Option<LoneTag<'_>>
    ensures { MatchOption result
        ((ds : t.InitDeclarators) → IsOrdinary (list_from specifiers.now) ds)
        (λ m. list_from specifiers.now ≡ lone m.at m.tag.now.items) }
{
    if specifiers.len() != 1 {
        return None;
    }
    struct_tag(&specifiers[0])
}

fn lone_tag<'a>(specifiers: &'a [Specifier], declarators: &[InitDeclarator]) -> Option<LoneTag<'a>>
    ensures { let xs = list_from specifiers.now in let ds = init_declarators_of declarators.now in
        MatchOption result (IsOrdinary xs ds) (λ m. IsAlone m.at m.tag.now.items xs ds) }
{
    if declarators.len() != 0 {
        return None;
    }
    alone_among(specifiers)
}

/// The tag of a declaration that is `struct s;` alone (C11 6.7.2.3p7).
pub(crate) fn tag_alone(d: &Declaration) -> Option<LoneTag<'_>>
    ensures { let xs = list_from (out-Specifiers d.now.specifiers).items.items in
        let ds = init_declarators_of d.now.declarators.items in
        MatchOption result (IsOrdinary xs ds) (λ m. IsAlone m.at m.tag.now.items xs ds) }
{
    lone_tag(&d.specifiers.items, &d.declarators)
}
