//! What holds of the definitions. Each law is a function with an empty body, whose contract says
//! it.
ghost use Rattle.std.specs.Prelude.{◌≡◌, map};
ghost use Rattle.im_ctree.specs.Tree.{SpecifierList};
ghost use Rattle.im_ctree.specs.Typedefs.{has_typedef};
ghost use Rattle.im_ctree.specs.Units.{predeclared_names};
ghost use Rattle.im_rules.specs.FileScope.{TypeName, predeclared_types};
ghost use Rattle.im_rules.specs.Rules.{is_typedef};
ghost use Rattle.im_rules.specs.Laws.{IsTypedOnce, NamesOnce, DeclaresOnce, InitialisedOnce};
ghost use Rattle.im_rules.specs.Laws.{StatementOnce, ItemsOnce, UnitOnce};
ghost use Rattle.im_rules.specs.Laws.{TypedBreaksNone, NamedBreaksNone, DeclaredBreaksNone};
ghost use Rattle.im_rules.specs.Laws.{InitialisedBreaksNone, StatementBreaksNone, ItemsBreakNone};
ghost use Rattle.im_rules.specs.Laws.{UnitBreaksNone};

/// No expression, type name, declarator, initialiser, statement, block or unit is typed to two
/// things.
pub fn typed_once_law()
    ensures expression { IsTypedOnce }
    ensures type_name { NamesOnce }
    ensures declarator { DeclaresOnce }
    ensures initialiser { InitialisedOnce }
    ensures statement { StatementOnce }
    ensures items { ItemsOnce }
    ensures unit { UnitOnce }
{}

/// What is typed has no node that breaks a rule; so what has one isn't typed.
pub fn typed_breaks_none_law()
    ensures expression { TypedBreaksNone }
    ensures type_name { NamedBreaksNone }
    ensures declarator { DeclaredBreaksNone }
    ensures initialiser { InitialisedBreaksNone }
    ensures statement { StatementBreaksNone }
    ensures items { ItemsBreakNone }
    ensures unit { UnitBreaksNone }
{}

/// The typedef names that the grammar begins with are those of the rules, and a declaration gives
/// names to types by the grammar where it does so by the rules.
pub fn typedef_names_law()
    ensures names { map {A = TypeName} (λ t. t.name) predeclared_types ≡ predeclared_names }
    ensures typedefs { (xs : SpecifierList) → has_typedef xs ≡ is_typedef xs }
{}
