//! Laws of the grammar: they have no body.

ghost use Rattle.std.specs.Prelude.{◌≡◌, ℕ, ◌<◌, Bool, List, [], ◌++◌, length};
ghost use Rattle.im_word.specs.Words.{Name, Word};
ghost use Rattle.im_ctree.specs.Tree as tree;
ghost use Rattle.im_ctree.specs.Grammar.{IsExpression, IsAssignment, IsConditional, IsBinary};
ghost use Rattle.im_ctree.specs.Grammar.{IsCast, IsUnary, IsPostfix, IsPrimary, IsSpecifiers};
ghost use Rattle.im_ctree.specs.Grammar.{IsDeclarator, IsParameter, IsTypeName};
ghost use Rattle.im_ctree.specs.Units.{IsDeclaration, IsStatement, IsUnit, Spells, IsFront};

/// Every derivation of a unit has a word.
pub fn unit_nonempty_law()
    ensures { (names : List Name) (p : ℕ) (unit : tree.Tree) (words : List Word)
        → IsUnit names p unit words → 0 < length words }
{}

/// The words that a tree spells are a viable prefix, and so is each beginning of them.
pub fn fronts_are_prefixes_law()
    ensures whole { (unit : tree.Tree) (words : List Word) → Spells unit words → IsFront words }
    ensures part { (front rest : List Word) → IsFront (front ++ rest) → IsFront front }
{}

/// Words have at most one derivation as an expression, at each level of the grammar (C11 6.5).
pub fn unique_expression_law()
    ensures expression { (names : List Name) (p : ℕ) (expression other : tree.Expression)
        (words : List Word) → IsExpression names p expression words
        → IsExpression names p other words → expression ≡ other }
    ensures assignment { (names : List Name) (p : ℕ) (expression other : tree.Expression)
        (words : List Word) → IsAssignment names p expression words
        → IsAssignment names p other words → expression ≡ other }
    ensures conditional { (names : List Name) (p : ℕ) (expression other : tree.Expression)
        (words : List Word) → IsConditional names p expression words
        → IsConditional names p other words → expression ≡ other }
    ensures binary { (names : List Name) (level : ℕ) (p : ℕ) (expression other : tree.Expression)
        (words : List Word) → IsBinary names level p expression words
        → IsBinary names level p other words → expression ≡ other }
    ensures cast { (names : List Name) (p : ℕ) (expression other : tree.Expression)
        (words : List Word) → IsCast names p expression words → IsCast names p other words
        → expression ≡ other }
    ensures unary { (names : List Name) (p : ℕ) (expression other : tree.Expression)
        (words : List Word) → IsUnary names p expression words → IsUnary names p other words
        → expression ≡ other }
    ensures postfix { (names : List Name) (p : ℕ) (expression other : tree.Expression)
        (words : List Word) → IsPostfix names p expression words → IsPostfix names p other words
        → expression ≡ other }
    ensures primary { (names : List Name) (p : ℕ) (expression other : tree.Expression)
        (words : List Word) → IsPrimary names p expression words → IsPrimary names p other words
        → expression ≡ other }
{}

/// Words have at most one derivation as specifiers, as a declarator, as a parameter and as a type
/// name (C11 6.7).
pub fn unique_declarator_law()
    ensures specifiers { (names : List Name) (p : ℕ) (specifiers other : tree.Specifiers)
        (words : List Word) → IsSpecifiers names p specifiers words
        → IsSpecifiers names p other words → specifiers ≡ other }
    ensures declarator { (names : List Name) (guarded other_guarded : Bool) (p : ℕ)
        (declarator other : tree.Declarator) (words : List Word)
        → IsDeclarator names guarded p declarator words
        → IsDeclarator names other_guarded p other words → declarator ≡ other }
    ensures parameter { (names : List Name) (p : ℕ) (specifiers other_specifiers : tree.Specifiers)
        (declarator other_declarator : tree.MaybeDeclarator) (words : List Word)
        → IsParameter names p specifiers declarator words
        → IsParameter names p other_specifiers other_declarator words
        → (specifiers ≡ other_specifiers) × (declarator ≡ other_declarator) }
    ensures type_name { (names : List Name) (p : ℕ) (type_name other : tree.TypeName)
        (words : List Word) → IsTypeName names p type_name words → IsTypeName names p other words
        → type_name ≡ other }
{}

/// Words have at most one derivation as a declaration and as a statement, and a text spells at most
/// one tree: the grammar is unambiguous (C11 6.7 to 6.9).
pub fn unique_unit_law()
    ensures declaration { (names : List Name) (p : ℕ) (declaration other : tree.Declaration)
        (words : List Word) → IsDeclaration names p declaration words
        → IsDeclaration names p other words → declaration ≡ other }
    ensures statement { (names : List Name) (p : ℕ) (statement other : tree.Statement)
        (words : List Word) → IsStatement names p statement words → IsStatement names p other words
        → statement ≡ other }
    ensures spelled { (unit other : tree.Tree) (words : List Word) → Spells unit words
        → Spells other words → unit ≡ other }
{}
