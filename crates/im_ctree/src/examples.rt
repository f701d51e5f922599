//! Derivations of words that stand for what is peculiar to the grammar. These laws have no body.

ghost use Rattle.std.specs.Prelude.{◌≡◌, ◌∷◌, ℕ, List};
ghost use Rattle.std.specs.List.{Contains};
ghost use Rattle.im_word.specs.Words.{Name};
ghost use Rattle.im_ctree.specs.Tree as tree;
ghost use Rattle.im_ctree.specs.Grammar.{IsExpression, IsParameter};
ghost use Rattle.im_ctree.specs.Units.{IsDeclaration, IsBlock, IsStatement, Spells};
ghost use Rattle.im_ctree.specs.Typedefs.{names_behind_block};
ghost use Rattle.im_ctree.specs.Samples.{program_words, program_tree, else_words, else_tree};
ghost use Rattle.im_ctree.specs.Samples.{do_words, do_tree, sizeof_words, sizeof_type_tree};
ghost use Rattle.im_ctree.specs.Samples.{sizeof_expression_tree, cast_words, cast_tree, call_tree};
ghost use Rattle.im_ctree.specs.Samples.{parameter_words, int_specifiers, parameter_tree};
ghost use Rattle.im_ctree.specs.Samples.{scope_words, scope_tree, nothing_words, nothing_tree};
ghost use Rattle.im_ctree.specs.Samples.{grouped_words, grouped_tree, assignment_words};

/// `int main ( void ) { putchar ( 72 ) ; return 7 ; }` is a unit.
pub fn program_example()
    ensures { Spells program_tree program_words }
{}

/// In `if ( a ) if ( b ) c ; else d ;` the `else` is the inner `if`'s (C11 6.8.4.1), and `do s ;
/// while ( e ) ;` is a statement, for names that are no typedef names.
pub fn statement_examples()
    ensures else_of_inner { (names : List Name) (a b c d : Name) → (Contains names a → ⊥)
        → (Contains names b → ⊥) → (Contains names c → ⊥) → (Contains names d → ⊥)
        → IsStatement names 0 (else_tree a b c d) (else_words a b c d) }
    ensures do_while { (names : List Name) (s e : Name) → (Contains names s → ⊥)
        → (Contains names e → ⊥) → IsStatement names 0 (do_tree s e) (do_words s e) }
{}

/// `sizeof ( x )` has a type where x is a typedef name, and an expression where it is none (C11
/// 6.5.3).
pub fn sizeof_examples()
    ensures of_type { (names : List Name) (x : Name) → Contains names x
        → IsExpression names 0 (sizeof_type_tree x) (sizeof_words x) }
    ensures of_expression { (names : List Name) (x : Name) → (Contains names x → ⊥)
        → IsExpression names 0 (sizeof_expression_tree x) (sizeof_words x) }
{}

/// `( f ) ( x )` is a cast where f is a typedef name, and a call where it is none (C11 6.5.2,
/// 6.5.4).
pub fn cast_examples()
    ensures cast { (names : List Name) (f x : Name) → Contains names f → (Contains names x → ⊥)
        → IsExpression names 0 (cast_tree f x) (cast_words f x) }
    ensures call { (names : List Name) (f x : Name) → (Contains names f → ⊥)
        → (Contains names x → ⊥) → IsExpression names 0 (call_tree f x) (cast_words f x) }
{}

/// The parameter `int ( t )` is a function of a t where t is a typedef name (C11 6.7.6.3p11).
pub fn parameter_example()
    ensures { (names : List Name) (t : Name) → Contains names t
        → IsParameter names 0 int_specifiers (parameter_tree t) (parameter_words t) }
{}

/// `a = b ? c : d = e` is no expression, whatever its names are: the left side of an assignment is
/// unary (C11 6.5.16).
pub fn assignment_example()
    ensures { (names : List Name) (a b c d e : Name) (p : ℕ) (expression : tree.Expression)
        → IsExpression names p expression (assignment_words a b c d e) → ⊥ }
{}

/// In `{ typedef int t ; t x ; }` the second t is the type of x (C11 6.7.8), and t is a typedef
/// name behind the block too.
pub fn scope_example()
    ensures derived { (names : List Name) (t x : Name)
        → IsBlock names 0 (scope_tree t x) (scope_words t x) }
    ensures behind { (names : List Name) (t x : Name) → names_behind_block names (scope_tree t x)
        ≡ t ∷ names }
{}

/// `const t ;` declares nothing where t is a typedef name, and `const ( t ) ;` declares t (C11
/// 6.7p3).
pub fn declaration_examples()
    ensures nothing { (names : List Name) (t : Name) → Contains names t
        → IsDeclaration names 0 (nothing_tree t) (nothing_words t) }
    ensures grouped { (names : List Name) (t : Name)
        → IsDeclaration names 0 (grouped_tree t) (grouped_words t) }
{}
