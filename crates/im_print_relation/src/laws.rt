//! Laws of printed trees: they have no body.

ghost use Rattle.std.specs.Prelude.{◌≡◌, ℕ, ◌≤◌, ◌<◌, List, All};
ghost use Rattle.im_tok.specs.declared.token.Token.{Token};
ghost use Rattle.im_lex.specs.Lexing.{Lexes};
ghost use Rattle.im_word.specs.Words.{Name, Word};
ghost use Rattle.im_ctree.specs.Tree.{Tree, Expression};
ghost use Rattle.im_ctree.specs.Grammar.{IsExpression};
ghost use Rattle.im_ctree.specs.Units.{Spells};
ghost use Rattle.im_print_relation.specs.Printed as printed;
ghost use Rattle.im_print_relation.specs.Printed.{words_of};
ghost use Rattle.im_print_relation.specs.Unnumbered as bare;
ghost use Rattle.im_print_relation.specs.Levels.{BindsAt};
ghost use Rattle.im_print_relation.specs.Fit.{AreFit};
ghost use Rattle.im_print_relation.specs.Text.{text_of, HaveWords, IsReadAs};
ghost use Rattle.im_print_relation.specs.Again.{IsSpelledAgain};

/// The printed words of a tree that words of tokens spell are words of tokens too, and they spell
/// the same tree but for the numbers of its tokens.
pub fn spelled_again_law()
    ensures { (tree : Tree) (words : List Word) → Spells tree words → AreFit words
        → IsSpelledAgain tree (words_of tree) }
{}

/// The parentheses round an expression are needed: where an expression has to stand that binds more
/// tightly than it does, its words without them derive no tree that is this one but for the numbers
/// of its tokens (C11 6.5).
pub fn needed_parentheses_law()
    ensures { (names : List Name) (p q n : ℕ) (expression again : Expression) (words : List Word)
        → IsExpression names q expression words → AreFit words → printed.binding expression < n
        → BindsAt names n p again (printed.expression names expression)
        → bare.expression again ≡ bare.expression expression → ⊥ }
{}

/// The printed text of words of tokens lexes to tokens with these words (C11 6.4): a blank goes on
/// with no token.
pub fn read_back_law()
    ensures { (words : List Word) → AreFit words → IsReadAs (text_of words) words }
{}

/// The printed text of each tree that the tokens of some text spell lexes to tokens that spell the
/// same tree, but for the numbers of its tokens.
pub fn printed_text_law()
    ensures lexes { (source : List ℕ) (tokens : List Token) (words : List Word) (tree : Tree)
        → All (λ byte. byte ≤ 255) source → Lexes source tokens → HaveWords source tokens words
        → Spells tree words → IsReadAs (text_of (words_of tree)) (words_of tree) }
    ensures spells { (source : List ℕ) (tokens : List Token) (words : List Word) (tree : Tree)
        → All (λ byte. byte ≤ 255) source → Lexes source tokens → HaveWords source tokens words
        → Spells tree words → IsSpelledAgain tree (words_of tree) }
{}
