//! What is printed, by an example.

ghost use Rattle.std.specs.Prelude.{◌≡◌, [], ◌∷◌, ◌++◌, codes};
ghost use Rattle.im_ctree.specs.Samples.{program_tree};
ghost use Rattle.im_print_relation.specs.Printed.{words_of};
ghost use Rattle.im_print_relation.specs.Text.{text_of};

/// The program that writes an H and returns 7 is printed as one line, with a blank between two
/// tokens.
pub fn program_text_example()
    ensures { text_of (words_of program_tree)
        ≡ codes "int main ( void ) { putchar ( 72 ) ; return 7 ; }" ++ (10 ∷ []) }
{}
