//! What small trees are typed to. Each example is a function with an empty body, whose contract
//! says it.
ghost use Rattle.im_rules.specs.Breaks.{Broken, an_expression};
ghost use Rattle.im_rules.specs.Samples.{char_in_scope, char_sum, char_sum_term, address_of_one};
ghost use Rattle.im_rules.specs.Samples.{small_unit, small_program};
ghost use Rattle.im_rules.specs.Typed.{Typed};
ghost use Rattle.im_rules.specs.TypedUnit.{TypedUnit};

/// With `char x;` in scope, `x + 1` is an int, and x is converted to it.
pub fn char_sum_example()
    ensures { Typed char_in_scope char_sum char_sum_term }
{}

/// `&1` breaks the rule on lvalues at its first token.
pub fn address_example()
    ensures { Broken char_in_scope (an_expression address_of_one) 22 5 }
{}

/// `int x; static int y = 3; int x; int main(void) { return y; }` has two statics, of which y
/// begins as 3.
pub fn unit_example()
    ensures { TypedUnit small_unit small_program }
{}
