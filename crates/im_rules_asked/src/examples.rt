//! What the rules ask of small units. Each example is a function with an empty body, whose contract
//! says that a unit keeps all rules, or which node of another breaks which rule first: the node is
//! told by the number of its first token.
ghost use Rattle.std.specs.Prelude.{◌≡◌, [], ◌∷◌, Some, None};
ghost use Rattle.im_rules.specs.Samples.{char_in_scope, char_sum, char_sum_term, in_a_function};
ghost use Rattle.im_rules.specs.Samples.{small_switch, small_switch_typed, small_unit};
ghost use Rattle.im_rules.specs.Samples.{small_program};
ghost use Rattle.im_rules_asked.specs.Asked.{fault};
ghost use Rattle.im_rules_asked.specs.Expressions.{term};
ghost use Rattle.im_rules_asked.specs.Statements.{statement};
ghost use Rattle.im_rules_asked.specs.Units.{Typed, first_fault_of};
ghost use Rattle.im_rules_asked.specs.DeclarationsSamples.{kept_1, broken_1, kept_2, broken_2};
ghost use Rattle.im_rules_asked.specs.DeclarationsSamples.{kept_3, broken_3, kept_4, broken_4};
ghost use Rattle.im_rules_asked.specs.DeclarationsSamples.{kept_5, broken_5, kept_6, broken_6};
ghost use Rattle.im_rules_asked.specs.DeclarationsSamples.{kept_7, broken_7, kept_8, broken_8};
ghost use Rattle.im_rules_asked.specs.DeclarationsSamples.{inner_tag, outer_tag, tag_of_enum};
ghost use Rattle.im_rules_asked.specs.UnitsSamples.{kept_9, broken_9, kept_10, broken_10, kept_11};
ghost use Rattle.im_rules_asked.specs.UnitsSamples.{broken_11, kept_12, broken_12, kept_13};
ghost use Rattle.im_rules_asked.specs.UnitsSamples.{broken_13, kept_14, broken_14, kept_15};
ghost use Rattle.im_rules_asked.specs.UnitsSamples.{broken_15, kept_16, broken_16};
ghost use Rattle.im_rules_asked.specs.OperandsSamples.{kept_17, broken_17, kept_18, broken_18};
ghost use Rattle.im_rules_asked.specs.OperandsSamples.{kept_19, broken_19, kept_20, broken_20};
ghost use Rattle.im_rules_asked.specs.OperandsSamples.{kept_21, broken_21, kept_22, broken_22};
ghost use Rattle.im_rules_asked.specs.OperandsSamples.{kept_23, broken_23, kept_24, broken_24};
ghost use Rattle.im_rules_asked.specs.OperandsSamples.{kept_25, broken_25};
ghost use Rattle.im_rules_limits.specs.Limits.{of_parameters, of_size, of_statics};
ghost use Rattle.im_rules_asked.specs.Limits.{sizes_of, excess, first_excess_of, broken, large};
ghost use Rattle.im_rules_asked.specs.Limits.{first_stop_of};
ghost use Rattle.im_rules_asked.specs.LimitsSamples.{with_parameters, with_array, with_rows};
ghost use Rattle.im_rules_asked.specs.LimitsSamples.{with_string, with_local, with_struct};
ghost use Rattle.im_rules_asked.specs.LimitsSamples.{measuring_string, large_then_broken};
ghost use Rattle.im_rules_asked.specs.LimitsSamples.{broken_then_large};
ghost use Rattle.im_rules_asked.specs.OperatorsSamples.{kept_26, broken_26, kept_27, broken_27};
ghost use Rattle.im_rules_asked.specs.OperatorsSamples.{kept_28, broken_28, kept_29, broken_29};
ghost use Rattle.im_rules_asked.specs.OperatorsSamples.{kept_30, broken_30, kept_31, broken_31};
ghost use Rattle.im_rules_asked.specs.OperatorsSamples.{kept_32, broken_32, kept_33, broken_33};
ghost use Rattle.im_rules_asked.specs.OperatorsSamples.{kept_34, broken_34};

/// The rules on declarations (C11 6.7.1 to 6.7.3, 6.7.8).
pub fn declarations_examples()
    ensures keeps_1 { first_fault_of kept_1 ≡ None }
    ensures breaks_1 { first_fault_of broken_1 ≡ Some (fault 1 0) }
    ensures keeps_2 { first_fault_of kept_2 ≡ None }
    ensures breaks_2 { first_fault_of broken_2 ≡ Some (fault 2 6) }
    ensures keeps_3 { first_fault_of kept_3 ≡ None }
    ensures breaks_3 { first_fault_of broken_3 ≡ Some (fault 3 4) }
    ensures keeps_4 { first_fault_of kept_4 ≡ None }
    ensures breaks_4 { first_fault_of broken_4 ≡ Some (fault 4 11) }
    ensures keeps_5 { first_fault_of kept_5 ≡ None }
    ensures breaks_5 { first_fault_of broken_5 ≡ Some (fault 5 2) }
    ensures keeps_6 { first_fault_of kept_6 ≡ None }
    ensures breaks_6 { first_fault_of broken_6 ≡ Some (fault 6 2) }
    ensures keeps_7 { first_fault_of kept_7 ≡ None }
    ensures breaks_7 { first_fault_of broken_7 ≡ Some (fault 7 0) }
    ensures keeps_8 { first_fault_of kept_8 ≡ None }
    ensures breaks_8 { first_fault_of broken_8 ≡ Some (fault 8 0) }
{}

/// `struct s;` alone in a block (C11 6.7.2.3p7): behind it s is incomplete there; behind the block
/// it is the outer one again; and an outer enum may have its tag.
pub fn tags_examples()
    ensures inner { first_fault_of inner_tag ≡ Some (fault 5 19) }
    ensures outer { first_fault_of outer_tag ≡ None }
    ensures of_enum { first_fault_of tag_of_enum ≡ None }
{}

/// The rules on declarators, definitions and initialisers (C11 6.7.6, 6.7.9, 6.9).
pub fn units_examples()
    ensures keeps_9 { first_fault_of kept_9 ≡ None }
    ensures breaks_9 { first_fault_of broken_9 ≡ Some (fault 9 10) }
    ensures keeps_10 { first_fault_of kept_10 ≡ None }
    ensures breaks_10 { first_fault_of broken_10 ≡ Some (fault 10 1) }
    ensures keeps_11 { first_fault_of kept_11 ≡ None }
    ensures breaks_11 { first_fault_of broken_11 ≡ Some (fault 11 1) }
    ensures keeps_12 { first_fault_of kept_12 ≡ None }
    ensures breaks_12 { first_fault_of broken_12 ≡ Some (fault 12 13) }
    ensures keeps_13 { first_fault_of kept_13 ≡ None }
    ensures breaks_13 { first_fault_of broken_13 ≡ Some (fault 13 0) }
    ensures keeps_14 { first_fault_of kept_14 ≡ None }
    ensures breaks_14 { first_fault_of broken_14 ≡ Some (fault 14 6) }
    ensures keeps_15 { first_fault_of kept_15 ≡ None }
    ensures breaks_15 { first_fault_of broken_15 ≡ Some (fault 15 5) }
    ensures keeps_16 { first_fault_of kept_16 ≡ None }
    ensures breaks_16 { first_fault_of broken_16 ≡ Some (fault 16 6) }
{}

/// The rules on names, calls, lvalues and operands of unary operators (C11 6.5.1 to 6.5.3, 6.5.16).
pub fn operands_examples()
    ensures keeps_17 { first_fault_of kept_17 ≡ None }
    ensures breaks_17 { first_fault_of broken_17 ≡ Some (fault 17 10) }
    ensures keeps_18 { first_fault_of kept_18 ≡ None }
    ensures breaks_18 { first_fault_of broken_18 ≡ Some (fault 18 7) }
    ensures keeps_19 { first_fault_of kept_19 ≡ None }
    ensures breaks_19 { first_fault_of broken_19 ≡ Some (fault 19 18) }
    ensures keeps_20 { first_fault_of kept_20 ≡ None }
    ensures breaks_20 { first_fault_of broken_20 ≡ Some (fault 20 10) }
    ensures keeps_21 { first_fault_of kept_21 ≡ None }
    ensures breaks_21 { first_fault_of broken_21 ≡ Some (fault 21 16) }
    ensures keeps_22 { first_fault_of kept_22 ≡ None }
    ensures breaks_22 { first_fault_of broken_22 ≡ Some (fault 22 6) }
    ensures keeps_23 { first_fault_of kept_23 ≡ None }
    ensures breaks_23 { first_fault_of broken_23 ≡ Some (fault 23 10) }
    ensures keeps_24 { first_fault_of kept_24 ≡ None }
    ensures breaks_24 { first_fault_of broken_24 ≡ Some (fault 24 10) }
    ensures keeps_25 { first_fault_of kept_25 ≡ None }
    ensures breaks_25 { first_fault_of broken_25 ≡ Some (fault 25 11) }
{}

/// The rules on binary operators, casts, sizes and jumps (C11 6.5.4 to 6.5.17, 6.8).
pub fn operators_examples()
    ensures keeps_26 { first_fault_of kept_26 ≡ None }
    ensures breaks_26 { first_fault_of broken_26 ≡ Some (fault 26 11) }
    ensures keeps_27 { first_fault_of kept_27 ≡ None }
    ensures breaks_27 { first_fault_of broken_27 ≡ Some (fault 27 11) }
    ensures keeps_28 { first_fault_of kept_28 ≡ None }
    ensures breaks_28 { first_fault_of broken_28 ≡ Some (fault 28 11) }
    ensures keeps_29 { first_fault_of kept_29 ≡ None }
    ensures breaks_29 { first_fault_of broken_29 ≡ Some (fault 29 11) }
    ensures keeps_30 { first_fault_of kept_30 ≡ None }
    ensures breaks_30 { first_fault_of broken_30 ≡ Some (fault 30 10) }
    ensures keeps_31 { first_fault_of kept_31 ≡ None }
    ensures breaks_31 { first_fault_of broken_31 ≡ Some (fault 31 10) }
    ensures keeps_32 { first_fault_of kept_32 ≡ None }
    ensures breaks_32 { first_fault_of broken_32 ≡ Some (fault 32 11) }
    ensures keeps_33 { first_fault_of kept_33 ≡ None }
    ensures breaks_33 { first_fault_of broken_33 ≡ Some (fault 33 7) }
    ensures keeps_34 { first_fault_of kept_34 ≡ None }
    ensures breaks_34 { first_fault_of broken_34 ≡ Some (fault 34 6) }
{}

/// The limits (parameters; bytes of a type; bytes of all statics, each with a byte behind it and in
/// whole words). Sizes count in source order: an array's where its length stands, and that of its
/// elements and its own at the object; a struct's behind those of its members.
pub fn limits_examples()
    ensures sizes { sizes_of (with_array 12) ≡ 12 ∷ 1 ∷ 12 ∷ [] }
    ensures members { sizes_of with_struct ≡ 1 ∷ 4 ∷ 8 ∷ [] }
    ensures completed { sizes_of with_string ≡ 1 ∷ 3 ∷ [] }
    ensures measured { sizes_of measuring_string ≡ 3 ∷ [] }
    ensures innermost { sizes_of (with_rows 2 1048577) ≡ 1048577 ∷ 1 ∷ 1048577 ∷ [] }
    ensures few { first_excess_of (with_parameters 8) ≡ None }
    ensures many { first_excess_of (with_parameters 9) ≡ Some (excess of_parameters 9) }
    ensures within { first_excess_of (with_array 1048575) ≡ None }
    ensures over_statics { first_excess_of (with_array 1048576) ≡ Some (excess of_statics 1048580) }
    ensures over_size { first_excess_of (with_array 1048577) ≡ Some (excess of_size 1048577) }
    ensures within_local { first_excess_of (with_local 1048576) ≡ None }
    ensures over_local { first_excess_of (with_local 1048577) ≡ Some (excess of_size 1048577) }
    ensures large_first { first_stop_of large_then_broken ≡ Some (large 1048577) }
    ensures broken_first { first_stop_of broken_then_large ≡ Some (broken (fault 10 1)) }
{}

/// With `char x;` in scope, `x + 1` is an int, and x is converted to it; `switch (x) { case 1: case
/// 2: break; default: ; }` has two cases; `int x; static int y = 3; int x; int main(void) { return
/// y; }` has two statics, of which y begins as 3.
pub fn typed_examples()
    ensures sum { term char_in_scope char_sum ≡ char_sum_term }
    ensures switch { (statement in_a_function small_switch).statement ≡ small_switch_typed }
    ensures unit { Typed small_unit small_program }
{}
