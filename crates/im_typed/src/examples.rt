//! What the meaning of small programs comes to. Each law is a function with an empty body, whose
//! contract says it; the sources stand in specs/Samples.antt.
ghost use Rattle.std.specs.Prelude.{◌≡◌, ℕ, List, [], ◌∷◌, pos, negsuc, false};
ghost use Rattle.im_num.specs.declared.kind.Kind.TheVariants.{I32, U32, Ptr};
ghost use Rattle.im_store.specs.declared.operators.BinaryOp.TheVariants.{Add, Divide, Remainder};
ghost use Rattle.im_store.specs.declared.operators.BinaryOp.TheVariants.{ShiftLeft, ShiftRight};
ghost use Rattle.im_store.specs.declared.operators.Comparison.TheVariants.{Equal};
ghost use Rattle.im_store.specs.declared.undefined.Undefined.TheVariants.{UninitialisedRead};
ghost use Rattle.im_store.specs.declared.undefined.Undefined.TheVariants.{NoSuchCell};
ghost use Rattle.im_store.specs.declared.undefined.Undefined.TheVariants.{OutsideObject};
ghost use Rattle.im_store.specs.declared.undefined.Undefined.TheVariants.{UnrelatedPointers};
ghost use Rattle.im_store.specs.declared.undefined.Undefined.TheVariants.{ZeroDivisor};
ghost use Rattle.im_store.specs.declared.undefined.Undefined.TheVariants.{QuotientOverflow};
ghost use Rattle.im_store.specs.declared.undefined.Undefined.TheVariants.{ShiftCount};
ghost use Rattle.im_store.specs.declared.undefined.Undefined.TheVariants.{MissingResult};
ghost use Rattle.im_store.specs.declared.undefined.Undefined.TheVariants.{DeadPointerRead};
ghost use Rattle.im_store.specs.declared.undefined.Undefined.TheVariants.{PartialOverlap};
ghost use Rattle.im_store.specs.Outcomes.{Undef, More, End};
ghost use Rattle.im_typed.specs.Program.{Local, Target, Member, Address, Move, Compare};
ghost use Rattle.im_typed.specs.Program.{NullPointer};
ghost use Rattle.im_typed.specs.Programs.{meaning};
ghost use Rattle.im_typed.specs.Samples.{IsEnd, calls_main, initialises_nested, int, get, pointer};
ghost use Rattle.im_typed.specs.Samples.{target, first_shown, divides_by_zero, counts_within};
ghost use Rattle.im_typed.specs.Samples.{computes, signed_char_of_200, endless, reads_unset};
ghost use Rattle.im_typed.specs.Samples.{recurses, has_two_activations, reads_dead_pointer};
ghost use Rattle.im_typed.specs.Samples.{uses_dead_result, uses_missing_result, writes_twice};
ghost use Rattle.im_typed.specs.Samples.{reads_twice, compares_with_one, reads_struct};
ghost use Rattle.im_typed.specs.Samples.{reads_unset_struct, takes_part, copies_itself};
ghost use Rattle.im_typed.specs.Samples.{copies_within};
ghost use Rattle.im_typed.specs.Samples.{initialises_in_order, initialises_from_itself, switches};
ghost use Rattle.im_typed.specs.Samples.{goes_on_in_rows, subtracts, orders, orders_two_objects};
ghost use Rattle.im_typed.specs.Samples.{with_null};

/// A zero divisor is undefined (C11 6.5.5).
pub fn zero_divisor()
    ensures { (input : List ℕ) (fuel : ℕ) → meaning divides_by_zero input fuel ≡ Undef ZeroDivisor }
{}

/// Operands are evaluated from left to right, and so are their side effects.
pub fn left_to_right()
    ensures { (input : List ℕ) (fuel : ℕ) → meaning counts_within input fuel ≡ End 0 (pos 5) [] [] }
{}

/// Division truncates toward zero (C11 6.5.5).
pub fn truncation()
    ensures quotient { (input : List ℕ) (fuel : ℕ) →
        meaning (computes Divide (negsuc 6) (pos 2)) input fuel ≡ End 0 (negsuc 2) [] [] }
    ensures remainder { (input : List ℕ) (fuel : ℕ) →
        meaning (computes Remainder (negsuc 6) (pos 2)) input fuel ≡ End 0 (negsuc 0) [] [] }
{}

/// A number is taken modulo the number of its kind's values (C11 6.3.1.3), as a sum is.
pub fn wrapping()
    ensures conversion { (input : List ℕ) (fuel : ℕ) →
        meaning signed_char_of_200 input fuel ≡ End 0 (negsuc 55) [] [] }
    ensures sum { (input : List ℕ) (fuel : ℕ) →
        meaning (computes Add (pos 2147483647) (pos 1)) input fuel
        ≡ End 0 (negsuc 2147483647) [] [] }
{}

/// A right shift keeps the sign, and a count of 32 is undefined (C11 6.5.7).
pub fn shifts()
    ensures arithmetic { (input : List ℕ) (fuel : ℕ) →
        meaning (computes ShiftRight (negsuc 0) (pos 1)) input fuel ≡ End 0 (negsuc 0) [] [] }
    ensures count { (input : List ℕ) (fuel : ℕ) →
        meaning (computes ShiftLeft (pos 1) (pos 32)) input fuel ≡ Undef ShiftCount }
{}

/// The least int, divided by -1, is undefined (C11 6.5.5).
pub fn quotient_overflow()
    ensures { (input : List ℕ) (fuel : ℕ) →
        meaning (computes Divide (negsuc 2147483647) (negsuc 0)) input fuel
        ≡ Undef QuotientOverflow }
{}

/// Order is by the kind: -1 is below 1 as an int, and as an unsigned it is the greatest number
/// (C11 6.3.1.8, 6.5.8).
pub fn order_by_kind()
    ensures signed { (input : List ℕ) →
        meaning (compares_with_one I32) input 1 ≡ End 0 (pos 1) [] [] }
    ensures unsigned { (input : List ℕ) →
        meaning (compares_with_one U32) input 1 ≡ End 0 (pos 0) [] [] }
{}

/// A loop without an end wants more fuel at every fuel.
pub fn endless_loop()
    ensures { (input : List ℕ) (fuel : ℕ) → meaning endless input fuel ≡ More [] }
{}

/// A read of an uninitialised object is undefined (C11 6.3.2.1).
pub fn uninitialised_read()
    ensures { (input : List ℕ) (fuel : ℕ) →
        meaning reads_unset input fuel ≡ Undef UninitialisedRead }
{}

/// A recursion ends where the stack has just the room, and stops with reason 1 where a byte is
/// missing.
pub fn recursion()
    ensures room { (input : List ℕ) → meaning (recurses 3 72) input 4 ≡ End 0 (pos 7) [] [] }
    ensures a_byte_less { (input : List ℕ) → meaning (recurses 3 71) input 4 ≡ End 1 (pos 0) [] [] }
    ensures a_unit_of_fuel_less { (input : List ℕ) → meaning (recurses 3 72) input 3 ≡ More [] }
    ensures deep { (input : List ℕ) → meaning (recurses 100 1624) input 101 ≡ End 0 (pos 7) [] [] }
    ensures deep_and_a_byte_less { (input : List ℕ) →
        meaning (recurses 100 1623) input 101 ≡ End 1 (pos 0) [] [] }
{}

/// A recursive call of main takes fuel, as each call does; its start takes none.
pub fn recursive_main()
    ensures paid { (input : List ℕ) → IsEnd 5 (meaning calls_main input 1) }
    ensures unpaid { (input : List ℕ) → meaning calls_main input 0 ≡ More [] }
{}

/// Each activation has objects of its own (C11 6.2.4).
pub fn activations()
    ensures { (input : List ℕ) → meaning has_two_activations input 2 ≡ End 0 (pos 0) [] [] }
{}

/// A pointer to a dead object is not read, and no result that is one is used (C11 6.2.4).
pub fn dead_pointers()
    ensures read { (input : List ℕ) → meaning reads_dead_pointer input 1 ≡ Undef DeadPointerRead }
    ensures used { (input : List ℕ) → meaning uses_dead_result input 2 ≡ Undef DeadPointerRead }
{}

/// A missing result may be dropped, and not used (C11 6.9.1).
pub fn missing_result()
    ensures { (input : List ℕ) → meaning uses_missing_result input 2 ≡ Undef MissingResult }
{}

/// `getchar` answers -1 at the end of the input, and `putchar` where the output is full (C11
/// 7.21.7).
pub fn input_and_output()
    ensures full { (input : List ℕ) → meaning writes_twice input 2 ≡ End 0 (negsuc 0) (97 ∷ []) [] }
    ensures empty { meaning reads_twice [] 2 ≡ End 0 (negsuc 1000) [] [] }
    ensures one_byte { meaning reads_twice (65 ∷ []) 2 ≡ End 0 (pos 64999) [] [] }
{}

/// A struct's cells are each looked up by offset and kind: they need not be one element's. The
/// first that gives nothing decides (C11 6.5).
pub fn struct_access()
    ensures element { (input : List ℕ) (fuel : ℕ) →
        meaning (reads_struct 1) input fuel ≡ End 0 (pos 34) [] (first_shown (reads_struct 1)) }
    ensures across { (input : List ℕ) (fuel : ℕ) →
        meaning (reads_struct 2) input fuel ≡ End 0 (pos 59) [] (first_shown (reads_struct 2)) }
    ensures behind { (input : List ℕ) (fuel : ℕ) →
        meaning (reads_struct 3) input fuel ≡ Undef NoSuchCell }
    ensures outside { (input : List ℕ) (fuel : ℕ) →
        meaning (reads_struct 4) input fuel ≡ Undef OutsideObject }
    ensures unset { (input : List ℕ) (fuel : ℕ) →
        meaning reads_unset_struct input fuel ≡ Undef UninitialisedRead }
{}

/// A member of a struct that stands at no place, and a struct that is copied onto itself (C11
/// 6.5.2.3, 6.5.16.1).
pub fn struct_values()
    ensures first { (input : List ℕ) (fuel : ℕ) →
        meaning (takes_part 1) input fuel ≡ End 0 (pos 1) [] [] }
    ensures second { (input : List ℕ) (fuel : ℕ) →
        meaning (takes_part 0) input fuel ≡ End 0 (pos 3) [] [] }
    ensures itself { (input : List ℕ) (fuel : ℕ) →
        meaning copies_itself input fuel ≡ End 0 (pos 71) [] [] }
{}

/// A struct is assigned from itself, and from one that has no byte in common with it; an overlap in
/// part is undefined (C11 6.5.16.1).
pub fn struct_copies()
    ensures itself { (input : List ℕ) (fuel : ℕ) →
        meaning (copies_within 0) input fuel ≡ End 0 (pos 12) [] [] }
    ensures in_part { (input : List ℕ) (fuel : ℕ) →
        meaning (copies_within 1) input fuel ≡ Undef PartialOverlap }
    ensures apart { (input : List ℕ) (fuel : ℕ) →
        meaning (copies_within 2) input fuel ≡ End 0 (pos 34) [] [] }
{}

/// The expressions of an initialiser are stored one after another, and the cells without one are
/// zero (C11 6.7.9).
pub fn initialisers()
    ensures in_order { (input : List ℕ) (fuel : ℕ) →
        meaning initialises_in_order input fuel ≡ End 0 (pos 3021) [] [] }
    ensures nested { (input : List ℕ) (fuel : ℕ)
        → meaning initialises_nested input fuel ≡ End 0 (pos 230) [] [] }
    ensures from_itself { (input : List ℕ) (fuel : ℕ) →
        meaning initialises_from_itself input fuel ≡ End 0 (pos 1) [] [] }
{}

/// A switch goes on through the labels behind the one that it enters, up to a `break` (C11
/// 6.8.4.2).
pub fn switch_statement()
    ensures first { (input : List ℕ) (fuel : ℕ) →
        meaning (switches 1) input fuel ≡ End 0 (pos 11) [] [] }
    ensures beside { (input : List ℕ) (fuel : ℕ) →
        meaning (switches 2) input fuel ≡ End 0 (pos 11) [] [] }
    ensures later { (input : List ℕ) (fuel : ℕ) →
        meaning (switches 3) input fuel ≡ End 0 (pos 10) [] [] }
    ensures otherwise { (input : List ℕ) (fuel : ℕ) →
        meaning (switches 4) input fuel ≡ End 0 (pos 100) [] [] }
{}

/// A pointer passes from row to row of an array, as far as one past its end (C11 6.5.6).
pub fn rows()
    ensures next_row { (input : List ℕ) (fuel : ℕ) →
        meaning (goes_on_in_rows 2) input fuel ≡ End 0 (pos 3) [] [] }
    ensures past_the_end { (input : List ℕ) (fuel : ℕ) →
        meaning (goes_on_in_rows 4) input fuel ≡ Undef NoSuchCell }
    ensures outside { (input : List ℕ) (fuel : ℕ) →
        meaning (goes_on_in_rows 5) input fuel ≡ Undef OutsideObject }
{}

/// Difference and order are those of places of one object (C11 6.5.6, 6.5.8).
pub fn pointers()
    ensures difference { (input : List ℕ) (fuel : ℕ) →
        meaning (subtracts 0 3) input fuel ≡ End 0 (negsuc 2) [] [] }
    ensures less { (input : List ℕ) (fuel : ℕ) →
        meaning (orders 1 2) input fuel ≡ End 0 (pos 1) [] [] }
    ensures not_less { (input : List ℕ) (fuel : ℕ) →
        meaning (orders 2 2) input fuel ≡ End 0 (pos 0) [] [] }
    ensures two_objects { (input : List ℕ) (fuel : ℕ) →
        meaning orders_two_objects input fuel ≡ Undef UnrelatedPointers }
{}

/// `&*p` of a null p is null, `&p[0]` is arithmetic on null, and `*p` is no cell (C11 6.5.3.2).
pub fn null_pointer()
    ensures address_of_target { (input : List ℕ) (fuel : ℕ) →
        meaning (with_null (Compare Equal Ptr (Address (target 0)) (NullPointer Ptr))) input fuel
        ≡ End 0 (pos 1) [] [] }
    ensures address_of_element { (input : List ℕ) (fuel : ℕ) →
        meaning (with_null (Compare Equal Ptr
        (Address (Target (Move 4 false (pointer (Local 0)) (int 0)))) (NullPointer Ptr))) input fuel
        ≡ Undef OutsideObject }
    ensures value { (input : List ℕ) (fuel : ℕ) →
        meaning (with_null (get (target 0))) input fuel ≡ Undef NoSuchCell }
    ensures member { (input : List ℕ) (fuel : ℕ) →
        meaning (with_null (get (Member (target 0) 4))) input fuel ≡ Undef NoSuchCell }
{}
