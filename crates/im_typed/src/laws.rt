//! What holds of the meaning of every program, and of every well-typed one. Each law is a function with an empty body, whose
//! contract says it.
ghost use Rattle.std.specs.Prelude.{◌≡◌, ℕ, ◌+◌, ◌^◌, ◌<◌, ◌≤◌, List};
ghost use Rattle.im_typed.specs.Programs.{Setting, meaning, run_of_main};
ghost use Rattle.im_typed.specs.Laws.{Extends, FuelAtMost, ShowsStatics, ValuesLaw, StatementsLaw};
ghost use Rattle.im_typed.specs.Laws.{EndLaw};
ghost use Rattle.im_typed.specs.Typing.{IsWellTyped};
ghost use Rattle.im_typed.specs.Samples.{recurses, reads_struct, writes_twice};

/// More fuel never changes an end or what is undefined, and where more fuel is wanted, the output
/// so far is a prefix of the output at any greater fuel.
pub fn more_fuel_law()
    ensures { (g : Setting) (input : List ℕ) (fuel more : ℕ)
        → Extends (meaning g input fuel) (meaning g input (fuel + more)) }
{}

/// The bound of the definition's recursion is irrelevant once it is at least the fuel.
pub fn bound_law()
    ensures { (g : Setting) (input : List ℕ) (fuel bound : ℕ) → fuel ≤ bound
        → run_of_main g bound input fuel ≡ run_of_main g fuel input fuel }
{}

/// A run of main that gives a result never has more fuel left than it was given.
pub fn fuel_law()
    ensures { (g : Setting) (input : List ℕ) (fuel bound : ℕ)
        → FuelAtMost fuel (run_of_main g bound input fuel) }
{}

/// An end shows the statics of the program, each with as many values as it has cells.
pub fn statics_law()
    ensures { (g : Setting) (input : List ℕ) (fuel : ℕ)
        → ShowsStatics g.prog.statics (meaning g input fuel) }
{}

/// An expression of a well-typed program gives values of its shape, of which each number is of its
/// cell's kind, and a statement returns what its function's result asks for. Both keep the world
/// sound, and the objects that live.
pub fn values_law()
    ensures expressions { ValuesLaw }
    ensures statements { StatementsLaw }
{}

/// An end of a well-typed program has a status of 32 bits, and shows each static with a value of
/// its kind in each cell.
pub fn end_law()
    ensures { EndLaw }
{}

/// Programs with a static, a struct, pointers, a recursion and output are well typed.
pub fn well_typed_examples()
    ensures recursion { (depth stack : ℕ) → depth < 2 ^ 31
        → IsWellTyped (recurses depth stack).prog }
    ensures structs { IsWellTyped (reads_struct 2).prog }
    ensures output { IsWellTyped writes_twice.prog }
{}
