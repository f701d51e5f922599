ghost use Rattle.im_compile_dependences.specs.Laws.{ForceNames, PlaceNames, RecutNames, UncutNames};

/// Code without cuts has no dependence to name.
pub fn uncut_names_law()
    ensures { UncutNames }
{}

/// Forced cuts name accesses of their own function.
pub fn force_names_law()
    ensures { ForceNames }
{}

/// Placing keeps the accesses that are named.
pub fn place_names_law()
    ensures { PlaceNames }
{}

/// Greedy cuts name accesses of their own function.
pub fn recut_names_law()
    ensures { RecutNames }
{}
