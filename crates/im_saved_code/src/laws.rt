ghost use Rattle.im_saved_code.specs.Laws.{LiveCodeLaw};
ghost use Rattle.im_saved_code.specs.LinesLaws.{FunctionLinesLaw, RoutineLinesLaw};

/// At the words of a settled program's linked code registers live so that each cut saves them, and
/// the runtime is entered by cuts alone.
pub fn live_code_law()
    ensures { LiveCodeLaw }
{}

/// The lines of a function that is settled are sound, whatever stands behind them.
pub fn function_lines_law()
    ensures { FunctionLinesLaw }
{}

/// The lines of the runtime's routines are sound, and so are those that end a run.
pub fn routine_lines_law()
    ensures { RoutineLinesLaw }
{}
