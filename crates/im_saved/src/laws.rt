ghost use Rattle.im_saved.specs.Laws.{LiveLaw};

/// Where registers live at words so that each cut saves them, and the runtime is entered by cuts
/// alone, a run uses only saved registers behind its cuts.
pub fn live_law()
    ensures { LiveLaw }
{}
