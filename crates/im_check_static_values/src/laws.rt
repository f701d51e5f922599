//! What is asked of a static's items, as the rules ask it at a place at file scope. The law is a
//! function with an empty body, whose contract says it.
ghost use Rattle.std.specs.Prelude.{ℕ, List};
ghost use Rattle.im_check_items.specs.im_rules.FileScope.{FilePlace, static_size};
ghost use Rattle.im_check_items.specs.im_rules.Initialisers.{Item};
ghost use Rattle.im_check_items.specs.im_rules.TypedUnit.{AreConstants};
ghost use Rattle.im_check_items.specs.im_rules.UnitBreaks.{RefusedItem};
ghost use Rattle.im_check_static_values.specs.Firsts.{AreConstant, RefusesItem};

/// By the bytes that statics have at a place, items are constants only where they are there, and an
/// item is refused only where it is there.
pub fn file_scope_law()
    ensures constants { (f : FilePlace) (ps : List Item)
        → AreConstant (static_size f) f.context.known ps → AreConstants f ps }
    ensures refused { (f : FilePlace) (rule token : ℕ) (ps : List Item)
        → RefusesItem (static_size f) f.context.known rule token ps
        → RefusedItem f rule token ps }
{}
