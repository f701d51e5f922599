ghost use Rattle.im_forward.specs.Laws.{CostLaw, ForwardLaw, FormedLaw, OrderedLaw, PlaceableLaw};
ghost use Rattle.im_forward.specs.Laws.{RestLaw, UncutLaw, WrittenLaw};
ghost use Rattle.im_forward.specs.RegistersLaws.{RegistersLaw};

/// Code whose copies are forwarded does what the code does.
pub fn forward_law()
    ensures { ForwardLaw }
{}

/// It is ordered as before.
pub fn ordered_law()
    ensures { OrderedLaw }
{}

/// It is well formed.
pub fn formed_law()
    ensures { FormedLaw }
{}

/// No cut stands in it where none did.
pub fn uncut_law()
    ensures { UncutLaw }
{}

/// It costs no more.
pub fn cost_law()
    ensures { CostLaw }
{}

/// It is placeable.
pub fn placeable_law()
    ensures { PlaceableLaw }
{}

/// No register of it is read before it was written but those of arguments.
pub fn written_law()
    ensures { WrittenLaw }
{}

/// Its statics and what frames may need are as before, and it costs no more in all.
pub fn rest_law()
    ensures { RestLaw }
{}

/// Code whose locals are registers does what the code does wherever that is defined, and is all
/// that the passes behind ask of what lowering gives.
pub fn registers_law()
    ensures { RegistersLaw }
{
    im_promote::promote_law();
    im_promote::ordered_law();
    im_promote::formed_law();
    im_promote::placeable_law();
    im_promote::cost_law();
    im_promote::rest_law();
    crate::forward_law();
    crate::ordered_law();
    crate::formed_law();
    crate::placeable_law();
    crate::uncut_law();
    crate::cost_law();
    crate::rest_law();
}
