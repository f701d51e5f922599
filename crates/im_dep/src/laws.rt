ghost use Rattle.im_dep.specs.Spans.{CoversLaw};

/// The test of spans decides which write covers which read.
pub fn covers_law()
    ensures { CoversLaw }
{}
