//! Scopes of blocks (C11 6.2.1p4).
ghost use Rattle.std.specs.Prelude.{◌≡◌, length, take, MatchResult};
ghost use Rattle.im_check_stop.specs.Answers.{IsNoRule};
ghost use Rattle.im_check_statement_forms.specs.Opening.{IsOpened, with_scope};

use im_check_sites::Body;
use im_check_stop::Stop;

/// A scope is opened; the mark to which it is closed.
pub fn opened(body: &mut Body) -> Result<usize, Stop>
    ensures { MatchResult result (λ mark. IsOpened body.old body.new
        × (mark ≡ length body.old.place.scope)) IsNoRule }
{
    let mark = body.place.scope.mark();
    body.place.scope.open()?;
    Ok(mark)
}

/// The scopes are those at the mark again.
pub fn closed(mark: usize, body: &mut Body)
    ensures { body.new ≡ with_scope (take mark body.old.place.scope) body.old }
{
    body.place.scope.close(mark);
}
