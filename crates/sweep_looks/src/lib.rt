// One look of the quick sweep: what push and stretch do after it.

#![tactic(auto)]

ghost use Rattle.std.specs.Prelude.{◌≡◌};
ghost use Rattle.shapes.specs.Lent.{meant};
ghost use Rattle.sweep_steps.specs.Steps.{push_look, stretch_look};

use shapes::Block;
use sweep_steps::{Offset, PushLook, StretchLook};

// What push does after a look at t from offset o, with k still sought.
pub fn push_look(s: Block, t: Block, o: Offset, k: u64) -> PushLook
    ensures { result ≡ push_look (meant s) (meant t) o.0 k }
{
    if sets::meets(s.base, t.base) {
        let room = t.upper.saturating_sub(o.0);
        if k <= room {
            return PushLook::Ends(Offset(o.0 + k));
        }
        return PushLook::GoesOn(k - room);
    }
    if o.0 < t.lower {
        return PushLook::Restarts;
    }
    PushLook::GoesOn(k)
}

// What stretch does after a look at t from offset o, with k still at hand.
pub fn stretch_look(s: Block, t: Block, o: Offset, k: u64) -> StretchLook
    ensures { result ≡ stretch_look (meant s) (meant t) o.0 k }
{
    if t.lower <= o.0 {
        return StretchLook::GoesOn(k);
    }
    if sets::meets(s.base, t.base) {
        let rest = t.lower - o.0;
        if k < rest {
            return StretchLook::Ends(Offset(o.0 + k));
        }
        return StretchLook::GoesOn(k - rest);
    }
    StretchLook::Ends(o)
}
