// Places of the quick sweep: the block at one, one turned back, the later of two.

#![tactic(auto)]

ghost use Rattle.std.specs.Prelude.{◌≡◌, ◌≤◌};
ghost use Rattle.shapes.specs.Lent.{meant, shape_of};
ghost use Rattle.sweep_steps.specs.Places.{number_of, nth};
ghost use Rattle.sweep_steps.specs.Places;
ghost use Rattle.shapes.specs.Shape.{block_count};

use shapes::Block;
use sweep_steps::{BlockNumber, Offset, Place};

// Block number i of a shape, from 1.
pub fn block(s: &[u64], i: BlockNumber) -> Block
    requires { (1 ≤ i.0) × (i.0 ≤ block_count s.now) }
    ensures { meant result ≡ nth (shape_of s.now) i.0 }
{
    let at = i.0 as usize - 1;
    shapes::block_at(s, at)
}

// A place of the reversed shape y as a place of y.
pub fn forward(y: &[u64], p: Place) -> Place
    requires { 1 ≤ number_of p }
    ensures { result ≡ Places.forward (shape_of y.now) p }
{
    let m = (y.len() / shapes::SIZE) as u64;
    let j = p.block;
    if m < j.0 {
        return sweep_steps::START;
    }
    let i = BlockNumber(m + 1 - j.0);
    let t = block(y, i);
    Place {
        block: i,
        offset: Offset(t.lower.saturating_sub(p.offset.0)),
    }
}

// The later of two places: by block, then by offset. Written out, since of equal places `max` says only that they
// compare alike.
pub fn later(p: Place, q: Place) -> Place
    ensures { result ≡ Places.later p q }
{
    if p < q {
        return q;
    }
    p
}
