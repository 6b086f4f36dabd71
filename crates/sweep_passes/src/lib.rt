// The sweep's two passes over all blocks: the stretches, then the pushes.

#![tactic(auto)]

ghost use Rattle.std.specs.Prelude.{◌≡◌, List, ◌++◌, ℕ, ◌*◌, ◌/◌, ◌≤◌, length, drop};
ghost use Rattle.shapes.specs.Lent.{shape_of};
ghost use Rattle.shapes.specs.Shape.{block_count, most_blocks};
ghost use Rattle.sweep_steps.specs.Places.{at};
ghost use Rattle.sweep_steps.specs.Steps.{stretches, pushes, places, numbers};
ghost use Rattle.sweep_steps.specs.declared.Place.{Place};
ghost use Rattle.sweep_passes.specs.Read.{held_in, swept_of};

use answers::Swept;
use sweep_steps::{BlockNumber, Offset, Place, Stretched};

// Stretch x's blocks, the last first, in the reversed y; keep each one's place in y. Places are kept as the output of
// the call has them, two numbers each, so that they are copied there as they stand.
pub fn stretch_all(x: &[u64], y: &[u64], kept: &mut [u64]) -> Stretched
    requires { (block_count x.now ≤ most_blocks) × (block_count y.now ≤ most_blocks) × (2 * (block_count x.now) ≤ length kept.old) }
    ensures { (result.looks ≡ (stretches (shape_of x.now) (shape_of y.now)).looks)
        × (held_in (shape_of x.now) kept.new ≡ (stretches (shape_of x.now) (shape_of y.now)).held) }
{
    let mut reached = sweep_steps::START;
    let mut looks: u64 = 0;
    for i in (0..x.len() / shapes::SIZE).rev() {
        let r = sweep_blocks::stretch(
            sweep_places::block(x, BlockNumber(i as u64 + 1)),
            y,
            reached,
        );
        reached = r.end;
        looks += r.looks;
        let p = sweep_places::forward(y, reached);
        let at = i * 2;
        kept[at] = p.block.0;
        kept[at + 1] = p.offset.0;
    }
    Stretched {
        end: reached,
        looks,
    }
}

// Push x's blocks in y, each from the later of its kept place and the end before it; keep each one's start instead.
pub fn push_all(x: &[u64], y: &[u64], kept: &mut [u64]) -> Swept
    requires { (block_count x.now ≤ most_blocks) × (block_count y.now ≤ most_blocks) × (2 * (block_count x.now) ≤ length kept.old) }
    ensures answer { result ≡ swept_of (pushes (shape_of y.now) (held_in (shape_of x.now) kept.old) (at 1 0)) }
    ensures starts { (qs : List Place) (l : ℕ) → pushes (shape_of y.now) (held_in (shape_of x.now) kept.old) (at 1 0) ≡ places qs l
        → kept.new ≡ numbers qs ++ drop (2 * (block_count x.now)) kept.old }
{
    let mut end = sweep_steps::START;
    let mut looks: u64 = 0;
    for i in 0..x.len() / shapes::SIZE {
        let at = i * 2;
        let held = Place {
            block: BlockNumber(kept[at]),
            offset: Offset(kept[at + 1]),
        };
        let r = sweep_blocks::push(
            sweep_places::block(x, BlockNumber(i as u64 + 1)),
            y,
            sweep_places::later(held, end),
        );
        looks += r.looks;
        if r.left != 0 {
            return Swept::Cannot(looks);
        }
        kept[at] = r.start.block.0;
        kept[at + 1] = r.start.offset.0;
        end = r.end;
    }
    Swept::Places(looks)
}
