// A shape's blocks, written as sets of its positions tell of them.

#![tactic(auto)]

ghost use Rattle.std.specs.Prelude.{◌+◌, ◌/◌, ◌≤◌, length};
ghost use Rattle.shapes.specs.Shape.{Small, block_count};
ghost use Rattle.sets.specs.Set.{set_of};
ghost use Rattle.shapes.specs.Lent.{Whole, meant};
ghost use Rattle.row_blocks.specs.Blocks.{AnyLength, SomeLength, ToldBy, ToldTo};

use sets::Set;
use shapes::Block;

// The block at position p that its characters and the sets of positions tell of: its run may end early, or take all
// that the block allows.
fn told(b: Block, p: usize, chars: Set, quit: Set, moved: Set) -> Block
    requires small { Small (meant b) }
    requires upper_bound { p + b.upper ≤ 250 }
    requires any_length { AnyLength (set_of quit) (set_of moved) p (meant b) }
    ensures told_by { ToldBy (set_of chars) (set_of quit) (set_of moved) p (meant b) (meant result) }
    ensures small_2 { Small (meant result) }
{
    let base = sets::both(b.base, chars);
    let e = p + b.upper as usize;
    let early = sets::both(quit, sets::between(p, e));
    if sets::is_empty(early) {
        return Block {
            base,
            lower: b.upper,
            ..b
        };
    }
    let least = (sets::first(early) - p) as u64;
    if sets::has(moved, e - 1) {
        return Block {
            base,
            lower: least,
            ..b
        };
    }
    Block {
        base,
        lower: least,
        upper: (sets::last(early) - p) as u64,
    }
}

// Writes each block of a shape as it is told.
pub fn narrow_blocks(x: &[u64], chars: &[Set], quit: Set, moved: Set, out: &mut [u64])
    requires whole { Whole x.now }
    requires x_bound { (block_count x.now ≤ length chars.now) × (length x.now ≤ length out.old) }
    requires some_length { SomeLength (set_of quit) (set_of moved) x.now (block_count x.now) }
    ensures { ToldTo chars.now (set_of quit) (set_of moved) x.now (block_count x.now) out.old out.new }
{
    let mut p = 0;
    for i in 0..x.len() / shapes::SIZE {
        let b = shapes::block_at(x, i);
        shapes::put_block(out, i, told(b, p, chars[i], quit, moved));
        p += b.upper as usize;
    }
}
