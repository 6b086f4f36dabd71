// Blocks with both cases of each of their letters, and what comes of them cut with the blocks themselves.

#![tactic(auto)]

ghost use Rattle.std.specs.Prelude.{◌≤◌, length};
ghost use Rattle.shapes.specs.Shape.{block_count};
ghost use Rattle.case_blocks.specs.Code.{WidenedTo, CutTo};

use shapes::Block;

// Lays the blocks of a shape, each with both cases of its letters.
pub fn widen(x: &[u64], wide: &mut [u64])
    requires { length x.now ≤ length wide.old }
    ensures { WidenedTo x.now (block_count x.now) wide.old wide.new }
{
    for i in 0..x.len() / shapes::SIZE {
        let b = shapes::block_at(x, i);
        let w = Block {
            base: letters::both_cases(b.base),
            ..b
        };
        shapes::put_block(wide, i, w);
    }
}

// `widen` and `cut` share but the walk over the blocks, which is one line of each: a function of both is no plainer.

// Cuts the base of each block of an output with that of the shape; the output's counts stay.
pub fn cut(x: &[u64], out: &mut [u64])
    requires { length x.now ≤ length out.old }
    ensures { CutTo x.now (block_count x.now) out.old out.new }
{
    for i in 0..x.len() / shapes::SIZE {
        let b = shapes::block_at(x, i);
        let j = shapes::block_at(out, i);
        let h = Block {
            base: sets::both(b.base, j.base),
            ..j
        };
        shapes::put_block(out, i, h);
    }
}
