// A shape's numbers: its blocks read and written, and the sum of their uppers.

#![tactic(auto)]

ghost use Rattle.std.specs.Prelude.{◌≡◌, ◌/◌, ◌≤◌, ◌<◌};
ghost use Rattle.shapes.specs.Shape.{Small, total, block_count};
ghost use Rattle.shapes.specs.Lent.{meant, block_at, shape_of, Put};

use sets::Set;

// The numbers of a block: four words of its base, lower and upper. Document 01 lends a shape as such numbers, so a shape
// is no slice of blocks.
pub const SIZE: usize = 6;

// The blocks that a shape may have.
pub const MOST: usize = 32;

// A block as the code carries it: a base, a lower and an upper.
#[derive(Clone, Copy)]
pub struct Block {
    pub base: Set,
    pub lower: u64,
    pub upper: u64,
}

// Block i, from 0, of a lent shape.
pub fn block_at(shape: &[u64], i: usize) -> Block
    requires { i < block_count shape.now }
    ensures result_value { meant result ≡ block_at shape.now i }
    ensures small { Small (meant result) }
{
    let at = i * SIZE;
    Block {
        base: Set {
            a: shape[at],
            b: shape[at + 1],
            c: shape[at + 2],
            d: shape[at + 3],
        },
        lower: shape[at + 4],
        upper: shape[at + 5],
    }
}

// Sets block i, from 0.
pub fn put_block(out: &mut [u64], i: usize, b: Block)
    requires i_bound { i < block_count out.old }
    requires small { Small (meant b) }
    ensures { Put out.old i (meant b) out.new }
{
    let at = i * SIZE;
    out[at] = b.base.a;
    out[at + 1] = b.base.b;
    out[at + 2] = b.base.c;
    out[at + 3] = b.base.d;
    out[at + 4] = b.lower;
    out[at + 5] = b.upper;
}

// The uppers added, where the sum is known to be small.
pub fn total_upper(shape: &[u64]) -> u64
    requires { total (shape_of shape.now) ≤ 8000 }
    ensures { result ≡ total (shape_of shape.now) }
{
    let n = shape.len() / SIZE;
    let mut sum = 0;
    for i in 0..n {
        sum += block_at(shape, i).upper;
    }
    sum
}
