// A shape laid out in rows of positions.

#![tactic(auto)]

ghost use Rattle.std.specs.Prelude.{◌≡◌, ◌/◌, ◌≤◌, length};
ghost use Rattle.shapes.specs.Shape.{total, block_count};
ghost use Rattle.shapes.specs.Lent.{Whole, shape_of};
ghost use Rattle.row_lay.specs.Lay.{Lay};

use rows::LaidBlock;

// Lays a shape out, and gives the position past all blocks.
pub fn lay(shape: &[u64], layout: &mut [LaidBlock]) -> usize
    requires whole { Whole shape.now }
    requires shape_bound { block_count shape.now ≤ length layout.old }
    ensures value { result ≡ total (shape_of shape.now) }
    ensures lay { Lay (shape_of shape.now) layout.new }
{
    let mut p = 0;
    for j in 0..shape.len() / shapes::SIZE {
        let b = shapes::block_at(shape, j);
        let e = p + b.upper as usize;
        layout[j] = LaidBlock {
            zone: sets::between(p + b.lower as usize, e),
            end: sets::single(e),
            slot: sets::between(p, e),
        };
        p = e;
    }
    p
}
