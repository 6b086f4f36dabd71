// Narrowing under equality but for padding: the room for it, by the sizes of the two shapes.

#![tactic(auto)]

ghost use Rattle.std.specs.Prelude.{◌≤◌, ◌<◌, length};
ghost use Rattle.sets.specs.Set.{set_of};
ghost use Rattle.shapes.specs.Lent.{Whole, shape_of};
ghost use Rattle.shapes.specs.Shape.{total, block_count, most_blocks, line_blocks};
ghost use Rattle.pairs.specs.Narrow.{NarrowAnswer};
ghost use Rattle.pads.specs.But.{But};

use sets::Set;

// So many blocks fit into the small room.
const SMALL: usize = 8;

// In room for x of LINE blocks with fewer than PLACES characters and y of BLOCKS blocks, which is cleared at each call.
fn narrow_in<const LINE: usize, const BLOCKS: usize, const PLACES: usize>(
    x: &[u64],
    y: &[u64],
    pad: Set,
    out_x: &mut [u64],
    out_y: &mut [u64],
) -> bool
    requires whole { Whole x.now × Whole y.now }
    requires room_bound { (LINE ≤ line_blocks) × (BLOCKS ≤ most_blocks) × (PLACES ≤ 251) }
    requires x_bound { (block_count x.now ≤ LINE) × (block_count y.now ≤ BLOCKS) × (total (shape_of x.now) < PLACES) }
    requires x_in_bounds { (length x.now ≤ length out_x.old) × (length y.now ≤ length out_y.old) }
    ensures { NarrowAnswer (But (set_of pad)) x.now y.now out_x.old out_y.old out_x.new out_y.new result }
{
    let mut layout = rows::blank_layout::<BLOCKS>();
    let mut mines = rows::blank::<LINE>();
    let mut rows = rows::blank::<PLACES>();
    let mut own = rows::blank::<LINE>();
    let mut others = rows::blank::<BLOCKS>();
    equal_rows::narrow_rows(
        x,
        y,
        pad,
        &mut layout,
        &mut mines,
        &mut rows,
        &mut own,
        &mut others,
        out_x,
        out_y,
    )
}

// Narrows two shapes, x of at most 64 blocks and y of at most 32, under equality but for padding. Short ones of at most
// 8 blocks each have a quarter of the room to clear.
pub fn narrow_but(x: &[u64], y: &[u64], pad: Set, out_x: &mut [u64], out_y: &mut [u64]) -> bool
    requires whole { Whole x.now × Whole y.now }
    requires x_bound { (block_count x.now ≤ line_blocks) × (block_count y.now ≤ most_blocks) }
    requires x_in_bounds { (length x.now ≤ length out_x.old) × (length y.now ≤ length out_y.old) }
    ensures { NarrowAnswer (But (set_of pad)) x.now y.now out_x.old out_y.old out_x.new out_y.new result }
{
    if x.len() <= SMALL * shapes::SIZE
        && y.len() <= SMALL * shapes::SIZE
        && shapes::total_upper(x) < 64
    {
        return narrow_in::<SMALL, SMALL, 64>(x, y, pad, out_x, out_y);
    }
    narrow_in::<64, { rows::LAYOUT }, { rows::TABLE }>(x, y, pad, out_x, out_y)
}
