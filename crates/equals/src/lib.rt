// Exact narrowing of two shapes under equality of their texts, to the letter or but for padding at their ends.

#![tactic(auto)]

ghost use Rattle.std.specs.Prelude.{◌≤◌, length};
ghost use Rattle.texts.specs.Padding.{Padded};
ghost use Rattle.shapes.specs.Lent.{Whole};
ghost use Rattle.pairs.specs.Narrow.{NarrowAnswer};
ghost use Rattle.walks.specs.Walk.{Same};
ghost use Rattle.shapes.specs.Shape.{block_count, most_blocks, line_blocks};

// Equal once trailing blanks are dropped from both.
pub fn narrow_padded(x: &[u64], y: &[u64], out_x: &mut [u64], out_y: &mut [u64]) -> bool
    requires whole { Whole x.now × Whole y.now }
    requires x_bound { (block_count x.now ≤ most_blocks) × (block_count y.now ≤ most_blocks) }
    requires x_in_bounds { (length x.now ≤ length out_x.old) × (length y.now ≤ length out_y.old) }
    ensures { NarrowAnswer Padded x.now y.now out_x.old out_y.old out_x.new out_y.new result }
{
    equal_rooms::narrow_but(x, y, sets::single(32), out_x, out_y)
}

// Equal to the letter: no character is padding. The first shape may be a line of two, up to 64 blocks.
pub fn narrow_exact(x: &[u64], y: &[u64], out_x: &mut [u64], out_y: &mut [u64]) -> bool
    requires whole { Whole x.now × Whole y.now }
    requires x_bound { (block_count x.now ≤ line_blocks) × (block_count y.now ≤ most_blocks) }
    requires x_in_bounds { (length x.now ≤ length out_x.old) × (length y.now ≤ length out_y.old) }
    ensures { NarrowAnswer Same x.now y.now out_x.old out_y.old out_x.new out_y.new result }
{
    equal_rooms::narrow_but(x, y, sets::none(), out_x, out_y)
}
