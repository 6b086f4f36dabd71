// Exact narrowing of two shapes under equality in which letters of either case are the same.

#![tactic(auto)]

ghost use Rattle.std.specs.Prelude.{◌≤◌, length};
ghost use Rattle.shapes.specs.Lent.{Whole};
ghost use Rattle.texts.specs.Case.{AnyCase};
ghost use Rattle.pairs.specs.Narrow.{NarrowAnswer};
ghost use Rattle.shapes.specs.Shape.{block_count, most_blocks};

// Both shapes with both cases of each letter are narrowed to the letter, and what is left of each is cut with the
// shape.
pub fn narrow_any_case(x: &[u64], y: &[u64], out_x: &mut [u64], out_y: &mut [u64]) -> bool
    requires whole { Whole x.now × Whole y.now }
    requires x_bound { (block_count x.now ≤ most_blocks) × (block_count y.now ≤ most_blocks) }
    requires x_in_bounds { (length x.now ≤ length out_x.old) × (length y.now ≤ length out_y.old) }
    ensures { NarrowAnswer AnyCase x.now y.now out_x.old out_y.old out_x.new out_y.new result }
{
    let n = x.len();
    let m = y.len();
    let mut wide_x = [0u64; shapes::MOST * shapes::SIZE];
    let mut wide_y = [0u64; shapes::MOST * shapes::SIZE];
    case_blocks::widen(x, &mut wide_x);
    case_blocks::widen(y, &mut wide_y);
    if !equals::narrow_exact(&wide_x[..n], &wide_y[..m], out_x, out_y) {
        return false;
    }
    case_blocks::cut(x, out_x);
    case_blocks::cut(y, out_y);
    true
}
