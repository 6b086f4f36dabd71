// The line that two shapes make: laid, narrowed against a third shape, and cut again.

#![tactic(auto)]

ghost use Rattle.std.specs.Prelude.{◌≡◌, ◌++◌, ◌+◌, ◌≤◌, length, take, drop};
ghost use Rattle.shapes.specs.Lent.{Whole};
ghost use Rattle.walks.specs.Walk.{Same};
ghost use Rattle.pairs.specs.Narrow.{NarrowAnswer};
ghost use Rattle.laying.specs.Laid.{replaced};
ghost use Rattle.shapes.specs.Shape.{block_count, most_blocks, line_blocks};

// Lays the line that y and z make: the numbers of y, and those of z behind them. Gives its length.
pub fn lay_line(y: &[u64], z: &[u64], line: &mut [u64]) -> usize
    requires { length y.now + length z.now ≤ length line.old }
    ensures value { result ≡ length y.now + length z.now }
    ensures line_after { take result line.new ≡ y.now ++ z.now }
{
    let n = y.len();
    laying::lay(line, 0, y);
    laying::lay(line, n, z);
    n + z.len()
}

// Lays the first n numbers of a line over the one output, and the others over the other.
pub fn lay_parts(line: &[u64], n: usize, out_y: &mut [u64], out_z: &mut [u64])
    requires { (n ≤ length line.now) × (n ≤ length out_y.old) × (length line.now ≤ n + length out_z.old) }
    ensures out_y_after { out_y.new ≡ replaced 0 (take n line.now) out_y.old }
    ensures out_z_after { out_z.new ≡ replaced 0 (drop n line.now) out_z.old }
{
    laying::lay(out_y, 0, &line[..n]);
    laying::lay(out_z, 0, &line[n..]);
}

// Narrows the line against x, under equality. The one of fewer blocks stands second, since each block of the
// first is held against all its blocks; the line may have 64.
pub fn narrow_line(line: &[u64], x: &[u64], new: &mut [u64], out_x: &mut [u64]) -> bool
    requires whole { Whole line.now × Whole x.now }
    requires line_bound { (block_count line.now ≤ line_blocks) × (block_count x.now ≤ most_blocks) }
    requires line_in_bounds { (length line.now ≤ length new.old) × (length x.now ≤ length out_x.old) }
    ensures { NarrowAnswer Same line.now x.now new.old out_x.old new.new out_x.new result }
{
    if line.len() < x.len() {
        return equals::narrow_exact(x, line, out_x, new);
    }
    equals::narrow_exact(line, x, new, out_x)
}
