// Least and greatest text, by document 01's steps, in two passes from the last block: the length, then the text from
// its end.

#![tactic(auto)]

ghost use Rattle.std.specs.Prelude.{◌≡◌, ◌++◌, ◌+◌, ◌≤◌, length, take, drop};
ghost use Rattle.shapes.specs.Lent.{shape_of, Accepted};
ghost use Rattle.extreme_steps.specs.Steps.{extreme};
ghost use Rattle.extreme_steps.specs.Code.{run_of};
ghost use Rattle.extremes.specs.Extreme.{TextWritten, ExtremePromise};

use answers::Refusal;
use extreme_steps::{Choice, Direction, Successor};

// Writes a choice's run at a place of the output.
fn put_run(k: Choice, out: &mut [u8], at: usize)
    requires { at + k.count ≤ length out.old }
    ensures { out.new ≡ take at out.old ++ (run_of k ++ drop (at + k.count) out.old) }
{
    let end = at + k.count as usize;
    out[at..end].fill(extreme_steps::char_in(k.successor));
}

// The length of the text: what the blocks choose, from the last to the first, counted.
fn length_of(d: Direction, shape: &[u64]) -> usize
    requires { Accepted shape.now }
    ensures { result ≡ length (extreme d (shape_of shape.now)) }
{
    let mut below = extreme_steps::codes_below(Successor::End);
    let mut sum = 0;
    for i in (0..shape.len() / shapes::SIZE).rev() {
        let k = extreme_steps::choose(d, shape, i, below);
        sum += k.count as usize;
        below = extreme_steps::codes_onward(k, below);
    }
    sum
}

// The least or the greatest text of a shape that is accepted, at the start of the output, and its length. Each block's
// run is written in front of those behind it, from the text's end on, so that no choice is kept.
pub fn write_extreme(d: Direction, shape: &[u64], out: &mut [u8]) -> usize
    requires accepted { Accepted shape.now }
    requires in_bounds { 250 ≤ length out.old }
    ensures { TextWritten d shape.now out.old out.new result }
{
    let n = length_of(d, shape);
    let mut below = extreme_steps::codes_below(Successor::End);
    let mut at = n;
    for i in (0..shape.len() / shapes::SIZE).rev() {
        let k = extreme_steps::choose(d, shape, i, below);
        at -= k.count as usize;
        put_run(k, out, at);
        below = extreme_steps::codes_onward(k, below);
    }
    n
}

// The least or the greatest text of a shape.
fn extreme_text(d: Direction, shape: &[u64], out: &mut [u8]) -> Result<usize, Refusal>
    ensures { ExtremePromise d shape.now out.old out.new result }
{
    shape_checks::check_lent(shape, 1)?;
    if out.len() < 250 {
        return Err(Refusal::Output(0));
    }
    Ok(write_extreme(d, shape, out))
}

// The least text that fits the shape.
pub fn least_text(shape: &[u64], out: &mut [u8]) -> Result<usize, Refusal>
    ensures { ExtremePromise Direction.Least shape.now out.old out.new result }
{
    extreme_text(Direction::Least, shape, out)
}

// The greatest text that fits the shape.
pub fn greatest_text(shape: &[u64], out: &mut [u8]) -> Result<usize, Refusal>
    ensures { ExtremePromise Direction.Greatest shape.now out.old out.new result }
{
    extreme_text(Direction::Greatest, shape, out)
}
