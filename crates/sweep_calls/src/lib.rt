// The calls on a pair of shapes: the refusals first, then the work.

#![tactic(auto)]

ghost use Rattle.sweep_calls.specs.Sweep.{SweepPromise};

use answers::{Refusal, Swept};

// The quick sweep of x in y: two numbers per block of x, block and offset, into the output.
pub fn sweep(x: &[u64], y: &[u64], out: &mut [u64]) -> Result<Swept, Refusal>
    ensures { SweepPromise x.now y.now out.old out.new result }
{
    pairs::check_pair(x, y)?;
    if out.len() < x.len() / shapes::SIZE * 2 {
        return Err(Refusal::Output(0));
    }
    Ok(sweeps::sweep_shapes(x, y, out))
}
