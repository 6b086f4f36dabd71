// The refusals of a pair of shapes, in their order; and the work buffer cleared.

#![tactic(auto)]

ghost use Rattle.std.specs.Prelude.{◌≤◌, length};
ghost use Rattle.pairs.specs.Narrow.{Cleared};
ghost use Rattle.pairs.specs.Pair.{PairChecked};

use answers::Refusal;

// Those of the first shape, then of the second.
pub fn check_pair(x: &[u64], y: &[u64]) -> Result<(), Refusal>
    ensures { PairChecked x.now y.now result }
{
    shape_checks::check_lent(x, 1)?;
    shape_checks::check_lent(y, 2)
}

// Sets the work buffer to 0, as far as a call may use it.
pub fn clear(work: &mut [u8])
    requires { 63001 ≤ length work.old }
    ensures { Cleared work.old work.new }
{
    work[..63001].fill(0);
}
