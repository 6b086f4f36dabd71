// All refusals of narrowing a pair: those of the shapes, then those of the room.

#![tactic(auto)]

ghost use Rattle.pairs.specs.Pair.{NarrowChecked};

use answers::Refusal;

// Those of the shapes, then the work buffer, then the outputs, given their lengths: single numbers, since a struct
// would be built at the one call and taken apart here.
pub fn check_narrow(
    x: &[u64],
    y: &[u64],
    work: usize,
    first: usize,
    second: usize,
) -> Result<(), Refusal>
    ensures { NarrowChecked x.now y.now work first second result }
{
    pairs::check_pair(x, y)?;
    if work < 63001 {
        return Err(Refusal::Work);
    }
    if first < x.len() {
        return Err(Refusal::Output(1));
    }
    if second < y.len() {
        return Err(Refusal::Output(2));
    }
    Ok(())
}
