// The refusals of a join: those of the three shapes, 12, then those of the room.

#![tactic(auto)]

ghost use Rattle.joins.specs.Refused.{JoinChecked};

use answers::Refusal;

// All refusals: those of the shapes, one after the other; that what is joined is too long; then the room, given its
// lengths: single numbers, as in pair_checks.
pub fn check(
    x: &[u64],
    y: &[u64],
    z: &[u64],
    work: usize,
    first: usize,
    second: usize,
    third: usize,
) -> Result<(), Refusal>
    ensures { JoinChecked x.now y.now z.now work first second third result }
{
    shape_checks::check_lent(x, 1)?;
    shape_checks::check_lent(y, 2)?;
    shape_checks::check_lent(z, 3)?;
    let upper = shapes::total_upper(y) + shapes::total_upper(z);
    if 250 < upper {
        return Err(Refusal::Join(0));
    }
    if work < 63001 {
        return Err(Refusal::Work);
    }
    if first < x.len() {
        return Err(Refusal::Output(1));
    }
    if second < y.len() {
        return Err(Refusal::Output(2));
    }
    if third < z.len() {
        return Err(Refusal::Output(3));
    }
    Ok(())
}
