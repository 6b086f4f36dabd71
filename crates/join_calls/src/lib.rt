// The call that narrows a join: the refusals first, then the work.

#![tactic(auto)]

ghost use Rattle.joins.specs.Join.{JoinPromise};

use answers::{Narrowed, Refusal};

// The call: the refusals, then the narrowing; the work buffer is handed back cleared.
pub fn narrow(
    x: &[u64],
    y: &[u64],
    z: &[u64],
    work: &mut [u8],
    out_x: &mut [u64],
    out_y: &mut [u64],
    out_z: &mut [u64],
) -> Result<Narrowed, Refusal>
    ensures { JoinPromise x.now y.now z.now work.old out_x.old out_y.old out_z.old
        work.new out_x.new out_y.new out_z.new result }
{
    join_checks::check(x, y, z, work.len(), out_x.len(), out_y.len(), out_z.len())?;
    pairs::clear(work);
    if joins::narrow_accepted(x, y, z, out_x, out_y, out_z) {
        return Ok(Narrowed::Narrow);
    }
    Ok(Narrowed::None)
}
