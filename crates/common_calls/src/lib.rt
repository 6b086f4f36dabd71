// The call for the earliest common text of two shapes: the refusals of a pair first, then the work.

#![tactic(auto)]

ghost use Rattle.common_calls.specs.Common.{ShowChecked, ShowPromise};

use answers::Refusal;

// Those of the shapes, then the work buffer, then the output, given their lengths.
fn check(x: &[u64], y: &[u64], work: usize, out: usize) -> Result<(), Refusal>
    ensures { ShowChecked x.now y.now work out result }
{
    pairs::check_pair(x, y)?;
    if work < 63001 {
        return Err(Refusal::Work);
    }
    if out < 250 {
        return Err(Refusal::Output(0));
    }
    Ok(())
}

// The earliest common text, at the start of the output, and its length, if there is one; the work buffer is handed back
// cleared.
pub fn common_text(
    x: &[u64],
    y: &[u64],
    work: &mut [u8],
    out: &mut [u8],
) -> Result<Option<usize>, Refusal>
    ensures { ShowPromise x.now y.now work.old out.old work.new out.new result }
{
    check(x, y, work.len(), out.len())?;
    pairs::clear(work);
    Ok(common_rooms::earliest(x, y, out))
}
