// A tray of pairs at once: each pair is judged by the quick sweep, its answer put into the record of its number.

#![tactic(auto)]

ghost use Rattle.trays.specs.Code.{Counted};
ghost use Rattle.trays.specs.Tray.{TrayPromise};

use answers::{AnswerRecord, Refusal};

// How many records are written, one to each pair, from the lengths of the list of pairs and of the row.
fn count(listed: usize, room: usize) -> Result<usize, Refusal>
    ensures { Counted listed room result }
{
    let n = listed / tray_pairs::SIZE;
    if listed % tray_pairs::SIZE != 0 || 64 < n {
        return Err(Refusal::Pairs);
    }
    if room < n {
        return Err(Refusal::Output(0));
    }
    Ok(n)
}

// Judges each pair of the list, at most 64, by the quick sweep of its first range in its second, into the record of its
// number. A pair is four numbers: each range's first block, from 0, and the block past its last. A bad pair is refused
// in its own record; records past the last pair stay.
//
// The loop only stores.
pub fn sweep_tray(blocks: &[u64], pairs: &[u64], row: &mut [AnswerRecord]) -> Result<(), Refusal>
    ensures { TrayPromise blocks.now pairs.now row.old row.new result }
{
    let n = count(pairs.len(), row.len())?;
    for i in 0..n {
        row[i] = tray_pairs::record_at(blocks, pairs, i);
    }
    Ok(())
}
