// A tray by value, for a program that has its row as an array: the row goes in, and comes out as the call leaves it.

#![tactic(auto)]

ghost use Rattle.std.specs.Prelude.{◌≡◌, ◌≤◌, take, drop};
ghost use Rattle.dashed.specs.Promises.{SweepTray};

use answers::{AnswerRecord, Refusal};

// Two more than a tray may have pairs, so that a row can be longer than the list in every case.
pub const ROOM: usize = 66;

// How the call ended, and the row afterwards, which is handed back also where the call is refused.
#[derive(Clone, Copy)]
pub struct Batch {
    pub tray: Result<(), Refusal>,
    pub row: [AnswerRecord; 66],
}

// The first n records are lent to the call.
pub fn sweep_row(blocks: &[u64], pairs: &[u64], mut row: [AnswerRecord; 66], n: usize) -> Batch
    requires { n ≤ 66 }
    ensures { SweepTray blocks.now pairs.now (take n row) (take n result.row) result.tray × (drop n result.row ≡ drop n row) }
{
    let t = dashed::sweep_tray(blocks, pairs, &mut row[..n]);
    Batch { tray: t, row: row }
}
