// A pair of a tray: two ranges of the blocks lent, and the answer record of the quick sweep of the first in the second.

#![tactic(auto)]

ghost use Rattle.std.specs.Prelude.{◌≡◌, ◌<◌};
ghost use Rattle.plain.specs.Tells.{Tells};
ghost use Rattle.tray_pairs.specs.Code.{SweptAlone};
ghost use Rattle.tray_pairs.specs.Judged.{recorded, Judged};
ghost use Rattle.tray_pairs.specs.Ranges.{pair_count, pair_at, RangeInside};

use answers::{AnswerRecord, Refusal, SweepVerdict, Swept};

// The numbers of a pair. It is not the size of a block.
pub const SIZE: usize = 4;

// The blocks from number `first` on, from 0, up to and without number `past`.
#[derive(Clone, Copy)]
pub struct Range {
    pub first: u64,
    pub past: u64,
}

// Two ranges, of which the first is swept in the second.
#[derive(Clone, Copy)]
pub struct Pair {
    pub x: Range,
    pub y: Range,
}

// Pair i, from 0, of lent numbers.
fn pair_at(pairs: &[u64], i: usize) -> Pair
    requires { i < pair_count pairs.now }
    ensures { result ≡ pair_at pairs.now i }
{
    let at = i * SIZE;
    Pair {
        x: Range {
            first: pairs[at],
            past: pairs[at + 1],
        },
        y: Range {
            first: pairs[at + 2],
            past: pairs[at + 3],
        },
    }
}

// Whether a range is inside n blocks. Its numbers may be any.
fn inside(n: usize, r: Range) -> bool
    ensures { Tells result (RangeInside n r) }
{
    r.first <= r.past && r.past <= n as u64
}

// An answer of the sweep as a record: no looks are told of a refusal. A `From` could not stand here, where neither type
// is declared.
fn record_of(s: Result<Swept, Refusal>) -> AnswerRecord
    ensures { result ≡ recorded s }
{
    match s {
        Ok(Swept::Places(looks)) => AnswerRecord {
            verdict: Ok(SweepVerdict::Places),
            looks: looks,
        },
        Ok(Swept::Cannot(looks)) => AnswerRecord {
            verdict: Ok(SweepVerdict::Cannot),
            looks: looks,
        },
        Err(r) => AnswerRecord {
            verdict: Err(r),
            looks: 0,
        },
    }
}

// The quick sweep as in a single call, but that its places are dropped.
fn sweep_alone(x: &[u64], y: &[u64]) -> Result<Swept, Refusal>
    ensures { SweptAlone x.now y.now result }
{
    pairs::check_pair(x, y)?;
    let mut kept = [0u64; 64];
    Ok(sweeps::sweep_kept(x, y, &mut kept))
}

// The answer on a pair: its ranges first, compared before anything is multiplied.
fn judge(blocks: &[u64], p: Pair) -> Result<Swept, Refusal>
    ensures { Judged blocks.now p (recorded result) }
{
    let n = blocks.len() / shapes::SIZE;
    let x = p.x;
    let y = p.y;
    if !inside(n, x) {
        return Err(Refusal::Range(1));
    }
    if !inside(n, y) {
        return Err(Refusal::Range(2));
    }
    let a = x.first as usize * shapes::SIZE;
    let b = x.past as usize * shapes::SIZE;
    let c = y.first as usize * shapes::SIZE;
    let d = y.past as usize * shapes::SIZE;
    sweep_alone(&blocks[a..b], &blocks[c..d])
}

// The answer record of pair i, from 0, of the list.
pub fn record_at(blocks: &[u64], pairs: &[u64], i: usize) -> AnswerRecord
    requires { i < pair_count pairs.now }
    ensures { Judged blocks.now (pair_at pairs.now i) result }
{
    record_of(judge(blocks, pair_at(pairs, i)))
}
