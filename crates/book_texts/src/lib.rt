// The counts of a book, and its texts one by one: whether they are right, and why not.

#![tactic(auto)]

ghost use Rattle.std.specs.Prelude.{◌≡◌, ◌*◌, ◌≤◌, length};
ghost use Rattle.plain.specs.Tells.{Tells};
ghost use Rattle.plain.specs.All.{All};
ghost use Rattle.shapes.specs.Lent.{shape_of, BlocksChecked};
ghost use Rattle.shapes.specs.Shape.{block_size};
ghost use Rattle.books.specs.Counts.{sum_of, RightCount, RightCounts, shape_in};
ghost use Rattle.books.specs.Rules.{Names};
ghost use Rattle.books.specs.Code.{TextsChecked};
ghost use Rattle.rules.specs.Limits.{most_texts};

use answers::Refusal;

// Whether every block count is 1 to 32. The numbers may be any.
fn right_each(counts: &[u64]) -> bool
    ensures { Tells result (All RightCount counts.now) }
{
    counts.iter().all(|c| 1 <= *c && *c <= 32)
}

// Whether the counts are right (refusal 6). The counts are looked at one by one before they are added.
pub fn right_counts(counts: &[u64], blocks: &[u64], rules: &[u64]) -> bool
    ensures { Tells result (RightCounts counts.now blocks.now rules.now) }
{
    let n = counts.len();
    1 <= n
        && n <= rules::TEXTS
        && right_each(counts)
        && rules.len() % rules::SIZE == 0
        && rules.len() / rules::SIZE <= rules::RULES
        && blocks.len() == books::blocks_before(counts, n) * shapes::SIZE
}

// The refusals of the blocks of text k, from 1.
fn check_text(counts: &[u64], blocks: &[u64], k: usize) -> Result<(), Refusal>
    requires all { All RightCount counts.now }
    requires counts_len_bound { length counts.now ≤ most_texts }
    requires blocks_len { length blocks.now ≡ sum_of counts.now * block_size }
    requires names { Names counts.now k }
    ensures { BlocksChecked k (shape_in counts.now (shape_of blocks.now) k) result }
{
    shape_checks::check_blocks(books::text(counts, blocks, k), k as u64)
}

// The same, text by text.
pub fn check_texts(counts: &[u64], blocks: &[u64]) -> Result<(), Refusal>
    requires all { All RightCount counts.now }
    requires counts_len_bound { length counts.now ≤ most_texts }
    requires blocks_len { length blocks.now ≡ sum_of counts.now * block_size }
    ensures { TextsChecked counts.now (shape_of blocks.now) result }
{
    for k in 1..counts.len() + 1 {
        check_text(counts, blocks, k)?;
    }
    Ok(())
}
