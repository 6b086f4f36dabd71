// A book of rules: what it is, why lent numbers are none, and where its texts stand.

#![tactic(auto)]

ghost use Rattle.std.specs.Prelude.{◌≡◌, ◌≤◌, ◌*◌, length, take};
ghost use Rattle.plain.specs.All.{All};
ghost use Rattle.rules.specs.Limits.{most_texts, book_blocks};
ghost use Rattle.books.specs.Counts.{sum_of, RightCount, shape_in};
ghost use Rattle.books.specs.Rules.{Names};
ghost use Rattle.shapes.specs.Lent.{shape_of};
ghost use Rattle.shapes.specs.Shape.{block_size, block_count, most_blocks};
ghost use Rattle.books.specs.Code.{RangeOf, numbers_in};

// Where the numbers of a text begin, and where they end.
#[derive(Clone, Copy)]
pub struct Range {
    pub from: usize,
    pub to: usize,
}

// The blocks of the first k texts: the number, from 0, of the first block of text k + 1.
pub fn blocks_before(counts: &[u64], k: usize) -> usize
    requires all { All RightCount counts.now }
    requires counts_len_bound { length counts.now ≤ most_texts }
    requires k_in_bounds { k ≤ length counts.now }
    ensures sum { result ≡ sum_of (take k counts.now) }
    ensures few { result ≤ book_blocks }
{
    counts[..k].iter().map(|c| *c as usize).sum()
}

// The range of text k, from 1, among the numbers of all.
pub fn range_of(counts: &[u64], k: usize) -> Range
    requires all { All RightCount counts.now }
    requires counts_len_bound { length counts.now ≤ most_texts }
    requires names { Names counts.now k }
    ensures { RangeOf counts.now k result }
{
    let from = blocks_before(counts, k - 1) * shapes::SIZE;
    let to = blocks_before(counts, k) * shapes::SIZE;
    Range { from, to }
}

// The numbers of text k, from 1, among the numbers of all.
pub fn text<'a>(counts: &[u64], numbers: &'a [u64], k: usize) -> &'a [u64]
    requires all { All RightCount counts.now }
    requires counts_len_bound { length counts.now ≤ most_texts }
    requires whole { length numbers.now ≡ sum_of counts.now * block_size }
    requires names { Names counts.now k }
    ensures numbers { result.now ≡ numbers_in counts.now numbers.now k }
    ensures shape { shape_of result.now ≡ shape_in counts.now (shape_of numbers.now) k }
    ensures few { block_count result.now ≤ most_blocks }
{
    let range = range_of(counts, k);
    &numbers[range.from..range.to]
}
