// One application of a rule: what it does to the numbers of all texts, and how a text's new numbers are laid over its
// old ones.

#![tactic(auto)]

ghost use Rattle.std.specs.Prelude.{◌≡◌, true, ◌*◌, ◌≤◌, length, take};
ghost use Rattle.plain.specs.Tells.{Tells};
ghost use Rattle.laying.specs.Laid.{replaced};
ghost use Rattle.plain.specs.All.{All};
ghost use Rattle.shapes.specs.Shape.{block_size, most_blocks};
ghost use Rattle.books.specs.Counts.{sum_of, RightCount, count_of, first_of};
ghost use Rattle.books.specs.Rules.{Names};
ghost use Rattle.rules.specs.Limits.{most_texts};

// What one application of a rule does to the numbers so far: one of three, with no value.
#[derive(Clone, Copy)]
pub enum Applied {
    None,
    Same,
    Changed,
}

// Lays the new numbers of text k, the first of x, over its old ones. Whether they are the same.
fn lay_one(counts: &[u64], numbers: &mut [u64], k: u64, x: &[u64]) -> bool
    requires all { All RightCount counts.now }
    requires counts_len_bound { length counts.now ≤ most_texts }
    requires numbers_len { length numbers.old ≡ sum_of counts.now * block_size }
    requires names { Names counts.now k }
    requires block_size_in_bounds { most_blocks * block_size ≤ length x.now }
    ensures tells { Tells result (numbers.new ≡ numbers.old) }
    ensures numbers_after { numbers.new ≡ replaced (first_of counts.now k * block_size) (take (count_of counts.now k * block_size) x.now) numbers.old }
{
    let range = books::range_of(counts, k as usize);
    let new = &x[..range.to - range.from];
    let same = laying::same_numbers(&numbers[range.from..range.to], new);
    laying::lay(numbers, range.from, new);
    same
}

// The same, handed on: whether these numbers are the same, and all that were laid before were.
pub fn lay_text(counts: &[u64], numbers: &mut [u64], k: u64, x: &[u64], same: bool) -> bool
    requires all { All RightCount counts.now }
    requires counts_len_bound { length counts.now ≤ most_texts }
    requires numbers_len { length numbers.old ≡ sum_of counts.now * block_size }
    requires names { Names counts.now k }
    requires block_size_in_bounds { most_blocks * block_size ≤ length x.now }
    ensures tells { Tells result ((same ≡ true) × (numbers.new ≡ numbers.old)) }
    ensures numbers_after { numbers.new ≡ replaced (first_of counts.now k * block_size) (take (count_of counts.now k * block_size) x.now) numbers.old }
{
    if lay_one(counts, numbers, k, x) {
        return same;
    }
    false
}
