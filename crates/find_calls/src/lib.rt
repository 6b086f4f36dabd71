// Where a mark first occurs in the texts of a shape: the refusals first, then the search.

#![tactic(auto)]

ghost use Rattle.std.specs.Prelude.{◌≡◌, ◌+◌, ◌≤◌, ◌<◌};
ghost use Rattle.shapes.specs.Lent.{Accepted, shape_of};
ghost use Rattle.find_borders.specs.Borders.{ShortMark};
ghost use Rattle.find_calls.specs.Find.{SoughtIn, FindPromise};

use answers::{Index, Refusal, Sought};

// The index at which a mark of m characters starts whose last is character k: the only place where an index is made,
// from lengths.
fn index_of(k: usize, m: usize) -> Index
    requires { (m ≤ k) × (k < 256) }
    ensures { result.at + m ≡ k + 1 }
{
    let at = k - m + 1;
    Index { at: at as u64 }
}

// A mark of 1 to 64 characters, sought in an accepted shape.
fn seek(shape: &[u64], mark: &[u8]) -> Sought
    requires { Accepted shape.now × ShortMark mark.now }
    ensures { SoughtIn mark.now (shape_of shape.now) result }
{
    let search = find_reads::read_shape(mark, shape);
    if sets::is_empty(search.hits) {
        return Sought::Nowhere;
    }
    let m = mark.len();
    let least = index_of(sets::first(search.hits), m);
    let greatest = index_of(sets::last(search.hits), m);
    if search.live == 0 {
        return Sought::InAll(least, greatest);
    }
    Sought::InSome(least, greatest)
}

// Where a mark first occurs in the texts of a shape.
pub fn find(shape: &[u64], mark: &[u8]) -> Result<Sought, Refusal>
    ensures { FindPromise shape.now mark.now result }
{
    shape_checks::check_lent(shape, 1)?;
    if 64 < mark.len() {
        return Err(Refusal::Mark);
    }
    if mark.is_empty() {
        let start = index_of(0, 0);
        return Ok(Sought::InAll(start, start));
    }
    Ok(seek(shape, mark))
}
