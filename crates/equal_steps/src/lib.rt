// One step of equality's passes: where a shape waits at its end, and what one character leads to or comes from.

#![tactic(auto)]

ghost use Rattle.std.specs.Prelude.{◌≡◌, true, false, ◌⊎◌, ◌<◌, ◌≤◌, length};
ghost use Rattle.bases.specs.Base.{Meets, Holds};
ghost use Rattle.plain.specs.Tells.{Tells};
ghost use Rattle.sets.specs.Set.{set_of, Exactly};
ghost use Rattle.shapes.specs.Shape.{block_count};
ghost use Rattle.rows.specs.Row.{row_in, slot_in};
ghost use Rattle.rows.specs.Steps.{Given};
ghost use Rattle.row_paths.specs.Rows.{Onwards, Inwards};
ghost use Rattle.equal_steps.specs.Chars.{Chars};

use row_steps::Row;
use rows::LaidBlock;
use sets::Set;

// The end m of a shape, where a base shares a character with the padding: there the shape waits.
pub fn waiting(base: Set, pad: Set, m: usize) -> Set
    requires { m < 256 }
    ensures { Exactly (set_of result) (λ q. Meets (set_of base) (set_of pad) × (q ≡ m)) }
{
    if sets::meets(base, pad) {
        sets::single(m)
    } else {
        sets::none()
    }
}

// What one character leads to from a row: the other shape goes on where it shares it, or waits at its end.
pub fn onward<R: Row>(row: R, mine: R, waits: R) -> R
    requires { R.CanRise mine }
    ensures { Onwards (R.bits row) (R.bits mine) (R.bits waits) (R.bits result) }
{
    row.rise(mine).either(row.both(waits))
}

// Adds a number where it counts, one that a row has room for.
pub fn with_number<R: Row>(s: Set, i: usize, on: bool) -> Set
    requires { i < R.room }
    ensures { Exactly (set_of result) (λ e. Holds (set_of s) e ⊎ ((on ≡ true) × (e ≡ i))) }
{
    if on { sets::either(s, R::single(i)) } else { s }
}

// Whether a run may end and land in a row.
pub fn lands<R: Row>(f: Set, stop: R, may_end: bool) -> bool
    ensures { Tells result ((may_end ≡ true) × Meets (set_of f) (R.bits stop)) }
{
    may_end && stop.meets(f)
}

// What one character leads into a row from: the other shape goes on where it shares it, or waits at its end.
pub fn inward<R: Row>(row: R, mine: R, waits: R) -> R
    ensures { Inwards (R.bits row) (R.bits mine) (R.bits waits) (R.bits result) }
{
    row.down().both(mine).either(row.both(waits))
}

// The characters of a block that has used some positions of y, its end m among them; the blocks of y at those positions
// are given its base.
pub fn chars(
    used: Set,
    base: Set,
    y: &[u64],
    layout: &[LaidBlock],
    others: &mut [Set],
    m: usize,
    pad: Set,
) -> Set
    requires layout_bound { (length layout.now ≤ block_count y.now) × (length layout.now ≤ length others.old) }
    requires m_bound { m < 256 }
    ensures chars { Chars (set_of used) y.now layout.now m (set_of pad) (set_of result) }
    ensures given { Given (slot_in layout.now) (length layout.now) (set_of used) (set_of base) (row_in others.old) (row_in others.new) }
    ensures others_len_unchanged { length others.new ≡ length others.old }
{
    let own = row_steps::share(used, base, y, layout, others);
    row_steps::with(own, pad, sets::has(used, m))
}
