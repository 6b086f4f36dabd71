// Whether a text fits a shape: for each block, from the last to the first, the row of the places of the text from which
// the rest fits the blocks from there on.

#![tactic(auto)]

ghost use Rattle.std.specs.Prelude.{◌/◌, ◌≤◌, ◌<◌, length};
ghost use Rattle.plain.specs.Tells.{Tells};
ghost use Rattle.sets.specs.Set.{set_of};
ghost use Rattle.shapes.specs.Shape.{Fits};
ghost use Rattle.shapes.specs.Lent.{shape_of, Accepted};
ghost use Rattle.fit_rows.specs.Rows.{Sized, PlacesOf, SeenTo};
ghost use Rattle.fitting.specs.Fit.{FitPromise};

use answers::{Fit, Refusal};
use sets::Set;

// Whether a text of at most 250 characters fits an accepted shape, by the table of its places and the characters seen.
fn fits_by(shape: &[u64], text: &[u8], table: &[u64], seen: Set) -> bool
    requires accepted { Accepted shape.now }
    requires text_len_bound { length text.now ≤ 250 }
    requires sized { Sized table.now }
    requires places_of { PlacesOf text.now table.now }
    requires seen_to { SeenTo text.now (length text.now) (set_of seen) }
    ensures { Tells result (Fits (shape_of shape.now) text.now) }
{
    let mut row = sets::single(text.len());
    for i in (0..shape.len() / shapes::SIZE).rev() {
        let b = shapes::block_at(shape, i);
        let held = fit_tables::places(sets::both(b.base, seen), table);
        row = fit_rows::row_before(b, held, row, text.len());
    }
    sets::has(row, 0)
}

// The same, with a table of its own: rows of one word where the text is short.
fn fits_blocks(shape: &[u64], text: &[u8]) -> bool
    requires accepted { Accepted shape.now }
    requires text_len_bound { length text.now ≤ 250 }
    ensures { Tells result (Fits (shape_of shape.now) text.now) }
{
    if text.len() <= 64 {
        let mut short = [0u64; fit_tables::CODES];
        let seen = fit_tables::add_places(text, &mut short);
        return fits_by(shape, text, &short, seen);
    }
    let mut table = [0u64; 4 * fit_tables::CODES];
    let seen = fit_tables::add_places(text, &mut table);
    fits_by(shape, text, &table, seen)
}

// Whether a text fits a shape. A text too long simply does not fit.
pub fn fits(shape: &[u64], text: &[u8]) -> Result<Fit, Refusal>
    ensures { FitPromise shape.now text.now result }
{
    shape_checks::check_lent(shape, 1)?;
    if text.len() <= 250 && fits_blocks(shape, text) {
        return Ok(Fit::Fits);
    }
    Ok(Fit::Unfit)
}
