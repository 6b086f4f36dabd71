// An order's first pass: for each number of matched characters of a fixed text the row of the positions that some text
// leads to.

#![tactic(auto)]

ghost use Rattle.std.specs.Prelude.{◌≡◌, ◌-◌, ◌≤◌, ◌<◌, length};
ghost use Rattle.sets.specs.Set.{set_of, Exactly};
ghost use Rattle.shapes.specs.Lent.{block_at};
ghost use Rattle.rows.specs.Row.{slot_in, table_size};
ghost use Rattle.rows.specs.Steps.{MeetsOne};
ghost use Rattle.order_guides.specs.Guide.{next_of};
ghost use Rattle.row_paths.specs.Laid.{Laid, LaidOut};
ghost use Rattle.shapes.specs.Shape.{block_count};
ghost use Rattle.order_forth.specs.Forth.{Forth};

use rows::LaidBlock;
use sets::Set;

// The positions that hold the character after q, given those that hold the one before it.
fn next_mask(x: &[u64], layout: &[LaidBlock], text: &[u8], q: usize, mask: Set) -> Set
    requires layout_bound { length layout.now ≤ block_count x.now }
    requires within { q < length text.now }
    requires exactly { 0 < q → Exactly (set_of mask) (MeetsOne (λ j. (block_at x.now j).base) (slot_in layout.now) (length layout.now) (next_of text.now (q - 1))) }
    ensures { Exactly (set_of result) (MeetsOne (λ j. (block_at x.now j).base) (slot_in layout.now) (length layout.now) (next_of text.now q)) }
{
    if 0 < q && text[q] == text[q - 1] {
        return mask;
    }
    row_steps::matching(order_guides::same_at(text, q), x, layout)
}

// The rows of a shape that is laid out, up to one that is empty or of the whole text; gives the number of the last.
fn forth_laid(x: &[u64], layout: &[LaidBlock], text: &[u8], rows: &mut [Set]) -> usize
    requires laid { LaidOut x.now layout.now }
    requires short { length text.now ≤ 250 }
    requires rows_len { length rows.old ≡ table_size }
    ensures forth { Forth x.now text.now rows.new result }
    ensures rows_len_unchanged { length rows.new ≡ length rows.old }
{
    let runs = row_steps::all_runs(layout);
    let mut row = row_steps::close_forth(runs, sets::single(0));
    rows[0] = row;
    let mut mask = sets::none();
    for q in 0..text.len() {
        if sets::is_empty(row) {
            return q;
        }
        mask = next_mask(x, layout, text, q, mask);
        row = row_steps::close_forth(runs, sets::up(sets::both(row, mask)));
        rows[q + 1] = row;
    }
    text.len()
}

// The same where the layout has room for more blocks.
pub fn forth(x: &[u64], layout: &[LaidBlock], text: &[u8], rows: &mut [Set]) -> usize
    requires laid { Laid x.now layout.now }
    requires short { length text.now ≤ 250 }
    requires rows_len { length rows.old ≡ table_size }
    ensures forth { Forth x.now text.now rows.new result }
    ensures rows_len_unchanged { length rows.new ≡ length rows.old }
{
    forth_laid(x, &layout[..x.len() / shapes::SIZE], text, rows)
}
