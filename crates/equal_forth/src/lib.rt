// Equality's first pass: for each position of one shape the row of the positions of the other that one text, but for
// padding, leads to from the starts. The padding is a set of characters: none of them, or the blank.

#![tactic(auto)]

ghost use Rattle.std.specs.Prelude.{◌≡◌, true, ◌+◌, ◌/◌, ◌≤◌, ◌<◌, length};
ghost use Rattle.sets.specs.Set.{set_of};
ghost use Rattle.shapes.specs.Lent.{Whole, meant, shape_of};
ghost use Rattle.shapes.specs.Shape.{total, block_count};
ghost use Rattle.rows.specs.Row.{zone_in, end_in};
ghost use Rattle.rows.specs.Steps.{InTurn, Together};
ghost use Rattle.row_paths.specs.Laid.{Laid, LaidOut};
ghost use Rattle.forth_rows.specs.Rows.{BlockRows, Follows, RowsKept};
ghost use Rattle.equal_forth.specs.Forth.{Pass, InWords};

use row_steps::Runs;
use rows::LaidBlock;
use sets::Set;
use shapes::Block;

// Whether all these are sets of one word.
pub fn in_words(runs: Runs, mine: Set, waits: Set, s: Set) -> bool
    ensures { result ≡ true → InWords runs mine waits s }
{
    carries::is_word(runs.free)
        && carries::is_word(runs.stops)
        && carries::is_word(mine)
        && carries::is_word(waits)
        && carries::is_word(s)
}

// The rows of the block b from position p on, which s enters; gives what the next position is entered by.
// A struct of these would be put together once and taken apart at once: `forth_rows` takes them one by one.
fn forth_block(
    layout: &[LaidBlock],
    runs: Runs,
    mine: Set,
    waits: Set,
    b: Block,
    p: usize,
    s: Set,
    rows: &mut [Set],
) -> Set
    requires in_turn { InTurn (zone_in layout.now) (end_in layout.now) (length layout.now) }
    requires together { Together (zone_in layout.now) (end_in layout.now) (length layout.now) (set_of runs.free) (set_of runs.stops) }
    requires upper_bound { (p + b.upper ≤ 250) × (p + b.upper ≤ length rows.old) }
    ensures follows { Follows (zone_in layout.now) (end_in layout.now) (length layout.now) (set_of mine) (set_of waits) p (meant b) (set_of s) (λ X Y. BlockRows X Y p (meant b) rows.new (set_of result)) }
    ensures rows_kept { RowsKept p rows.old rows.new }
{
    if in_words(runs, mine, waits, s) && mine.a < 9223372036854775808 {
        let r = forth_rows::forth(
            layout,
            runs.free.a,
            runs.stops.a,
            mine.a,
            waits.a,
            b,
            p,
            s.a,
            rows,
        );
        return carries::word_set(r);
    }
    forth_rows::forth(layout, runs.free, runs.stops, mine, waits, b, p, s, rows)
}

// The rows of all blocks of x beside y, which is laid out in `layout`; gives the last, in which y alone goes on over
// padding.
fn forth_laid(
    x: &[u64],
    y: &[u64],
    layout: &[LaidBlock],
    pad: Set,
    mines: &mut [Set],
    rows: &mut [Set],
) -> Set
    requires whole { Whole x.now }
    requires laid { LaidOut y.now layout.now }
    requires x_bound { (block_count x.now ≤ length mines.old) × (total (shape_of x.now) < length rows.old) }
    ensures pass { Pass (set_of pad) x.now y.now mines.new rows.new (set_of result) }
    ensures mines_len_unchanged { (length mines.new ≡ length mines.old) × (length rows.new ≡ length rows.old) }
{
    let m = shapes::total_upper(y) as usize;
    let runs = row_steps::all_runs(layout);
    let mut s = sets::single(0);
    let mut p = 0;
    for i in 0..x.len() / shapes::SIZE {
        let b = shapes::block_at(x, i);
        let mine = row_steps::matching(b.base, y, layout);
        mines[i] = mine;
        let waits = equal_steps::waiting(b.base, pad, m);
        s = forth_block(layout, runs, mine, waits, b, p, s, rows);
        p += b.upper as usize;
    }
    let last = pad_rows::trail(y, layout, pad, s);
    rows[p] = last;
    last
}

// The same where the layout has room for more blocks.
pub fn forth(
    x: &[u64],
    y: &[u64],
    layout: &[LaidBlock],
    pad: Set,
    mines: &mut [Set],
    rows: &mut [Set],
) -> Set
    requires whole { Whole x.now }
    requires laid { Laid y.now layout.now }
    requires x_bound { (block_count x.now ≤ length mines.old) × (total (shape_of x.now) < length rows.old) }
    ensures pass { Pass (set_of pad) x.now y.now mines.new rows.new (set_of result) }
    ensures mines_len_unchanged { (length mines.new ≡ length mines.old) × (length rows.new ≡ length rows.old) }
{
    forth_laid(x, y, &layout[..y.len() / shapes::SIZE], pad, mines, rows)
}
