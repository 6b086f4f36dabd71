// Equality's second pass: rows from the ends, and what both shapes' blocks are given on the way. The padding is a set
// of characters: none of them, or the blank.

#![tactic(auto)]

ghost use Rattle.std.specs.Prelude.{◌≡◌, ◌+◌, ◌≤◌, ◌<◌, length, replicate};
ghost use Rattle.sets.specs.Set.{set_of};
ghost use Rattle.shapes.specs.Lent.{Whole, meant, shape_of};
ghost use Rattle.shapes.specs.Shape.{total};
ghost use Rattle.rows.specs.Row.{no_set, zone_in, end_in};
ghost use Rattle.rows.specs.Steps.{InTurn, Together};
ghost use Rattle.carries.specs.Climb.{Spans};
ghost use Rattle.row_paths.specs.Laid.{Laid, LaidOut};
ghost use Rattle.equal_forth.specs.Forth.{Pass};
ghost use Rattle.back_rows.specs.Rows.{Whenever, BlockBack};
ghost use Rattle.equal_back.specs.Back.{Fresh, EndBack, Roomed, SideTold};

use back_rows::Gathered;
use row_steps::Runs;
use rows::LaidBlock;
use sets::Set;
use shapes::Block;

// Where the runs of each shape end early, and where it takes a character.
#[derive(Clone, Copy)]
pub struct Ways {
    pub stops: Set,
    pub takes: Set,
    pub quit: Set,
    pub moved: Set,
}

// All rows of the block b at p, from the row at its end: in one word where all its sets are of one.
// A struct of these would be put together once and taken apart at once: `back_rows` takes them one by one.
fn back_block(
    layout: &[LaidBlock],
    spans: &[Set],
    runs: Runs,
    mine: Set,
    waits: Set,
    b: Block,
    p: usize,
    rows: &[Set],
    g: Gathered,
) -> Gathered
    requires in_turn { InTurn (zone_in layout.now) (end_in layout.now) (length layout.now) }
    requires together { Together (zone_in layout.now) (end_in layout.now) (length layout.now) (set_of runs.free) (set_of runs.stops) × Spans (set_of runs.free) spans.now }
    requires upper_bound { (p + b.upper ≤ 250) × (p + b.upper ≤ length rows.now) }
    ensures { Whenever (zone_in layout.now) (end_in layout.now) (length layout.now) (set_of mine) (set_of waits) p (meant b) (BlockBack rows.now p (meant b) g result) }
{
    let in_word = p + b.upper as usize <= 64 && equal_forth::in_words(runs, mine, waits, g.row);
    let mut got = g;
    for o in (0..b.upper as usize).rev() {
        let f = rows[p + o];
        got = if in_word {
            back_rows::back(
                layout,
                spans,
                runs.free.a,
                runs.stops.a,
                mine.a,
                waits.a,
                b,
                p,
                o,
                f,
                g.row.a,
                got,
            )
        } else {
            back_rows::back(
                layout, spans, runs.free, runs.stops, mine, waits, b, p, o, f, g.row, got,
            )
        };
    }
    got
}

// What is gathered before a block: none of its positions is used yet.
fn fresh(g: Gathered) -> Gathered
    ensures { Fresh g result }
{
    Gathered {
        used: sets::none(),
        ..g
    }
}

// What is gathered at the ends n of X and m of Y, where f is the last row of the first pass: X waits, and Y goes on
// over padding.
fn at_end(y: &[u64], layout: &[LaidBlock], n: usize, m: usize, pad: Set, f: Set) -> Gathered
    requires laid { LaidOut y.now layout.now }
    requires n_bound { (n < 256) × (m ≡ total (shape_of y.now)) }
    ensures { EndBack (set_of pad) y.now n (set_of f) result }
{
    let t = pad_rows::tail_of(y, layout, m, pad);
    let taken = sets::both(f, t.takes);
    Gathered {
        row: t.row,
        used: taken,
        quit: sets::both(f, t.quit),
        stops: sets::none(),
        takes: equal_steps::with_number::<Set>(sets::none(), n, !sets::is_empty(taken)),
    }
}

// All blocks of x beside y, from the last to the first: writes the characters of each block of both, and gives where
// their runs end early and where they take a character. `own` and `others` are blank at first.
fn back_laid(
    x: &[u64],
    y: &[u64],
    layout: &[LaidBlock],
    pad: Set,
    mines: &[Set],
    rows: &[Set],
    last: Set,
    own: &mut [Set],
    others: &mut [Set],
) -> Ways
    requires whole { Whole x.now }
    requires laid { LaidOut y.now layout.now }
    requires pass { Pass (set_of pad) x.now y.now mines.now rows.now (set_of last) }
    requires roomed { Roomed x.now y.now mines.now rows.now own.old others.old }
    requires others_value { others.old ≡ replicate (length others.old) no_set }
    ensures side_told { SideTold (set_of pad) x.now y.now (set_of result.stops) (set_of result.takes) own.new }
    ensures side_told_2 { SideTold (set_of pad) y.now x.now (set_of result.quit) (set_of result.moved) others.new }
    ensures own_len_unchanged { (length own.new ≡ length own.old) × (length others.new ≡ length others.old) }
{
    let runs = row_steps::all_runs(layout);
    let mut room = rows::blank::<8>();
    let count = carries::spans(runs.free, &mut room);
    let spans = &room[..count];
    let m = shapes::total_upper(y) as usize;
    let mut p = shapes::total_upper(x) as usize;
    let mut g = at_end(y, layout, p, m, pad, last);
    let mut moved = g.used;
    row_steps::give(moved, pad, layout, others);
    for i in (0..x.len() / shapes::SIZE).rev() {
        let b = shapes::block_at(x, i);
        p -= b.upper as usize;
        let waits = equal_steps::waiting(b.base, pad, m);
        g = back_block(layout, spans, runs, mines[i], waits, b, p, rows, fresh(g));
        own[i] = equal_steps::chars(g.used, b.base, y, layout, others, m, pad);
        moved = sets::either(moved, g.used);
    }
    Ways {
        stops: g.stops,
        takes: g.takes,
        quit: g.quit,
        moved,
    }
}

// The same where the layout has room for more blocks.
pub fn back(
    x: &[u64],
    y: &[u64],
    layout: &[LaidBlock],
    pad: Set,
    mines: &[Set],
    rows: &[Set],
    last: Set,
    own: &mut [Set],
    others: &mut [Set],
) -> Ways
    requires whole { Whole x.now }
    requires laid { Laid y.now layout.now }
    requires pass { Pass (set_of pad) x.now y.now mines.now rows.now (set_of last) }
    requires roomed { Roomed x.now y.now mines.now rows.now own.old others.old }
    requires others_value { others.old ≡ replicate (length others.old) no_set }
    ensures side_told { SideTold (set_of pad) x.now y.now (set_of result.stops) (set_of result.takes) own.new }
    ensures side_told_2 { SideTold (set_of pad) y.now x.now (set_of result.quit) (set_of result.moved) others.new }
    ensures own_len_unchanged { (length own.new ≡ length own.old) × (length others.new ≡ length others.old) }
{
    back_laid(
        x,
        y,
        &layout[..y.len() / shapes::SIZE],
        pad,
        mines,
        rows,
        last,
        own,
        others,
    )
}
