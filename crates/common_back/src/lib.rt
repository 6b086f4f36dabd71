// The pass from the ends that keeps its rows: for each position of one shape the row of the positions of the other from
// which one text leads both to their ends.

#![tactic(auto)]

ghost use Rattle.std.specs.Prelude.{◌≡◌, ◌≤◌, length};
ghost use Rattle.shapes.specs.Lent.{Whole};
ghost use Rattle.rows.specs.Row.{table_size};
ghost use Rattle.row_paths.specs.Laid.{Laid, LaidOut};
ghost use Rattle.shapes.specs.Shape.{block_count};
ghost use Rattle.common_back.specs.Back.{EndRows};

use common_blocks::Side;
use rows::LaidBlock;
use sets::Set;

// The rows of all blocks of x beside y, which is laid out in `layout`, from the last block to the first.
fn back_laid(x: &[u64], y: &[u64], layout: &[LaidBlock], mines: &mut [Set], rows: &mut [Set])
    requires whole { Whole x.now }
    requires laid { LaidOut y.now layout.now }
    requires x_bound { (block_count x.now ≤ length mines.old) × (length rows.old ≡ table_size) }
    ensures end_rows { EndRows x.now y.now mines.new rows.new }
    ensures mines_len_unchanged { (length mines.new ≡ length mines.old) × (length rows.new ≡ length rows.old) }
{
    let m = shapes::total_upper(y) as usize;
    let runs = row_steps::all_runs(layout);
    let mut room = rows::blank::<8>();
    let n = carries::spans(runs.free, &mut room);
    let side = Side {
        layout,
        spans: &room[..n],
        runs,
    };
    let closed = row_steps::back_by(layout, side.spans, runs, sets::single(m));
    let mut row = closed.row;
    let mut p = shapes::total_upper(x) as usize;
    rows[p] = row;
    for i in (0..x.len() / shapes::SIZE).rev() {
        let b = shapes::block_at(x, i);
        p -= b.upper as usize;
        let mine = row_steps::matching(b.base, y, layout);
        mines[i] = mine;
        row = common_blocks::back_block(&side, mine, b, p, row, rows);
    }
}

// The same where the layout has room for more blocks.
pub fn back(x: &[u64], y: &[u64], layout: &[LaidBlock], mines: &mut [Set], rows: &mut [Set])
    requires whole { Whole x.now }
    requires laid { Laid y.now layout.now }
    requires x_bound { (block_count x.now ≤ length mines.old) × (length rows.old ≡ table_size) }
    ensures end_rows { EndRows x.now y.now mines.new rows.new }
    ensures mines_len_unchanged { (length mines.new ≡ length mines.old) × (length rows.new ≡ length rows.old) }
{
    back_laid(x, y, &layout[..y.len() / shapes::SIZE], mines, rows)
}
