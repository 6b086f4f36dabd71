// One shape narrowed by what is on the right side of a fixed text.

#![tactic(auto)]

ghost use Rattle.std.specs.Prelude.{◌≡◌, ◌≤◌, length};
ghost use Rattle.sets.specs.Set.{set_of};
ghost use Rattle.shapes.specs.Shape.{text_of, total, block_count, most_blocks};
ghost use Rattle.shapes.specs.Lent.{Whole, shape_of};
ghost use Rattle.order_sides.specs.Guide.{KeptTo};
ghost use Rattle.order_guides.specs.Sides.{Side};
ghost use Rattle.order_guides.specs.Guide.{guide_of};
ghost use Rattle.row_paths.specs.Laid.{LaidOut};
ghost use Rattle.order_by_text.specs.Narrowed.{One};
ghost use Rattle.order_by_text.specs.Freed.{Freed};

use order_guides::Bound;
use order_states::{Gathered, LaidShape};
use rows::LaidBlock;
use sets::Set;

// Where a run may end early, and where a character may be taken.
#[derive(Clone, Copy)]
struct Places {
    quit: Set,
    moved: Set,
}

// What was gathered, and all that is free after the first position where a text parts.
fn freed(shape: LaidShape, g: Gathered, chars: &mut [Set]) -> Places
    requires layout_bound { length shape.layout.now ≤ length chars.old }
    requires end_bound { shape.end ≤ 250 }
    ensures freed { Freed shape.entry.layout.now shape.entry.end (set_of shape.entry.runs.free) g chars.old chars.new (set_of result.quit) (set_of result.moved) }
    ensures chars_len_unchanged { length chars.new ≡ length chars.old }
{
    if sets::is_empty(g.parted) {
        return Places {
            quit: g.quit,
            moved: g.moved,
        };
    }
    let free = sets::between(sets::first(g.parted) + 1, shape.end + 1);
    row_steps::give(free, sets::below(256), shape.layout, chars);
    Places {
        quit: sets::either(g.quit, sets::both(free, shape.runs.free)),
        moved: sets::either(g.moved, sets::down(free)),
    }
}

// Narrows a shape that is laid out, u past all its blocks.
fn narrow_laid(bound: Bound, x: &[u64], layout: &[LaidBlock], u: usize, out: &mut [u64]) -> bool
    requires laid { LaidOut x.now layout.now × (u ≡ total (shape_of x.now)) }
    requires short { length bound.text.now ≤ 250 }
    requires x_bound { (block_count x.now ≤ most_blocks) × (length x.now ≤ length out.old) }
    ensures { One (KeptTo (guide_of bound.entry.direction bound.entry.strict bound.entry.text.now)) x.now out.old out.new result }
{
    let mut rows: [Set; rows::TABLE] = rows::blank();
    let n = order_forth::forth(x, layout, bound.text, &mut rows);
    let runs = row_steps::all_runs(layout);
    let mut spans: [Set; 8] = rows::blank();
    let count = carries::spans(runs.free, &mut spans);
    let shape = LaidShape {
        lent: x,
        layout,
        runs,
        spans: &spans[..count],
        end: u,
    };
    let mut chars: [Set; rows::LAYOUT] = rows::blank();
    let g = order_back::gather(bound, shape, &rows, n, &mut chars);
    if !sets::has(g.clear, 0) {
        return false;
    }
    let p = freed(shape, g, &mut chars);
    row_blocks::narrow_blocks(x, &chars, p.quit, p.moved, out);
    true
}

// Narrows a shape of at most 32 blocks to the texts that a bound holds.
pub fn narrow_side(bound: Bound, x: &[u64], out: &mut [u64]) -> bool
    requires whole { Whole x.now }
    requires short { length bound.text.now ≤ 250 }
    requires x_bound { (block_count x.now ≤ most_blocks) × (length x.now ≤ length out.old) }
    ensures { One (λ f. Side bound.entry.direction bound.entry.strict (text_of f) bound.entry.text.now) x.now out.old out.new result }
{
    let mut room: [LaidBlock; rows::LAYOUT] = rows::blank_layout();
    let u = row_lay::lay(x, &mut room);
    narrow_laid(bound, x, &room[..x.len() / shapes::SIZE], u, out)
}
