// A shape laid out in rows and read over padding, while another shape has ended and waits: forwards from a row, and
// backwards from its end.

#![tactic(auto)]

ghost use Rattle.std.specs.Prelude.{◌≡◌, ◌≤◌};
ghost use Rattle.sets.specs.Set.{set_of, Exactly};
ghost use Rattle.shapes.specs.Lent.{shape_of};
ghost use Rattle.shapes.specs.Shape.{total};
ghost use Rattle.row_paths.specs.Laid.{LaidOut};
ghost use Rattle.pads.specs.Pad.{padded_at};
ghost use Rattle.pad_rows.specs.Alone.{Trails, Tails};
ghost use Rattle.pad_rows.specs.Code.{Over, WithBlock};

use rows::LaidBlock;
use sets::Set;

// What a row leads to within a block and to its end: by its run's end, and, where the block may hold padding, by each
// character more.
fn trail_block(laid: LaidBlock, padded: bool, r: Set) -> Set
    ensures { Exactly (set_of result) (Over (set_of laid.zone) (set_of laid.end) (set_of laid.slot) padded (set_of r)) }
{
    let here = sets::both(r, laid.slot);
    if sets::is_empty(here) {
        return r;
    }
    if padded {
        let before = sets::below(sets::first(here));
        return sets::either(r, sets::without(sets::either(laid.slot, laid.end), before));
    }
    if sets::meets(here, laid.zone) {
        return sets::either(r, laid.end);
    }
    r
}

// All positions of y to which padding leads from those of s.
pub fn trail(y: &[u64], layout: &[LaidBlock], pad: Set, s: Set) -> Set
    requires laid { LaidOut y.now layout.now }
    ensures { Exactly (set_of result) (Trails (padded_at (set_of pad) (shape_of y.now)) (set_of pad) (set_of s)) }
{
    let mut r = s;
    for (j, laid) in layout.iter().enumerate() {
        r = trail_block(*laid, sets::meets(shapes::block_at(y, j).base, pad), r);
    }
    r
}

// The positions of a shape from which padding leads to its end; those at which its run may end on the way; those at
// which it takes padding.
#[derive(Clone, Copy)]
pub struct Tail {
    pub row: Set,
    pub quit: Set,
    pub takes: Set,
}

// A block before its end, which is in the row or not.
fn tail_block(laid: LaidBlock, padded: bool, t: Tail) -> Tail
    ensures { WithBlock (set_of laid.zone) (set_of laid.end) (set_of laid.slot) padded t result }
{
    if !sets::meets(t.row, laid.end) {
        return t;
    }
    let quit = sets::either(t.quit, laid.zone);
    if padded {
        return Tail {
            row: sets::either(t.row, laid.slot),
            quit,
            takes: sets::either(t.takes, laid.slot),
        };
    }
    Tail {
        row: sets::either(t.row, laid.zone),
        quit,
        takes: t.takes,
    }
}

// All positions of y from which padding leads to its end m.
pub fn tail_of(y: &[u64], layout: &[LaidBlock], m: usize, pad: Set) -> Tail
    requires laid { LaidOut y.now layout.now }
    requires end { m ≡ total (shape_of y.now) }
    ensures { Tails (padded_at (set_of pad) (shape_of y.now)) (set_of pad) (total (shape_of y.now)) result }
{
    let end = sets::single(m);
    let mut t = Tail {
        row: end,
        quit: sets::none(),
        takes: if sets::is_empty(pad) {
            sets::none()
        } else {
            end
        },
    };
    for j in (0..layout.len()).rev() {
        t = tail_block(layout[j], sets::meets(shapes::block_at(y, j).base, pad), t);
    }
    t
}
