// The positions of one block weighed: the least character that may come next in both shapes, and where it is taken.

#![tactic(auto)]

ghost use Rattle.std.specs.Prelude.{◌≡◌, ℕ, ◌+◌, ◌<◌, length};
ghost use Rattle.bases.specs.Base.{Holds};
ghost use Rattle.sets.specs.Set.{set_of};
ghost use Rattle.shapes.specs.Lent.{shape_of};
ghost use Rattle.rows.specs.Row.{table_size};
ghost use Rattle.walks.specs.Walk.{slot_at};
ghost use Rattle.common_weighs.specs.Next.{Slotted};
ghost use Rattle.common_weighs.specs.Code.{Sooner, WeighedBy, WeighedAll};

use rows::LaidBlock;
use sets::Set;

// Both shapes, laid out, and the rows from which both can end: `mines` and `rows` as `common_back` makes them.
#[derive(Clone, Copy)]
pub struct Both<'a> {
    pub x: &'a [u64],
    pub y: &'a [u64],
    pub layout_x: &'a [LaidBlock],
    pub layout_y: &'a [LaidBlock],
    pub mines: &'a [Set],
    pub rows: &'a [Set],
}

// The least character that may come next, and the positions that may take part in it. 256 stands for none: past every
// character, so that one that comes sooner is a plain minimum.
#[derive(Clone, Copy)]
pub struct Chosen {
    pub code: usize,
    pub kept: Set,
}

// The same while the positions of one block are weighed, with those of the other shape that were seen beside them.
#[derive(Clone, Copy)]
pub struct Weighed {
    pub found: Chosen,
    pub seen: Set,
}

// The least character that a base shares with the bases at some positions of y, or `code` where that comes sooner. The
// layout may have room for more blocks.
fn sooner(code: usize, base: Set, row: Set, y: &[u64], layout: &[LaidBlock]) -> usize
    requires { Slotted y.now layout.now }
    ensures { Sooner (slot_at (shape_of y.now)) (set_of base) (set_of row) code result }
{
    if sets::is_empty(row) {
        return code;
    }
    let laid = &layout[..y.len() / shapes::SIZE];
    let shared = sets::both(base, row_steps::joined(row, y, laid));
    if sets::is_empty(shared) {
        return code;
    }
    code.min(sets::first(shared))
}

// One position i, beside which both can take a character at the positions `here` of y.
fn weigh(y: &[u64], layout: &[LaidBlock], base: Set, here: Set, i: usize, g: Weighed) -> Weighed
    requires slotted { Slotted y.now layout.now }
    requires i_bound { i < 256 }
    ensures { WeighedBy (slot_at (shape_of y.now)) (set_of base) (set_of here) i g result }
{
    let found = g.found;
    if sets::is_empty(here) {
        return Weighed {
            found: Chosen {
                kept: sets::without(found.kept, sets::single(i)),
                ..found
            },
            ..g
        };
    }
    Weighed {
        found: Chosen {
            code: sooner(found.code, base, sets::without(here, g.seen), y, layout),
            ..found
        },
        seen: sets::either(g.seen, here),
    }
}

// Positions with one base, weighed until none is left, or none can bring a character that comes sooner, since the base
// has none below `least` at hand.
pub fn weigh_all(
    both: &Both,
    base: Set,
    least: usize,
    beside: Set,
    members: Set,
    begun: Weighed,
) -> Weighed
    requires slotted { Slotted both.now.y.now both.now.layout_y.now × (length both.now.rows.now ≡ table_size) }
    requires by_index { (i : ℕ) → Holds (set_of members) i → i < 250 }
    ensures { WeighedAll both.now.y.now both.now.rows.now (set_of base) least (set_of beside) (set_of members) begun result }
{
    let mut left = members;
    let mut g = begun;
    while !sets::is_empty(left) {
        if g.found.code <= least {
            return g;
        }
        let i = sets::first(left);
        left = sets::without(left, sets::single(i));
        let here = sets::both(sets::down(both.rows[i + 1]), beside);
        g = weigh(both.y, both.layout_y, base, here, i, g);
    }
    g
}
