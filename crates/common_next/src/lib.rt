// One character more of a common text: which is the least that may come, and to which positions it leads.

#![tactic(auto)]

ghost use Rattle.std.specs.Prelude.{◌≡◌, true, List, ℕ, ◌+◌, ◌<◌};
ghost use Rattle.bases.specs.Base.{Holds};
ghost use Rattle.sets.specs.Set.{set_of, Exactly};
ghost use Rattle.shapes.specs.Shape.{block_count};
ghost use Rattle.shapes.specs.Lent.{shape_of};
ghost use Rattle.walks.specs.Walk.{slot_at};
ghost use Rattle.common_back.specs.Back.{EndRows};
ghost use Rattle.common_weighs.specs.Next.{RunsEnded, After, RunEnds, Slotted};
ghost use Rattle.common_weighs.specs.Code.{NearHas, ChosenBy, ChosenTo};

use common_weighs::{Both, Chosen, Weighed};
use row_steps::Runs;
use rows::LaidBlock;
use sets::Set;

// Where the text so far leads in one shape, where its last character may stand in it, and where its runs may end.
#[derive(Clone, Copy)]
pub struct Front {
    pub row: Set,
    pub takes: Set,
    pub runs: Runs,
}

// Where the character may stand: as before if it is the same again. The layout may have room for more blocks.
fn taking(shape: &[u64], layout: &[LaidBlock], takes: Set, again: bool, code: usize) -> Set
    requires slotted { Slotted shape.now layout.now }
    requires code_bound { code < 256 }
    requires exactly { again ≡ true → Exactly (set_of takes) (λ q. Holds (slot_at (shape_of shape.now) q).base code) }
    ensures { Exactly (set_of result) (λ q. Holds (slot_at (shape_of shape.now) q).base code) }
{
    if again {
        return takes;
    }
    let laid = &layout[..shape.len() / shapes::SIZE];
    row_steps::matching(sets::single(code), shape, laid)
}

// A row with what the ends of runs lead to from it; nothing more where no run may end.
fn onward(runs: Runs, s: Set) -> Set
    ensures { (x : List ℕ) → RunEnds x (set_of runs.free) (set_of runs.stops) → Exactly (set_of result) (RunsEnded (slot_at (shape_of x)) (set_of s)) }
{
    if sets::meets(s, runs.free) {
        return row_steps::close_forth(runs, s);
    }
    s
}

// One shape read one character on.
pub fn read(shape: &[u64], layout: &[LaidBlock], side: Front, again: bool, code: usize) -> Front
    requires slotted { Slotted shape.now layout.now }
    requires code_bound { (code < 256) × RunEnds shape.now (set_of side.runs.free) (set_of side.runs.stops) }
    requires exactly { again ≡ true → Exactly (set_of side.takes) (λ q. Holds (slot_at (shape_of shape.now) q).base code) }
    ensures exactly_2 { Exactly (set_of result.takes) (λ q. Holds (slot_at (shape_of shape.now) q).base code) }
    ensures exactly_3 { Exactly (set_of result.row) (After (slot_at (shape_of shape.now)) (set_of side.row) code) }
    ensures run_ends { RunEnds shape.now (set_of result.runs.free) (set_of result.runs.stops) }
{
    let takes = taking(shape, layout, side.takes, again, code);
    let taken = sets::up(sets::both(side.row, takes));
    Front {
        row: onward(side.runs, taken),
        takes,
        ..side
    }
}

// Block a: its positions are weighed as far as need be; `near` has the characters at the positions `other` of y.
fn weigh_block(both: &Both, a: usize, own: Set, other: Set, near: Set, found: Chosen) -> Chosen
    requires slotted { Slotted both.now.x.now both.now.layout_x.now × Slotted both.now.y.now both.now.layout_y.now }
    requires end_rows { EndRows both.now.x.now both.now.y.now both.now.mines.now both.now.rows.now }
    requires a_bound { a < block_count both.now.x.now }
    requires near_has { NearHas both.now.y.now (set_of other) (set_of near) }
    requires chosen_to { ChosenTo both.now.x.now both.now.y.now a (set_of own) (set_of other) found }
    ensures { ChosenTo both.now.x.now both.now.y.now (a + 1) (set_of own) (set_of other) result }
{
    let left = sets::both(own, both.layout_x[a].slot);
    let b = shapes::block_at(both.x, a);
    let usable = sets::both(b.base, near);
    if sets::is_empty(usable) {
        return found;
    }
    let least = sets::first(usable);
    let beside = sets::both(other, both.mines[a]);
    let begun = Weighed {
        found,
        seen: sets::none(),
    };
    common_weighs::weigh_all(both, b.base, least, beside, left, begun).found
}

// The characters at the positions `other` of y. Where there is at most one position to weigh they are not asked for,
// and all will do.
fn nearby(own: Set, other: Set, y: &[u64], layout: &[LaidBlock]) -> Set
    requires { Slotted y.now layout.now }
    ensures { NearHas y.now (set_of other) (set_of result) }
{
    if sets::is_empty(own) || sets::first(own) == sets::last(own) {
        return sets::below(256);
    }
    row_steps::joined(other, y, &layout[..y.len() / shapes::SIZE])
}

// The least character that may come next where the text so far leads to the positions `own` of x and `other` of y; 256
// if none may.
pub fn next(both: &Both, own: Set, other: Set) -> Chosen
    requires slotted { Slotted both.now.x.now both.now.layout_x.now × Slotted both.now.y.now both.now.layout_y.now }
    requires end_rows { EndRows both.now.x.now both.now.y.now both.now.mines.now both.now.rows.now }
    ensures { ChosenBy both.now.x.now both.now.y.now (Holds (set_of own)) (set_of own) (set_of other) result.code (set_of result.kept) }
{
    let near = nearby(own, other, both.y, both.layout_y);
    let mut g = Chosen {
        code: 256,
        kept: own,
    };
    for a in 0..both.x.len() / shapes::SIZE {
        if sets::meets(own, both.layout_x[a].slot) {
            g = weigh_block(both, a, own, other, near, g);
        }
    }
    g
}
