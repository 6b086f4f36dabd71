// The earliest text that both shapes can end with, from where they stand, by recursion: its first character, then what
// remains.

#![tactic(auto)]

ghost use Rattle.std.specs.Prelude.{◌≡◌, ◌≤◌, ◌<◌, length};
ghost use Rattle.bases.specs.Base.{Holds};
ghost use Rattle.plain.specs.Tells.{Tells};
ghost use Rattle.sets.specs.Set.{set_of};
ghost use Rattle.shapes.specs.Shape.{total};
ghost use Rattle.shapes.specs.Lent.{shape_of};
ghost use Rattle.walks.specs.Walk.{slot_at};
ghost use Rattle.common_writes.specs.Code.{BothLaid, Stands, AtMostLeft, Meeting, EarliestWritten};

use common_next::Front;
use common_weighs::Both;
use sets::Set;

// The positions past all blocks of both shapes.
#[derive(Clone, Copy)]
pub struct Totals {
    pub own: usize,
    pub other: usize,
}

// Whether the text so far may end in both.
fn may_end(own: Set, other: Set, last: Totals) -> bool
    requires { (last.own < 256) × (last.other < 256) }
    ensures { Tells result (Holds (set_of own) last.own × Holds (set_of other) last.other) }
{
    sets::has(own, last.own) && sets::has(other, last.other)
}

// The earliest text from where both stand, of at most `left` characters, and its length; `code` is the character before
// it.
pub fn write(
    both: &Both,
    last: Totals,
    left: usize,
    code: usize,
    own: Front,
    other: Front,
    out: &mut [u8],
) -> usize
    requires both_laid { BothLaid both.now.x.now both.now.y.now both.now.layout_x.now both.now.layout_y.now both.now.mines.now both.now.rows.now }
    requires own_value { (last.own ≡ total (shape_of both.now.x.now)) × (last.other ≡ total (shape_of both.now.y.now)) }
    requires stands { Stands both.now.x.now code own × Stands both.now.y.now code other }
    requires meeting { Meeting (slot_at (shape_of both.now.x.now)) (slot_at (shape_of both.now.y.now)) (total (shape_of both.now.x.now)) (total (shape_of both.now.y.now)) (set_of own.row) (set_of other.row) }
    requires at_most_left { AtMostLeft both.now.x.now (set_of own.row) left × (left ≤ length out.old) }
    ensures { EarliestWritten both.now.x.now both.now.y.now (set_of own.row) (set_of other.row) out.old out.new result }
{
    if may_end(own.row, other.row, last) {
        return 0;
    }
    let found = common_next::next(both, own.row, other.row);
    let c = found.code;
    let kept = Front {
        row: found.kept,
        ..own
    };
    let first = common_next::read(both.x, both.layout_x, kept, c == code, c);
    let second = common_next::read(both.y, both.layout_y, other, c == code, c);
    out[0] = c as u8;
    let n = write(both, last, left - 1, c, first, second, &mut out[1..]);
    n + 1
}
