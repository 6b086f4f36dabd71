// Narrowing under "at most" and "before": for each side only one text of the other matters.

#![tactic(auto)]

ghost use Rattle.std.specs.Prelude.{◌≡◌, true, false, ◌≤◌, length};
ghost use Rattle.shapes.specs.Shape.{text_of};
ghost use Rattle.shapes.specs.Lent.{shape_of, Accepted};
ghost use Rattle.texts.specs.Order.{AtMost, Before};
ghost use Rattle.extreme_steps.specs.Steps.{extreme};
ghost use Rattle.pairs.specs.Narrow.{NarrowAnswer};
ghost use Rattle.order_guides.specs.Sides.{Side};
ghost use Rattle.order_by_text.specs.Narrowed.{One};

use extreme_steps::Direction;
use order_guides::Bound;

// Narrows a shape to the side d of the least or the greatest text, as e says, of another shape.
fn narrow_by(
    d: Direction,
    e: Direction,
    strict: bool,
    x: &[u64],
    other: &[u64],
    out: &mut [u64],
) -> bool
    requires accepted { Accepted x.now }
    requires accepted_2 { Accepted other.now }
    requires x_in_bounds { length x.now ≤ length out.old }
    ensures { One (λ f. Side d strict (text_of f) (extreme e (shape_of other.now))) x.now out.old out.new result }
{
    let mut text = [0; 250];
    let m = extremes::write_extreme(e, other, &mut text);
    let bound = Bound {
        direction: d,
        strict,
        text: &text[..m],
    };
    order_by_text::narrow_side(bound, x, out)
}

// Narrows two shapes under "x at most y", or under "x before y" if strict: x by the greatest text of y, then y by the
// least text of x.
pub fn narrow_order(
    strict: bool,
    x: &[u64],
    y: &[u64],
    out_x: &mut [u64],
    out_y: &mut [u64],
) -> bool
    requires accepted { Accepted x.now }
    requires accepted_2 { Accepted y.now }
    requires x_in_bounds { (length x.now ≤ length out_x.old) × (length y.now ≤ length out_y.old) }
    ensures narrow_answer { strict ≡ false → NarrowAnswer AtMost x.now y.now out_x.old out_y.old out_x.new out_y.new result }
    ensures narrow_answer_2 { strict ≡ true → NarrowAnswer Before x.now y.now out_x.old out_y.old out_x.new out_y.new result }
{
    narrow_by(Direction::Least, Direction::Greatest, strict, x, y, out_x)
        && narrow_by(Direction::Greatest, Direction::Least, strict, y, x, out_y)
}
