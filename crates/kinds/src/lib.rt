// Narrowing two texts under the relation of a rule's kind.

#![tactic(auto)]

ghost use Rattle.std.specs.Prelude.{◌≡◌, ◌≤◌, length, MatchOption};
ghost use Rattle.texts.specs.Kind.{relation_of, OfTwo};
ghost use Rattle.pairs.specs.Pair.{PairAccepted};
ghost use Rattle.pairs.specs.Narrow.{NarrowAnswer, NarrowPromise};
ghost use Rattle.kinds.specs.Relation.{kind_of};

use answers::{Narrowed, Refusal};

// The relation that a rule of two texts asks for: equal once trailing blanks are dropped, at most, before, equal to the
// letter, equal but for letter case.
#[derive(Clone, Copy)]
pub enum Relation {
    Padded,
    AtMost,
    Before,
    Exact,
    AnyCase,
}

impl Relation {
    // That of a rule's kind; a join has none, and neither has a number that is no kind.
    pub fn of(kind: u64) -> Option<Relation>
        ensures { MatchOption result (OfTwo kind → ⊥) (λ r. kind_of r ≡ kind) }
    {
        match kind {
            rules::PADDED => Some(Relation::Padded),
            rules::AT_MOST => Some(Relation::AtMost),
            rules::BEFORE => Some(Relation::Before),
            rules::EXACT => Some(Relation::Exact),
            rules::ANY_CASE => Some(Relation::AnyCase),
            _ => None,
        }
    }
}

// Narrows two accepted shapes into outputs with enough room. The match stays here: whoever lent a closure for the
// relation would make it, and each of the closures would take the same four slices.
pub fn narrow_accepted(
    relation: Relation,
    x: &[u64],
    y: &[u64],
    out_x: &mut [u64],
    out_y: &mut [u64],
) -> bool
    requires pair_accepted { PairAccepted x.now y.now }
    requires x_in_bounds { (length x.now ≤ length out_x.old) × (length y.now ≤ length out_y.old) }
    ensures { NarrowAnswer (relation_of (kind_of relation)) x.now y.now out_x.old out_y.old out_x.new out_y.new result }
{
    match relation {
        Relation::Padded => equals::narrow_padded(x, y, out_x, out_y),
        Relation::AtMost => orders::narrow_order(false, x, y, out_x, out_y),
        Relation::Before => orders::narrow_order(true, x, y, out_x, out_y),
        Relation::Exact => equals::narrow_exact(x, y, out_x, out_y),
        Relation::AnyCase => any_case::narrow_any_case(x, y, out_x, out_y),
    }
}

// The call: the refusals of a pair, then the narrowing; the work buffer is handed back cleared. Shapes, work and
// outputs stand singly, as in the calls of document 01.
pub fn narrow(
    relation: Relation,
    x: &[u64],
    y: &[u64],
    work: &mut [u8],
    out_x: &mut [u64],
    out_y: &mut [u64],
) -> Result<Narrowed, Refusal>
    ensures { NarrowPromise (relation_of (kind_of relation)) x.now y.now work.old out_x.old out_y.old
        work.new out_x.new out_y.new result }
{
    pair_checks::check_narrow(x, y, work.len(), out_x.len(), out_y.len())?;
    pairs::clear(work);
    if narrow_accepted(relation, x, y, out_x, out_y) {
        return Ok(Narrowed::Narrow);
    }
    Ok(Narrowed::None)
}
