// The row of places before a block from the row after it: between lower and upper steps over its characters.

#![tactic(auto)]

ghost use Rattle.std.specs.Prelude.{◌≡◌, List, ◌∷◌, ◌+◌, ℕ, length};
ghost use Rattle.bases.specs.Base.{Holds};
ghost use Rattle.sets.specs.Set.{set_of, Exactly};
ghost use Rattle.shapes.specs.Shape.{Sound};
ghost use Rattle.shapes.specs.Shape.{Block as Meant};
ghost use Rattle.shapes.specs.Lent.{meant};
ghost use Rattle.fit_rows.specs.Rows.{HeldAt, Steps, StepsUpTo, Row};

use sets::Set;
use shapes::Block;

// The places from which one held character leads to a place of s.
fn step(s: Set, held: Set) -> Set
    ensures { Exactly (set_of result) (λ p. Holds (set_of held) p × Holds (set_of s) (p + 1)) }
{
    sets::both(sets::down(s), held)
}

// The places from which so many held characters lead to a place of s.
fn steps(s: Set, held: Set, count: u64) -> Set
    ensures { Exactly (set_of result) (Steps (set_of held) (set_of s) count) }
{
    let mut r = s;
    for _ in 0..count {
        r = step(r, held);
    }
    r
}

// The places from which at most so many held characters lead to a place of s.
fn steps_up_to(s: Set, held: Set, count: u64) -> Set
    ensures { Exactly (set_of result) (StepsUpTo (set_of held) (set_of s) count) }
{
    let mut r = s;
    let mut d = s;
    for _ in 0..count {
        d = step(d, held);
        r = sets::either(r, d);
    }
    r
}

// The row of a block and those after it, from the row of those after it. A text of n characters: no run is longer.
pub fn row_before(b: Block, held: Set, after: Set, n: usize) -> Set
    requires { Sound (meant b) }
    ensures { (s : List Meant) (t : List ℕ) → length t ≡ n → HeldAt (meant b).base t (set_of held) → Row s t (set_of after) → Row (meant b ∷ s) t (set_of result) }
{
    let least = steps(after, held, b.lower);
    let more = (b.upper - b.lower).min(n as u64);
    steps_up_to(least, held, more)
}
