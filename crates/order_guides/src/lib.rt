// The guide of a fixed text, asked at one of its states.

#![tactic(auto)]

ghost use Rattle.std.specs.Prelude.{◌≡◌, Bool, List, ◌+◌, ◌≤◌, ◌<◌, length, ℕ, slice_index};
ghost use Rattle.plain.specs.Tells.{Tells};
ghost use Rattle.sets.specs.Set.{set_of};
ghost use Rattle.order_guides.specs.Guide.{beyond_of, past_of, shorter_of, next_of, apart_of, ends_of, guide_of, Steady};

use extreme_steps::Direction;
use sets::Set;

// What texts are held to: at most a fixed text (least) or at least it (greatest), before or after it if strict.
#[derive(Clone, Copy)]
pub struct Bound<'a> {
    pub direction: Direction,
    pub strict: bool,
    pub text: &'a [u8],
}

// The character after q of a text.
pub fn same_at(text: &[u8], q: usize) -> Set
    ensures { set_of result ≡ next_of text.now q }
{
    match text.get(q) {
        Some(c) => sets::single(*c as usize),
        None => sets::none(),
    }
}

// The characters on the right side of c. The two directions differ by a line here and in the next two functions.
fn beyond(d: Direction, c: u8) -> Set
    ensures { set_of result ≡ beyond_of d c }
{
    match d {
        Direction::Least => sets::below(c as usize),
        Direction::Greatest => sets::between(c as usize + 1, 256),
    }
}

// The characters on the right side of the end.
fn past(d: Direction) -> Set
    ensures { set_of result ≡ past_of d }
{
    match d {
        Direction::Least => sets::none(),
        Direction::Greatest => sets::below(256),
    }
}

// The characters that part from the fixed text after q of it.
pub fn apart_at(bound: Bound, q: usize) -> Set
    ensures { set_of result ≡ apart_of bound.entry.direction bound.entry.text.now q }
{
    match bound.text.get(q) {
        Some(c) => beyond(bound.direction, *c),
        None => past(bound.direction),
    }
}

// Whether a text that is shorter is on the right side.
fn shorter(d: Direction) -> bool
    ensures { Tells result (0 < shorter_of d) }
{
    match d {
        Direction::Least => true,
        Direction::Greatest => false,
    }
}

// Whether a text may end after q characters.
pub fn may_end(bound: Bound, q: usize) -> bool
    ensures { (T : List ℕ) → length T ≡ length bound.entry.text.now → Tells result (0 < ends_of bound.entry.direction bound.entry.strict T q) }
{
    if q < bound.text.len() {
        return shorter(bound.direction);
    }
    !bound.strict
}

// From where on a text is c alone.
fn run_of(text: &[u8], c: u8) -> usize
    ensures within { result ≤ length text.now }
    ensures same { (q : ℕ) → result ≤ q → q < length text.now → slice_index text.now q ≡ c }
{
    text.iter().rposition(|b| *b != c).map_or(0, |at| at + 1)
}

// From where on the guide says what it says at hi - 1.
pub fn steady_from(bound: Bound, hi: usize) -> usize
    requires hi_nonzero { (0 < hi) × (hi ≤ length bound.text.now + 1) }
    ensures upper_bound { result < hi }
    ensures steady { (d : Direction) (strict : Bool) → Steady (guide_of d strict bound.entry.text.now) result hi }
{
    let last = hi - 1;
    match bound.text.get(last) {
        Some(c) => run_of(&bound.text[..last], *c),
        None => last,
    }
}
