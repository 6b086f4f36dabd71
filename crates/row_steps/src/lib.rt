// What steps lead to: a row closed under the ends of runs, forwards and backwards; and what pairs of sets pick.

#![tactic(auto)]

ghost use Rattle.std.specs.Prelude.{◌≡◌, ℕ, List, true, false, ◌*◌, ◌/◌, ◌%◌, ◌^◌, ◌<◌, ◌≤◌, length, bit_and};
ghost use Rattle.std.proofs.Common.{rules};
ghost use Rattle.std.specs.Int.Bits.{bit_or};
ghost use Rattle.bases.specs.Base.{Empty, Meets};
ghost use Rattle.plain.specs.Tells.{Tells};
ghost use Rattle.sets.specs.declared.Set.{Set};
ghost use Rattle.sets.specs.Set.{set_of, Exactly};
ghost use Rattle.shapes.specs.Lent.{block_at};
ghost use Rattle.rows.specs.Row.{row_in, zone_in, end_in, slot_in};
ghost use Rattle.rows.specs.Steps.{Leads, Lands, InTurn, MeetsOne, Given, Together, ClosedForth, ClosedBack};
ghost use Rattle.shapes.specs.Shape.{block_count};
ghost use Rattle.carries.specs.Climb.{Spans};

use rows::LaidBlock;
use sets::Set;

// A row closed backwards, and the positions at which a run may end and land in it: in four words or in one.
#[derive(Clone, Copy)]
pub struct Closed<R> {
    pub row: R,
    pub quit: R,
}

// All from which s is reached where a run that may end at a position of a zone is then at its end, from the last block
// to the first.
fn back(layout: &[LaidBlock], s: Set) -> Closed<Set>
    requires { InTurn (zone_in layout.now) (end_in layout.now) (length layout.now) }
    ensures exactly { Exactly (set_of result.row) (Leads (zone_in layout.now) (end_in layout.now) (length layout.now) (set_of s)) }
    ensures exactly_2 { Exactly (set_of result.quit) (Lands (zone_in layout.now) (end_in layout.now) (length layout.now) (set_of result.row)) }
{
    let mut row = s;
    let mut quit = sets::none();
    for j in (0..layout.len()).rev() {
        let laid = layout[j];
        if sets::meets(row, laid.end) {
            row = sets::either(row, laid.zone);
            quit = sets::either(quit, laid.zone);
        }
    }
    Closed { row, quit }
}

// Where any run may end, and where it then is.
#[derive(Clone, Copy)]
pub struct Runs {
    pub free: Set,
    pub stops: Set,
}

pub fn all_runs(layout: &[LaidBlock]) -> Runs
    ensures { Together (zone_in layout.now) (end_in layout.now) (length layout.now) (set_of result.free) (set_of result.stops) }
{
    let mut free = sets::none();
    let mut stops = sets::none();
    for laid in layout {
        free = sets::either(free, laid.zone);
        stops = sets::either(stops, laid.end);
    }
    Runs { free, stops }
}

// All that is reached from s by the ends of runs.
pub fn close_forth(runs: Runs, s: Set) -> Set
    ensures { ClosedForth (set_of runs.free) (set_of runs.stops) (set_of s) (set_of result) }
{
    let stops = runs.stops;
    sets::either(s, sets::both(carries::climb(runs.free, s), stops))
}

// All from which s is reached by the ends of runs. `spans` are those of the free positions.
fn close_back(spans: &[Set], runs: Runs, s: Set) -> Closed<Set>
    requires { Spans (set_of runs.free) spans.now }
    ensures { ClosedBack (set_of runs.free) (set_of runs.stops) (set_of s) (set_of result.row) (set_of result.quit) }
{
    let stops = runs.stops;
    let quit = carries::fall(runs.free, spans, sets::both(s, stops));
    Closed {
        row: sets::either(s, quit),
        quit,
    }
}

// The same in one word, whichever layout these are the free positions and the ends of.
pub fn close_back_word(free: u64, stops: u64, s: u64) -> Closed<u64>
    ensures { ClosedBack free stops s result.row result.quit }
{
    let quit = carries::fall_to_word(free, s & stops);
    Closed {
        row: s | quit,
        quit,
    }
}

// The same; through few runs it is quicker to go one by one.
pub fn back_by(layout: &[LaidBlock], spans: &[Set], runs: Runs, s: Set) -> Closed<Set>
    requires in_turn { InTurn (zone_in layout.now) (end_in layout.now) (length layout.now) }
    requires together { Together (zone_in layout.now) (end_in layout.now) (length layout.now) (set_of runs.free) (set_of runs.stops) × Spans (set_of runs.free) spans.now }
    ensures exactly { Exactly (set_of result.row) (Leads (zone_in layout.now) (end_in layout.now) (length layout.now) (set_of s)) }
    ensures exactly_2 { Exactly (set_of result.quit) (Lands (zone_in layout.now) (end_in layout.now) (length layout.now) (set_of result.row)) }
{
    if layout.len() < 4 {
        return back(layout, s);
    }
    close_back(spans, runs, s)
}

// The positions of the blocks laid out whose base meets a base.
pub fn matching(base: Set, blocks: &[u64], layout: &[LaidBlock]) -> Set
    requires { length layout.now ≤ block_count blocks.now }
    ensures { Exactly (set_of result) (MeetsOne (λ j. (block_at blocks.now j).base) (slot_in layout.now) (length layout.now) (set_of base)) }
{
    let mut r = sets::none();
    for (j, laid) in layout.iter().enumerate() {
        let b = shapes::block_at(blocks, j);
        if sets::meets(base, b.base) {
            r = sets::either(r, laid.slot);
        }
    }
    r
}

// Adds a row where it counts.
pub fn with<R: Row>(s: R, t: R, on: bool) -> R
    ensures result_value { on ≡ true → R.bits result ≡ bit_or (R.bits s) (R.bits t) }
    ensures result_value_2 { on ≡ false → R.bits result ≡ R.bits s }
{
    if on { s.either(t) } else { s }
}

// The bases of the blocks laid out whose positions meet a row.
fn joined_wide(row: Set, blocks: &[u64], layout: &[LaidBlock]) -> Set
    requires { length layout.now ≤ block_count blocks.now }
    ensures { Exactly (set_of result) (MeetsOne (slot_in layout.now) (λ j. (block_at blocks.now j).base) (length layout.now) (set_of row)) }
{
    let mut r = sets::none();
    for (j, laid) in layout.iter().enumerate() {
        if sets::meets(row, laid.slot) {
            let b = shapes::block_at(blocks, j);
            r = sets::either(r, b.base);
        }
    }
    r
}

// The same of a row in one word, without a branch. A closure for the test would not make one of the two: above, a block
// is read only where the test holds.
fn joined_word(row: u64, blocks: &[u64], layout: &[LaidBlock]) -> Set
    requires { length layout.now ≤ block_count blocks.now }
    ensures { Exactly (set_of result) (MeetsOne (slot_in layout.now) (λ j. (block_at blocks.now j).base) (length layout.now) row) }
{
    let mut r = sets::none();
    for (j, laid) in layout.iter().enumerate() {
        let b = shapes::block_at(blocks, j);
        r = with(r, b.base, carries::meets_word(laid.slot, row));
    }
    r
}

pub fn joined(row: Set, blocks: &[u64], layout: &[LaidBlock]) -> Set
    requires { length layout.now ≤ block_count blocks.now }
    ensures { Exactly (set_of result) (MeetsOne (slot_in layout.now) (λ j. (block_at blocks.now j).base) (length layout.now) (set_of row)) }
{
    match carries::as_word(row) {
        Some(w) => joined_word(w, blocks, layout),
        None => joined_wide(row, blocks, layout),
    }
}

// Adds a base to the set given to each block laid out whose positions meet a row.
fn give_wide(row: Set, base: Set, layout: &[LaidBlock], given: &mut [Set])
    requires { length layout.now ≤ length given.old }
    ensures given { Given (slot_in layout.now) (length layout.now) (set_of row) (set_of base) (row_in given.old) (row_in given.new) }
    ensures given_len_unchanged { length given.new ≡ length given.old }
{
    for (j, laid) in layout.iter().enumerate() {
        if sets::meets(row, laid.slot) {
            given[j] = sets::either(given[j], base);
        }
    }
}

// The same of a row in one word, without a branch, so that the two differ in more than a test that a closure could be.
fn give_word(row: u64, base: Set, layout: &[LaidBlock], given: &mut [Set])
    requires { length layout.now ≤ length given.old }
    ensures given { Given (slot_in layout.now) (length layout.now) row (set_of base) (row_in given.old) (row_in given.new) }
    ensures given_len_unchanged { length given.new ≡ length given.old }
{
    for (j, laid) in layout.iter().enumerate() {
        given[j] = with(given[j], base, carries::meets_word(laid.slot, row));
    }
}

pub fn give(row: Set, base: Set, layout: &[LaidBlock], given: &mut [Set])
    requires { length layout.now ≤ length given.old }
    ensures given { Given (slot_in layout.now) (length layout.now) (set_of row) (set_of base) (row_in given.old) (row_in given.new) }
    ensures given_len_unchanged { length given.new ≡ length given.old }
{
    match carries::as_word(row) {
        Some(w) => give_word(w, base, layout, given),
        None => give_wide(row, base, layout, given),
    }
}

// Both at once, through the blocks once: the base goes to the set given to each whose positions meet a row, and the
// bases of those blocks are given.
fn share_wide(row: Set, base: Set, blocks: &[u64], layout: &[LaidBlock], given: &mut [Set]) -> Set
    requires { (length layout.now ≤ block_count blocks.now) × (length layout.now ≤ length given.old) }
    ensures exactly { Exactly (set_of result) (MeetsOne (slot_in layout.now) (λ j. (block_at blocks.now j).base) (length layout.now) (set_of row)) }
    ensures given { Given (slot_in layout.now) (length layout.now) (set_of row) (set_of base) (row_in given.old) (row_in given.new) }
    ensures given_len_unchanged { length given.new ≡ length given.old }
{
    let mut r = sets::none();
    for (j, laid) in layout.iter().enumerate() {
        if sets::meets(row, laid.slot) {
            let b = shapes::block_at(blocks, j);
            r = sets::either(r, b.base);
            given[j] = sets::either(given[j], base);
        }
    }
    r
}

pub fn share(row: Set, base: Set, blocks: &[u64], layout: &[LaidBlock], given: &mut [Set]) -> Set
    requires { (length layout.now ≤ block_count blocks.now) × (length layout.now ≤ length given.old) }
    ensures exactly { Exactly (set_of result) (MeetsOne (slot_in layout.now) (λ j. (block_at blocks.now j).base) (length layout.now) (set_of row)) }
    ensures given { Given (slot_in layout.now) (length layout.now) (set_of row) (set_of base) (row_in given.old) (row_in given.new) }
    ensures given_len_unchanged { length given.new ≡ length given.old }
{
    match carries::as_word(row) {
        Some(w) => {
            give_word(w, base, layout, given);
            joined_word(w, blocks, layout)
        }
        None => share_wide(row, base, blocks, layout, given),
    }
}

// A row of equality's passes, in four words or in one, and what these do with it.
pub trait Row: Copy {
    ghost bits: { Self → ℕ };

    // Its numbers are below this.
    ghost room: { ℕ };

    ghost CanRise: { Self → Type 0 };

    // That a row can have all the numbers of a set.
    ghost Fits: { Set → Type 0 };

    // That these are the spans of the free positions, where a row wants them.
    ghost Spanned: { Self → List Set → Type 0 };

    fn none() -> Self
        ensures { bits result ≡ 0 };

    // A set that fits as a row.
    fn of(s: Set) -> Self
        ensures { Fits s → bits result ≡ set_of s };

    fn set(self) -> Set
        ensures set { set_of result ≡ bits self }
        ensures fits { Fits result };

    // The numbers of both.
    fn both(self, t: Self) -> Self
        ensures { bits result ≡ bit_and (bits self) (bits t) };

    // Those of a set that the row has too.
    fn within(self, s: Set) -> Self
        ensures { bits result ≡ bit_and (set_of s) (bits self) };

    fn either(self, t: Self) -> Self
        ensures { bits result ≡ bit_or (bits self) (bits t) };

    // The numbers of both, each one up: `CanRise` says that none is lost.
    fn rise(self, mine: Self) -> Self
        requires { CanRise mine }
        ensures { bits result ≡ bit_and (bits self) (bits mine) * 2 % 2 ^ 256 };

    // Each number one down.
    fn down(self) -> Self
        ensures { bits result ≡ bits self / 2 };

    fn is_empty(self) -> bool
        ensures { Tells result (Empty (bits self)) };

    // Whether it shares a number with a set.
    fn meets(self, s: Set) -> bool
        ensures { Tells result (Meets (set_of s) (bits self)) };

    // The set of one number that a row has room for.
    fn single(i: usize) -> Set
        requires { i < room }
        ensures { Exactly (set_of result) (λ e. e ≡ i) };

    // All that is reached from s by the ends of runs.
    fn forth(free: Self, stops: Self, s: Self) -> Self
        ensures { ClosedForth (bits free) (bits stops) (bits s) (bits result) };

    // All from which s is reached by the ends of runs.
    fn back(layout: &[LaidBlock], spans: &[Set], free: Self, stops: Self, s: Self) -> Closed<Self>
        requires in_turn { InTurn (zone_in layout.now) (end_in layout.now) (length layout.now) }
        requires together { Together (zone_in layout.now) (end_in layout.now) (length layout.now) (bits free) (bits stops) }
        requires spanned { Spanned free spans.now }
        ensures exactly { Exactly (bits result.row) (Leads (zone_in layout.now) (end_in layout.now) (length layout.now) (bits s)) }
        ensures exactly_2 { Exactly (bits result.quit) (Lands (zone_in layout.now) (end_in layout.now) (length layout.now) (bits result.row)) };

    // A set has room for all that a row has room for.
    ghost narrow: { room ≤ 256 };
}

impl Row for Set {
    ghost bits = { set_of };

    ghost room = { 256 };

    ghost CanRise = { λ s. Unit {0} };

    ghost Fits = { λ s. Unit {0} };

    ghost Spanned = { λ s l. Spans (set_of s) l };

    ghost narrow = { Prim.search rules };

    fn none() -> Set {
        sets::none()
    }

    fn of(s: Set) -> Set {
        s
    }

    fn set(self) -> Set {
        self
    }

    fn both(self, t: Set) -> Set {
        sets::both(self, t)
    }

    fn within(self, s: Set) -> Set {
        sets::both(s, self)
    }

    fn either(self, t: Set) -> Set {
        sets::either(self, t)
    }

    fn rise(self, mine: Set) -> Set {
        sets::up(sets::both(self, mine))
    }

    fn down(self) -> Set {
        sets::down(self)
    }

    fn is_empty(self) -> bool {
        sets::is_empty(self)
    }

    fn meets(self, s: Set) -> bool {
        sets::meets(s, self)
    }

    fn single(i: usize) -> Set {
        sets::single(i)
    }

    fn forth(free: Set, stops: Set, s: Set) -> Set {
        close_forth(Runs { free, stops }, s)
    }

    fn back(layout: &[LaidBlock], spans: &[Set], free: Set, stops: Set, s: Set) -> Closed<Set> {
        back_by(layout, spans, Runs { free, stops }, s)
    }
}

impl Row for u64 {
    ghost bits = { λ w. w };

    ghost room = { 64 };

    ghost CanRise = { λ w. w < 9223372036854775808 };

    ghost Fits = { λ s. set_of s ≡ s.a };

    ghost Spanned = { λ w l. Unit {0} };

    ghost narrow = { Prim.search rules };

    fn none() -> u64 {
        0
    }

    fn of(s: Set) -> u64 {
        s.a
    }

    fn set(self) -> Set {
        carries::word_set(self)
    }

    fn both(self, t: u64) -> u64 {
        self & t
    }

    fn within(self, s: Set) -> u64 {
        carries::in_word(s, self)
    }

    fn either(self, t: u64) -> u64 {
        self | t
    }

    fn rise(self, mine: u64) -> u64 {
        (self & mine) << 1
    }

    fn down(self) -> u64 {
        self >> 1
    }

    fn is_empty(self) -> bool {
        self == 0
    }

    fn meets(self, s: Set) -> bool {
        carries::meets_word(s, self)
    }

    // One shift, where `single` of a set tries each word.
    fn single(i: usize) -> Set {
        carries::word_set(1u64 << i)
    }

    fn forth(free: u64, stops: u64, s: u64) -> u64 {
        s | carries::climb_word(free, s) & stops
    }

    fn back(_layout: &[LaidBlock], _spans: &[Set], free: u64, stops: u64, s: u64) -> Closed<u64> {
        close_back_word(free, stops, s)
    }
}
