// What climbs and what falls through numbers without a gap: up by what a sum of sets carries, down by steps twice as
// far each time. And sets of one word.

#![tactic(auto)]

ghost use Rattle.std.specs.Prelude.{◌≡◌, ◌+◌, ◌*◌, ◌/◌, ◌%◌, ◌^◌, ◌<◌, ◌≤◌, true, false, length, take, bit_and, bit_xor, MatchOption};
ghost use Rattle.bases.specs.Base.{Empty, Meets};
ghost use Rattle.plain.specs.Tells.{Tells};
ghost use Rattle.sets.specs.Set.{set_of, Exactly};
ghost use Rattle.carries.specs.Climb.{Climbs, Falls, FallsFrom, Spans};

use sets::Set;

// The sum of two sets as numbers; what goes past 255 is lost.
fn plus(s: Set, t: Set) -> Set
    ensures { set_of result ≡ (set_of s + set_of t) % 2 ^ 256 }
{
    let (a, over) = s.a.carrying_add(t.a, false);
    let (b, over) = s.b.carrying_add(t.b, over);
    let (c, over) = s.c.carrying_add(t.c, over);
    let (d, _) = s.d.carrying_add(t.d, over);
    Set { a, b, c, d }
}

// The numbers of one of the two and not of both.
fn differing(s: Set, t: Set) -> Set
    ensures { (set_of result ≡ bit_xor (set_of s) (set_of t)) × (set_of result < 2 ^ 256) }
{
    Set {
        a: s.a ^ t.a,
        b: s.b ^ t.b,
        c: s.c ^ t.c,
        d: s.d ^ t.d,
    }
}

// All numbers past one of s to which the numbers of `free` lead up without a gap: a sum carries from there on.
fn climb_wide(free: Set, s: Set) -> Set
    ensures { Exactly (set_of result) (λ q. (q < 256) × Climbs (set_of free) (set_of s) q) }
{
    let x = sets::both(s, free);
    differing(differing(plus(x, free), x), free)
}

// The same; where one word has all free numbers the others are left out.
pub fn climb(free: Set, s: Set) -> Set
    ensures { Exactly (set_of result) (λ q. (q < 256) × Climbs (set_of free) (set_of s) q) }
{
    match as_word(free) {
        Some(w) => climb_wide(word_set(w), s),
        None => climb_wide(free, s),
    }
}

// Each number 64 down; those below are lost.
fn word_down(s: Set) -> Set
    ensures { set_of result ≡ set_of s / 2 ^ 64 }
{
    Set {
        a: s.b,
        b: s.c,
        c: s.d,
        d: 0,
    }
}

// Each number so many down, fewer than a word has.
fn bits_down(s: Set, k: usize) -> Set
    requires { k < 64 }
    ensures { set_of result ≡ set_of s / 2 ^ k }
{
    if k == 0 {
        return s;
    }
    let e = 64 - k;
    Set {
        a: s.a >> k | s.b << e,
        b: s.b >> k | s.c << e,
        c: s.c >> k | s.d << e,
        d: s.d >> k,
    }
}

// Each number so many down.
fn lower(s: Set, by: usize) -> Set
    ensures { set_of result ≡ set_of s / 2 ^ by }
{
    let mut r = s;
    for _ in 0..by / 64 {
        r = word_down(r);
    }
    bits_down(r, by % 64)
}

// Row l has the numbers from which those of `free` go on for 2 ^ l numbers without a gap; gives how many rows they are.
// One word needs none.
pub fn spans(free: Set, rows: &mut [Set]) -> usize
    requires { 8 ≤ length rows.old }
    ensures { (result ≤ length rows.new) × Spans (set_of free) (take result rows.new) }
{
    if is_word(free) {
        return 0;
    }
    let mut p = free;
    for l in 0..8 {
        if sets::is_empty(p) {
            return l;
        }
        rows[l] = p;
        p = sets::both(p, lower(p, 1 << l));
    }
    8
}

// All numbers from which those of `free` lead up without a gap to a number of a set, of which g has those that lie one
// below.
fn fall_wide(free: Set, spans: &[Set], g: Set) -> Set
    requires { (2 ^ 64 ≤ set_of free) × Spans (set_of free) spans.now }
    ensures { FallsFrom (set_of free) (set_of g) (set_of result) }
{
    let mut r = g;
    for (l, row) in spans.iter().enumerate() {
        r = sets::either(r, sets::both(*row, lower(r, 1 << l)));
    }
    r
}

// The same in one word.
fn fall_word(free: u64, g: u64) -> u64
    ensures { FallsFrom free g result }
{
    let mut r = g;
    let mut p = free;
    for l in 0..6usize {
        if p == 0 {
            return r;
        }
        let d = 1usize << l;
        r |= p & r >> d;
        p &= p >> d;
    }
    r
}

// All numbers from which the numbers of `free` lead up without a gap to one of s.
pub fn fall(free: Set, spans: &[Set], s: Set) -> Set
    requires { Spans (set_of free) spans.now }
    ensures { Exactly (set_of result) (Falls (set_of free) (set_of s)) }
{
    let h = sets::down(s);
    match as_word(free) {
        Some(w) => word_set(fall_word(w, in_word(h, w))),
        None => fall_wide(free, spans, sets::both(h, free)),
    }
}

// The set of a word's numbers.
pub fn word_set(w: u64) -> Set
    ensures { (set_of result ≡ w) × (result.a ≡ w) }
{
    Set {
        a: w,
        b: 0,
        c: 0,
        d: 0,
    }
}

// Whether its first word has all its numbers.
pub fn is_word(s: Set) -> bool
    ensures { (result ≡ true → set_of s ≡ s.a) × (result ≡ false → 2 ^ 64 ≤ set_of s) }
{
    s.b == 0 && s.c == 0 && s.d == 0
}

// The word that has all its numbers, where one does.
pub fn as_word(s: Set) -> Option<u64>
    ensures { MatchOption result (2 ^ 64 ≤ set_of s) (λ w. set_of s ≡ w) }
{
    if is_word(s) { Some(s.a) } else { None }
}

// What a set shares with a word.
pub fn in_word(s: Set, w: u64) -> u64
    ensures { result ≡ bit_and (set_of s) w }
{
    s.a & w
}

// Whether a set shares a number with a word.
pub fn meets_word(s: Set, w: u64) -> bool
    ensures { Tells result (Meets (set_of s) w) }
{
    in_word(s, w) != 0
}

// `climb` in one word.
pub fn climb_word(free: u64, s: u64) -> u64
    ensures { Exactly result (λ q. (q < 64) × Climbs free s q) }
{
    let x = s & free;
    x.wrapping_add(free) ^ x ^ free
}

// `fall` in one word.
pub fn fall_to_word(free: u64, s: u64) -> u64
    ensures { Exactly result (Falls free s) }
{
    fall_word(free, s >> 1 & free)
}
