// Sets of numbers below 256, in four 64-bit words: of characters, or of positions.

#![tactic(auto)]

ghost use Rattle.std.specs.Prelude.{◌≡◌, ◌+◌, ◌*◌, ◌/◌, ◌%◌, ◌^◌, ◌≤◌, ◌<◌};
ghost use Rattle.std.specs.Int.Bits.{bit_and, bit_or};
ghost use Rattle.bases.specs.Base.{Holds, Empty, Meets, Least, Greatest};
ghost use Rattle.plain.specs.Tells.{Tells};
ghost use Rattle.sets.specs.Set.{set_of, Exactly};

// Bit k of `a` stands for k, of `b` for 64 + k, of `c` for 128 + k, of `d` for 192 + k.
#[derive(Clone, Copy)]
pub struct Set {
    pub a: u64,
    pub b: u64,
    pub c: u64,
    pub d: u64,
}

// No number.
pub fn none() -> Set
    ensures { set_of result ≡ 0 }
{
    Set {
        a: 0,
        b: 0,
        c: 0,
        d: 0,
    }
}

// Word k of a set, from 0.
pub fn word(s: Set, k: usize) -> u64
    requires { k < 4 }
    ensures { result ≡ set_of s / 2 ^ (k * 64) % 2 ^ 64 }
{
    match k {
        0 => s.a,
        1 => s.b,
        2 => s.c,
        _ => s.d,
    }
}

// The words of a set one up, over a new first word; the last word is lost.
pub fn over(s: Set, w: u64) -> Set
    ensures { set_of result ≡ (set_of s * 2 ^ 64 + w) % 2 ^ 256 }
{
    Set {
        a: w,
        b: s.a,
        c: s.b,
        d: s.c,
    }
}

// The bit of k in the word whose first number is w: none where k lies in another word.
fn bit(k: usize, w: usize) -> u64
    requires { w ≤ 192 }
    ensures { Exactly result (λ e. (e < 64) × (w + e ≡ k)) }
{
    if k < w {
        return 0;
    }
    if w + 64 <= k {
        return 0;
    }
    1u64 << (k - w)
}

// The set of one number.
pub fn single(k: usize) -> Set
    requires { k < 256 }
    ensures { Exactly (set_of result) (λ e. e ≡ k) }
{
    Set {
        a: bit(k, 0),
        b: bit(k, 64),
        c: bit(k, 128),
        d: bit(k, 192),
    }
}

// The bits of the numbers below k in the word whose first number is w.
fn ones(k: usize, w: usize) -> u64
    requires { w ≤ 192 }
    ensures { Exactly result (λ e. (e < 64) × (w + e < k)) }
{
    if k <= w {
        return 0;
    }
    if w + 64 <= k {
        return u64::MAX;
    }
    (1u64 << (k - w)) - 1
}

// The numbers below k. A function over both kinds of word, this and that of `single`, would hide which is which.
pub fn below(k: usize) -> Set
    requires { k ≤ 256 }
    ensures { Exactly (set_of result) (λ e. e < k) }
{
    Set {
        a: ones(k, 0),
        b: ones(k, 64),
        c: ones(k, 128),
        d: ones(k, 192),
    }
}

// The numbers from p on, before e.
pub fn between(p: usize, e: usize) -> Set
    requires { (p ≤ 256) × (e ≤ 256) }
    ensures { Exactly (set_of result) (λ q. (p ≤ q) × (q < e)) }
{
    without(below(e), below(p))
}

// The numbers of both.
pub fn both(s: Set, t: Set) -> Set
    ensures { set_of result ≡ bit_and (set_of s) (set_of t) }
{
    Set {
        a: s.a & t.a,
        b: s.b & t.b,
        c: s.c & t.c,
        d: s.d & t.d,
    }
}

// The numbers of either.
pub fn either(s: Set, t: Set) -> Set
    ensures { set_of result ≡ bit_or (set_of s) (set_of t) }
{
    Set {
        a: s.a | t.a,
        b: s.b | t.b,
        c: s.c | t.c,
        d: s.d | t.d,
    }
}

// The numbers of the first that are not in the second.
pub fn without(s: Set, t: Set) -> Set
    ensures { Exactly (set_of result) (λ e. Holds (set_of s) e × (Holds (set_of t) e → ⊥)) }
{
    let shared = both(s, t);
    Set {
        a: s.a ^ shared.a,
        b: s.b ^ shared.b,
        c: s.c ^ shared.c,
        d: s.d ^ shared.d,
    }
}

// Each number one up; 255 is lost.
pub fn up(s: Set) -> Set
    ensures { set_of result ≡ set_of s * 2 % 2 ^ 256 }
{
    Set {
        a: s.a << 1,
        b: s.b << 1 | s.a >> 63,
        c: s.c << 1 | s.b >> 63,
        d: s.d << 1 | s.c >> 63,
    }
}

// Each number one down; 0 is lost.
pub fn down(s: Set) -> Set
    ensures { set_of result ≡ set_of s / 2 }
{
    Set {
        a: s.a >> 1 | s.b << 63,
        b: s.b >> 1 | s.c << 63,
        c: s.c >> 1 | s.d << 63,
        d: s.d >> 1,
    }
}

// Whether it has no number.
pub fn is_empty(s: Set) -> bool
    ensures { Tells result (Empty (set_of s)) }
{
    (s.a | s.b | s.c | s.d) == 0
}

// Whether the two share a number.
pub fn meets(s: Set, t: Set) -> bool
    ensures { Tells result (Meets (set_of s) (set_of t)) }
{
    !is_empty(both(s, t))
}

// Whether it has the number.
pub fn has(s: Set, q: usize) -> bool
    requires { q < 256 }
    ensures { Tells result (Holds (set_of s) q) }
{
    (word(s, q / 64) >> (q % 64)) % 2 == 1
}

// Whether it has the character.
pub fn holds(s: Set, code: u8) -> bool
    ensures { Tells result (Holds (set_of s) code) }
{
    has(s, code as usize)
}

// The lowest bit of a word that is not 0.
fn lowest(w: u64) -> usize
    requires { w ≡ 0 → ⊥ }
    ensures { Least w result × (result < 64) }
{
    w.trailing_zeros() as usize
}

// The least number of a set that is not empty.
pub fn first(s: Set) -> usize
    requires { Empty (set_of s) → ⊥ }
    ensures { Least (set_of s) result × (result < 256) }
{
    if s.a != 0 {
        return lowest(s.a);
    }
    if s.b != 0 {
        return 64 + lowest(s.b);
    }
    if s.c != 0 {
        return 128 + lowest(s.c);
    }
    192 + lowest(s.d)
}

// The highest bit of a word that is not 0.
pub fn highest(w: u64) -> usize
    requires { w ≡ 0 → ⊥ }
    ensures { Greatest w result × (result < 64) }
{
    63 - w.leading_zeros() as usize
}

// The greatest number of a set that is not empty.
pub fn last(s: Set) -> usize
    requires { Empty (set_of s) → ⊥ }
    ensures { Greatest (set_of s) result × (result < 256) }
{
    if s.d != 0 {
        return 192 + highest(s.d);
    }
    if s.c != 0 {
        return 128 + highest(s.c);
    }
    if s.b != 0 {
        return 64 + highest(s.b);
    }
    highest(s.a)
}
