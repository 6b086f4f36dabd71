// One step of least and greatest text: what a block chooses where a successor follows it.

#![tactic(auto)]

ghost use Rattle.std.specs.Prelude.{◌≡◌, ◌++◌, ◌+◌, ◌^◌, ◌<◌, drop};
ghost use Rattle.bases.specs.Base.{Empty, codes};
ghost use Rattle.sets.specs.Set.{set_of};
ghost use Rattle.shapes.specs.Shape.{block_count};
ghost use Rattle.shapes.specs.Lent.{meant, shape_of, Accepted};
ghost use Rattle.extreme_steps.specs.declared.Successor.{Successor};
ghost use Rattle.extreme_steps.specs.Steps.{char_of, goes_first, takes_of, onwards, successor};
ghost use Rattle.extreme_steps.specs.Code.{char_in, codes_below, codes_onward, run_of, text_from};

use sets::Set;
use shapes::Block;

// Which text is wanted. What differs by it is a line in each function below that matches on it.
#[derive(Clone, Copy)]
pub enum Direction {
    Least,
    Greatest,
}

// What follows a block: the end, something just above a character, or just below it.
#[derive(Clone, Copy)]
pub enum Successor {
    End,
    Above(u8),
    Below(u8),
}

// What a block chooses: how often it takes its character, and the successor once it has, which tells the character.
#[derive(Clone, Copy)]
pub struct Choice {
    pub successor: Successor,
    pub count: u8,
}

// How many codes lie below a successor, which is all that a block asks of it.
pub fn codes_below(s: Successor) -> u64
    ensures { result ≡ codes_below s }
{
    match s {
        Successor::End => 0u64,
        Successor::Above(c) => c as u64 + 1,
        Successor::Below(c) => c as u64,
    }
}

// Whether c goes first where so many codes lie below the successor.
fn goes_first(d: Direction, c: u8, below: u64) -> bool
    ensures { (s : Successor) → below ≡ codes_below s → result ≡ goes_first d c s }
{
    match d {
        Direction::Least => (c as u64) < below,
        Direction::Greatest => below <= (c as u64),
    }
}

// The character of a base that is not empty.
fn char_of(d: Direction, base: Set) -> u8
    requires fact { Empty (set_of base) → ⊥ }
    requires base_bound { set_of base < 2 ^ codes }
    ensures { result ≡ char_of d (set_of base) }
{
    match d {
        Direction::Least => sets::first(base) as u8,
        Direction::Greatest => sets::last(base) as u8,
    }
}

// The count that a block takes, by whether its character goes first.
fn count_of(first: bool, b: Block) -> u64
    ensures { result ≡ takes_of first (meant b) }
{
    if first { b.upper } else { b.lower }
}

// The successor once c is taken.
fn onward(d: Direction, first: bool, c: u8) -> Successor
    ensures { result ≡ onwards d first c }
{
    match (d, first) {
        (Direction::Least, true) | (Direction::Greatest, false) => Successor::Above(c),
        (Direction::Least, false) | (Direction::Greatest, true) => Successor::Below(c),
    }
}

// What block i, from 0, of an accepted shape chooses where so many codes lie below the successor of the blocks behind
// it. Its run goes in front of their text.
pub fn choose(d: Direction, shape: &[u64], i: usize, below: u64) -> Choice
    requires accepted { Accepted shape.now }
    requires i_bound { i < block_count shape.now }
    requires below_value { below ≡ codes_below (successor d (drop (i + 1) (shape_of shape.now))) }
    ensures i_value { run_of result ++ text_from d shape.now (i + 1) ≡ text_from d shape.now i }
    ensures below_value_2 { codes_onward result below ≡ codes_below (successor d (drop i (shape_of shape.now))) }
{
    let b = shapes::block_at(shape, i);
    if b.upper == 0 {
        return Choice {
            successor: Successor::End,
            count: 0,
        };
    }
    let c = char_of(d, b.base);
    let first = goes_first(d, c, below);
    let count = count_of(first, b) as u8;
    let successor = onward(d, first, c);
    Choice { successor, count }
}

// How many codes lie below the successor once a block has chosen: as many as before where it takes nothing.
pub fn codes_onward(k: Choice, below: u64) -> u64
    ensures { result ≡ codes_onward k below }
{
    if k.count == 0 {
        below
    } else {
        codes_below(k.successor)
    }
}

// The character that a successor is just above or just below.
pub fn char_in(s: Successor) -> u8
    ensures { result ≡ char_in s }
{
    match s {
        Successor::End => 0,
        Successor::Above(c) | Successor::Below(c) => c,
    }
}
