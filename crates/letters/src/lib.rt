// Letters in either case: a base with both cases of each of its letters.

#![tactic(auto)]

ghost use Rattle.sets.specs.Set.{set_of, Exactly};
ghost use Rattle.letters.specs.Case.{SomeCase};
ghost use Rattle.letters.specs.Code.{Spread};

use sets::Set;

// The word of the codes 64 to 127 with both cases of each letter: A to Z are its bits 1 to 26, a to z its bits 33 to
// 58.
fn spread(w: u64) -> u64
    ensures { Exactly result (Spread w) }
{
    let capitals = w & 0x7fffffe;
    let smalls = w >> 32 & 0x7fffffe;
    w | smalls | capitals << 32
}

// The characters of a base, and each letter of it in the other case too.
pub fn both_cases(s: Set) -> Set
    ensures { Exactly (set_of result) (SomeCase (set_of s)) }
{
    Set {
        a: s.a,
        b: spread(s.b),
        c: s.c,
        d: s.d,
    }
}
