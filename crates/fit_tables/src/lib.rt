// Where each character stands in a text: a row of places for each that occurs.

#![tactic(auto)]

ghost use Rattle.std.specs.Prelude.{◌≡◌, List, ◌+◌, ◌*◌, ◌/◌, ◌≤◌, ◌<◌, ℕ, length, get_or, replicate};
ghost use Rattle.bases.specs.Base.{codes};
ghost use Rattle.sets.specs.Set.{set_of, Exactly};
ghost use Rattle.fit_rows.specs.Rows.{row_of, Sized, Placed, PlacesOf, SeenTo, Picked, AndPicked};

use sets::Set;

// How many characters there are, each with a row.
pub const CODES: usize = 256;

// Where the words of the third and of the fourth 64 places stand; those of the second stand at CODES.
const THIRD: usize = 2 * CODES;

const FOURTH: usize = 3 * CODES;

// Adds place p to the row of its character c in a table, and c to the characters seen.
fn add_place(table: &mut [u64], seen: Set, c: usize, p: usize) -> Set
    requires c_lt_codes { c < codes }
    requires p_in_bounds { p / 64 < length table.old / codes }
    ensures by_index { (t : List ℕ) → get_or t p 0 ≡ c → Placed t p table.old → Placed t (p + 1) table.new }
    ensures by_index_2 { (t : List ℕ) → get_or t p 0 ≡ c → SeenTo t p (set_of seen) → SeenTo t (p + 1) (set_of result) }
{
    let at = p / 64 * CODES + c;
    table[at] |= 1 << (p % 64);
    sets::either(seen, sets::single(c))
}

// Adds each place of a text to the row of its character, and answers which characters there are. The table has a word
// for each character and each 64 places.
pub fn add_places(text: &[u8], table: &mut [u64]) -> Set
    requires text_len_bound { length text.now ≤ 250 }
    requires text_in_bounds { length text.now ≤ length table.old / codes * 64 }
    requires table_value { table.old ≡ replicate (length table.old) 0 }
    ensures places_of { PlacesOf text.now table.new }
    ensures seen_to { SeenTo text.now (length text.now) (set_of result) }
{
    let mut seen = sets::none();
    for (p, c) in text.iter().enumerate() {
        seen = add_place(table, seen, *c as usize, p);
    }
    seen
}

// The places of character c: a row of one word, or of four.
fn row_of(table: &[u64], c: usize) -> Set
    requires sized { Sized table.now }
    requires c_lt_codes { c < codes }
    ensures { set_of result ≡ row_of table.now c }
{
    if table.len() <= CODES {
        return Set {
            a: table[c],
            b: 0,
            c: 0,
            d: 0,
        };
    }
    Set {
        a: table[c],
        b: table[CODES + c],
        c: table[THIRD + c],
        d: table[FOURTH + c],
    }
}

// The numbers so far, and those of the row of each number of w.
pub fn gather<F: Fn(usize) -> Set>(w: u64, so_far: Set, row: F) -> Set
    requires { (e : ℕ) → e < 64 → F.pre row e }
    ensures { (R : ℕ → ℕ) → ((e : ℕ) (r : _) → e < 64 → F.post row e r → set_of r ≡ R e)
        → Exactly (set_of result) (AndPicked (set_of so_far) R w) }
{
    // std has no walk over the bits of a word: the lowest is taken off each turn.
    let mut left = w;
    let mut r = so_far;
    while left != 0 {
        r = sets::either(r, row(left.trailing_zeros() as usize));
        left &= left - 1;
    }
    r
}

// The places of the characters of one word, which stands for those from `from` on, and those so far.
fn of_word(word: u64, from: usize, table: &[u64], gathered: Set) -> Set
    requires from_bound { from + 64 ≤ codes }
    requires sized { Sized table.now }
    ensures { Exactly (set_of result) (AndPicked (set_of gathered) (λ e. row_of table.now (from + e)) word) }
{
    gather(word, gathered, |e| row_of(table, from + e))
}

// The places of some characters.
pub fn places(chars: Set, table: &[u64]) -> Set
    requires { Sized table.now }
    ensures { Exactly (set_of result) (Picked (row_of table.now) (set_of chars)) }
{
    let last = of_word(chars.d, 192, table, sets::none());
    let later = of_word(chars.c, 128, table, last);
    let more = of_word(chars.b, 64, table, later);
    of_word(chars.a, 0, table, more)
}
