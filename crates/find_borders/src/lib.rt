// Where the mark has each of its characters, and with which of its own starts each of its starts ends: a word for each,
// with a bit for each number.

#![tactic(auto)]

ghost use Rattle.std.specs.Prelude.{◌≡◌, true, ◌⊎◌, ◌≤◌, ◌<◌, ℕ, length};
ghost use Rattle.bases.specs.Base.{Holds};
ghost use Rattle.sets.specs.Set.{Exactly};
ghost use Rattle.find_borders.specs.Borders.{Collected, ShortMark, SameAt, Sames, Borders, UpOne};

// Adds q to the numbers of w if so told.
pub fn add_if(w: u64, q: usize, yes: bool) -> u64
    requires { q < 64 }
    ensures { Exactly result (λ e. Holds w e ⊎ ((e ≡ q) × (yes ≡ true))) }
{
    if yes { w | 1 << q } else { w }
}

// The numbers below n of which `told` says so.
pub fn numbers<F: Fn(usize) -> bool>(n: usize, told: F) -> u64
    requires few { n ≤ 64 }
    requires callable { (q : ℕ) → q < n → F.pre told q }
    ensures { Collected (F.post told) n result }
{
    let mut w = 0;
    for q in 0..n {
        w = add_if(w, q, told(q));
    }
    w
}

// Where the mark has the character c.
fn same(mark: &[u8], c: u8) -> u64
    requires { ShortMark mark.now }
    ensures { Exactly result (SameAt mark.now c) }
{
    numbers(mark.len(), |j| mark[j] == c)
}

// For each character of the mark, where the mark has it.
pub fn lay_sames(mark: &[u8], sames: &mut [u64; 64])
    requires { ShortMark mark.now × (length sames.old ≡ 64) }
    ensures { Sames mark.now (length mark.now) sames.new × (length sames.new ≡ 64) }
{
    for (r, c) in mark.iter().enumerate() {
        sames[r] = same(mark, *c);
    }
}

// Each number of both one up, and 0.
fn next_borders(w: u64, s: u64) -> u64
    ensures { Exactly result (UpOne w s) }
{
    (w & s) << 1 | 1
}

// For each start of the mark, the starts that it ends with.
pub fn lay_borders(mark: &[u8], sames: &[u64; 64], borders: &mut [u64; 64])
    requires short_mark { ShortMark mark.now × (length borders.old ≡ 64) }
    requires sames { Sames mark.now (length mark.now) sames.now }
    ensures { Borders mark.now (length mark.now) borders.new }
{
    borders[0] = 1;
    for q in 1..mark.len() {
        borders[q] = next_borders(borders[q - 1], sames[q - 1]);
    }
}
