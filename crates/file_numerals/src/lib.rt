// Numbers read from bytes and written as bytes, in ASCII.

#![tactic(auto)]

ghost use Rattle.std.specs.Prelude.{◌≡◌, ◌+◌, ◌≤◌, ◌<◌, length};
ghost use Rattle.std.proofs.lemmas.List.Edits.{sets};
ghost use Rattle.file_numerals.specs.Digits.{glyph as Digits·glyph, digits, decimal as Digits·decimal};
ghost use Rattle.file_numerals.specs.Read.{DigitRead, DecimalRead, WordRead, word_digits};

// The digit below a base up to 16 that c is.
fn digit(base: u64, c: u8) -> Option<u64>
    requires { base ≤ 16 }
    ensures { DigitRead base c result }
{
    let d = match c {
        b'0'..=b'9' => (c - b'0') as u64,
        b'a'..=b'f' => (c - b'a') as u64 + 10,
        _ => return None,
    };
    if d < base { Some(d) } else { None }
}

// A decimal up to 65,535, without needless zeros: the whole of a part.
pub fn read_decimal(part: &[u8]) -> Option<u64>
    ensures { DecimalRead part.now result }
{
    let n = part.len();
    if n == 0 || 5 < n {
        return None;
    }
    let mut v = digit(10, part[0])?;
    if v == 0 && 1 < n {
        return None;
    }
    for c in &part[1..] {
        v = v * 10 + digit(10, *c)?;
    }
    if v <= 65535 { Some(v) } else { None }
}

// How many hex digits a word of a base is.
pub const WORD_DIGITS: usize = 16;

// A word: so many lowercase hex digits.
pub fn read_word(part: &[u8]) -> Option<u64>
    requires { length part.now ≡ word_digits }
    ensures { WordRead part.now result }
{
    let mut v: u64 = 0;
    for c in part {
        v = v * 16 + digit(16, *c)?;
    }
    Some(v)
}

fn glyph(d: u64) -> u8
    requires { d < 16 }
    ensures { result ≡ Digits·glyph d }
{
    if d < 10 {
        b'0' + d as u8
    } else {
        b'a' + (d - 10) as u8
    }
}

// How many digits n has in decimal.
fn places(n: u64) -> usize
    ensures { result ≡ length (Digits·decimal n) }
{
    let mut k = 1;
    let mut rest = n;
    while 9 < rest {
        rest /= 10;
        k += 1;
    }
    k
}

// Writes the last k digits of n in a base up to 16 from a place on.
pub fn put_digits(n: u64, base: u64, k: usize, out: &mut [u8], at: usize)
    requires base_nonzero { 0 < base }
    requires base_bound { base ≤ 16 }
    requires k_in_bounds { at + k ≤ length out.old }
    ensures { out.new ≡ sets out.old at (digits base k n) }
{
    let mut rest = n;
    for i in (0..k).rev() {
        out[at + i] = glyph(rest % base);
        rest /= base;
    }
}

// Writes n in decimal from a place on, and answers the place past it.
pub fn put_decimal(n: u64, out: &mut [u8], at: usize) -> usize
    requires { at + length (Digits·decimal n) ≤ length out.old }
    ensures value { result ≡ at + length (Digits·decimal n) }
    ensures out_after { out.new ≡ sets out.old at (Digits·decimal n) }
{
    let k = places(n);
    put_digits(n, 10, k, out, at);
    at + k
}

// Writes some bytes from a place on, and answers the place past them.
pub fn put_bytes(bytes: &[u8], out: &mut [u8], at: usize) -> usize
    requires { at + length bytes.now ≤ length out.old }
    ensures value { result ≡ at + length bytes.now }
    ensures out_after { out.new ≡ sets out.old at bytes.now }
{
    let end = at + bytes.len();
    out[at..end].copy_from_slice(bytes);
    end
}
