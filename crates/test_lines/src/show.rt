// The pieces of the line that answers a case.
ghost use Rattle.std.specs.Prelude.{◌<◌};
ghost use Rattle.io.specs.Counts.{IsPrefixLen};

use answers::Refusal;

pub fn line(words: &[u8]) {
    io::write_all(1, words);
    io::write_all(1, b"\n");
}

pub fn refused_line(r: Refusal) {
    refused(r);
    line(b"");
}

pub fn refused(r: Refusal) {
    io::write_all(1, b"refused ");
    io::print_decimal(1, r.number());
    io::write_all(1, b" ");
    io::print_decimal(1, r.text());
    io::write_all(1, b" ");
    io::print_decimal(1, r.place());
}

// A text as hex pairs, `-` if it is empty.
pub fn text(bytes: &[u8]) {
    if bytes.len() == 0 {
        io::write_all(1, b"-");
        return;
    }
    let mut row = [0u8; 800];
    let n = hex_pairs(bytes, &mut row);
    io::write_all(1, &row[..n]);
}

// Puts the bytes as hex pairs into the row, as many as it has room for, and answers how many digits that are.
fn hex_pairs(bytes: &[u8], row: &mut [u8]) -> usize
    ensures { IsPrefixLen result row.new }
{
    let n = bytes.len().min(row.len() / 2);
    for i in 0..n {
        row[2 * i] = glyph(bytes[i] / 16);
        row[2 * i + 1] = glyph(bytes[i] % 16);
    }
    2 * n
}

fn glyph(digit: u8) -> u8
    requires { digit < 16 }
{
    if digit < 10 {
        return 48 + digit;
    }
    87 + digit
}

// The numbers in hex, each behind a blank.
pub fn numbers(row: &[u64]) {
    for n in row {
        io::write_all(1, b" ");
        io::print_hex(1, *n, 1);
    }
}

// What a call left of a work buffer whose bytes were all `filler`: how many bytes 0 it begins with, and with how many
// untouched ones it ends.
pub fn work(bytes: &[u8], filler: u8) {
    io::write_all(1, b" work ");
    io::print_decimal(1, zeros(bytes) as u64);
    io::write_all(1, b" ");
    io::print_decimal(1, untouched(bytes, filler) as u64);
}

// How many untouched bytes are left at the end of an output whose bytes were all `filler`.
pub fn rest(bytes: &[u8], filler: u8) {
    io::write_all(1, b" rest ");
    io::print_decimal(1, untouched(bytes, filler) as u64);
}

// Most bytes of a work buffer are 0, so they are passed over 64 at a time.
fn zeros(bytes: &[u8]) -> usize {
    let mut rest = bytes;
    while let Some(behind) = rest.strip_prefix(&[0u8; 64]) {
        rest = behind;
    }
    let n = rest
        .iter()
        .position(|byte| *byte != 0)
        .unwrap_or(rest.len());
    bytes.len() - rest.len() + n
}

fn untouched(bytes: &[u8], filler: u8) -> usize {
    bytes
        .iter()
        .rev()
        .position(|byte| *byte != filler)
        .unwrap_or(bytes.len())
}
