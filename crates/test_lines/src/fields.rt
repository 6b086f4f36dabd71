// The fields of a line, and lists among its numbers.
ghost use Rattle.std.specs.Prelude.{◌≡◌, ◌≤◌, ◌<◌, length, take};
ghost use Rattle.io.specs.Counts.{IsPrefixLen};

// Room for the numbers of a line: three shapes of 32 blocks, or the run and the list of a tray, and what stands before
// them.
pub const NUMBERS: usize = 800;

// Where `mark` stands first from the place `from` on, or the end.
pub fn find(s: &[u8], from: usize, mark: u8) -> usize
    requires { from ≤ length s.now }
    ensures { (from ≤ result) × (result ≤ length s.now) }
{
    match s[from..].iter().position(|byte| *byte == mark) {
        Some(i) => from + i,
        None => s.len(),
    }
}

// The field behind the leading blank.
pub fn first_field(rest: &[u8]) -> &[u8] {
    if rest.len() == 0 {
        return rest;
    }
    let end = find(rest, 1, b' ');
    &rest[1..end]
}

// What follows that field: nothing, or fields that each follow a blank.
pub fn later_fields(rest: &[u8]) -> &[u8] {
    if rest.len() == 0 {
        return rest;
    }
    let end = find(rest, 1, b' ');
    &rest[end..]
}

// Puts the number of each field into the row, as many as it has room for, and answers how many that are.
pub fn read_words(rest: &[u8], row: &mut [u64]) -> usize
    ensures { IsPrefixLen result row.new }
{
    let mut at = 0;
    for n in 0..row.len() {
        if rest.len() <= at {
            return n;
        }
        let start = at + 1;
        at = find(rest, start, b' ');
        row[n] = number(&rest[start..at]);
    }
    row.len()
}

// The number of a field of hex digits. A digit too many pushes the first one out.
fn number(field: &[u8]) -> u64 {
    let mut value: u64 = 0;
    for byte in field {
        value = value % 1152921504606846976 * 16 + digit(*byte) as u64;
    }
    value
}

// What a hex digit counts.
fn digit(byte: u8) -> u8
    ensures { result < 16 }
{
    if byte < b'a' {
        return byte % 16;
    }
    (byte - 87) % 16
}

// Puts the byte of each hex pair of a field into the row, as many as it has room for, and answers how many that are. A
// `-` is no pair.
pub fn read_text(field: &[u8], row: &mut [u8]) -> usize
    ensures { IsPrefixLen result row.new }
{
    let pairs = (field.len() / 2).min(row.len());
    for i in 0..pairs {
        row[i] = pair(field[2 * i], field[2 * i + 1]);
    }
    pairs
}

// The byte of two hex digits.
fn pair(high: u8, low: u8) -> u8 {
    digit(high) * 16 + digit(low)
}

// The number, or the row's length if that is less.
pub fn within<T>(n: u64, row: &[T]) -> usize
    ensures { (result ≤ length row.now) × (result ≡ length (take result row.now)) }
{
    n.min(row.len() as u64) as usize
}

// The list that the numbers begin with, behind its count.
pub fn first_list(numbers: &[u64]) -> &[u64] {
    if numbers.len() == 0 {
        return numbers;
    }
    let rest = &numbers[1..];
    let n = within(numbers[0], rest);
    &rest[..n]
}

// What follows that list.
pub fn later_lists(numbers: &[u64]) -> &[u64] {
    if numbers.len() == 0 {
        return numbers;
    }
    let rest = &numbers[1..];
    let n = within(numbers[0], rest);
    &rest[n..]
}

// Copies the numbers into the row, as many as it has room for, and answers how many that are.
pub fn copy_numbers(numbers: &[u64], row: &mut [u64]) -> usize
    ensures { IsPrefixLen result row.new }
{
    let n = numbers.len().min(row.len());
    row[..n].copy_from_slice(&numbers[..n]);
    n
}
