// A book file, read line by line.

#![tactic(auto)]

ghost use Rattle.std.specs.Prelude.{◌≡◌, ◌*◌, ◌≤◌, length};
ghost use Rattle.file_lines.specs.Lines.{FoundIn, HeadRead, NumberRead, TwoRead, RuleRead, BaseRead, BlockRead};
ghost use Rattle.file_lines.specs.Grammar.{said_words};
ghost use Rattle.bases.specs.Base.{base_words};
ghost use Rattle.file_numerals.specs.Read.{word_digits};

use rules::Rule;
use sets::Set;
use shapes::Block;

// How much of a base the lines of a section say: under BLOCKS the codes up to 127, under WIDE all.
#[derive(Clone, Copy)]
pub enum Width {
    Low,
    Wide,
}

// What stands under a heading: block counts of texts, blocks of either width, rules.
#[derive(Clone, Copy)]
pub enum Heading {
    Texts,
    Blocks(Width),
    Rules,
}

// The input limit in bytes, and the room that a report wants.
pub const FILE_LIMIT: usize = 32768;

// Where a byte stands first.
pub fn find(s: &[u8], b: u8) -> Option<usize>
    ensures { FoundIn b s.now result }
{
    s.iter().position(|c| *c == b)
}

// A section's word and its count.
pub fn read_head(line: &[u8], word: &[u8], most: u64) -> Option<u64>
    requires { most ≤ 65535 }
    ensures { HeadRead word.now most line.now result }
{
    let n = file_numerals::read_decimal(line.strip_prefix(word)?)?;
    if n <= most { Some(n) } else { None }
}

// A decimal and a blank at the start of a part: the number, and the place past the blank.
fn read_number(part: &[u8]) -> Option<(u64, usize)>
    ensures { NumberRead part.now result }
{
    let i = find(part, b' ')?;
    let n = file_numerals::read_decimal(&part[..i])?;
    Some((n, i + 1))
}

// Two decimals with a blank.
fn read_two(part: &[u8]) -> Option<(u64, u64)>
    ensures { TwoRead part.now result }
{
    let (a, m) = read_number(part)?;
    let b = file_numerals::read_decimal(&part[m..])?;
    Some((a, b))
}

// A rule's line: two numbers, each with a blank after it, and the last two.
pub fn read_rule(line: &[u8]) -> Option<Rule>
    ensures { RuleRead line.now result }
{
    let (kind, m) = read_number(line)?;
    let (a, k) = read_number(&line[m..])?;
    let rest = m + k;
    let (b, c) = read_two(&line[rest..])?;
    Some(Rule { kind, a, b, c })
}

// How many words of a base a line of this width says.
pub fn words(width: Width) -> usize
    ensures { result ≡ said_words width }
{
    match width {
        Width::Low => 2,
        Width::Wide => 4,
    }
}

// A base of so many words, the last word first.
fn read_base(part: &[u8], words: usize) -> Option<Set>
    requires words_le_base_words { words ≤ base_words }
    requires part_len { length part.now ≡ words * word_digits }
    ensures { BaseRead words part.now result }
{
    let mut base = sets::none();
    for i in 0..words {
        let from = i * file_numerals::WORD_DIGITS;
        let to = from + file_numerals::WORD_DIGITS;
        let w = file_numerals::read_word(&part[from..to])?;
        base = sets::over(base, w);
    }
    Some(base)
}

// A block's line.
pub fn read_block(width: Width, line: &[u8]) -> Option<Block>
    ensures { BlockRead width line.now result }
{
    let n = words(width);
    let end = n * file_numerals::WORD_DIGITS;
    if line.len() <= end || line[end] != b' ' {
        return None;
    }
    let rest = end + 1;
    let base = read_base(&line[..end], n)?;
    let (lower, upper) = read_two(&line[rest..])?;
    Some(Block { base, lower, upper })
}
