// The report of a book: its groups and the sheet of what is left, or REFUSED.

#![tactic(auto)]

ghost use Rattle.std.specs.Prelude.{◌≡◌, [], ◌∷◌, map, ◌+◌, ◌*◌, ◌≤◌, ◌<◌, length, take};
ghost use Rattle.answers.specs.Told.{told};
ghost use Rattle.plain.specs.All.{All};
ghost use Rattle.shapes.specs.Lent.{shape_of, meant};
ghost use Rattle.bases.specs.Base.{base_words};
ghost use Rattle.sets.specs.Set.{set_of};
ghost use Rattle.file_numerals.specs.Digits.{digits, decimal};
ghost use Rattle.file_numerals.specs.Read.{word_digits};
ghost use Rattle.file_lines.specs.declared.Heading.TheVariants.{Blocks as blocks-heading};
ghost use Rattle.file_lines.specs.Grammar.{RightBlock, head_line, word_of, block_line, joined, writing};
ghost use Rattle.file_lines.specs.Book.{sheet_of, sheet_parts, file_limit};
ghost use Rattle.shapes.specs.Shape.{block_count};
ghost use Rattle.rules.specs.Limits.{most_texts, book_blocks};
ghost use Rattle.file_reports.specs.Report.{Reported, ended_line};
ghost use Rattle.file_reports.specs.Report.Verdict.{refused};
ghost use Rattle.file_reports.specs.Put.{Wrote, spaced, pair_end, number_room, heading_room, block_room, sheet_room, ended_room, group_room, GroupPut, GroupsPut, RanReported};

use answers::{Ended, Refusal, TextRan};
use file_lines::Width;
use sets::Set;
use shapes::Block;

// A line of a word and a number.
fn put_head(word: &[u8], n: u64, out: &mut [u8], at: usize) -> usize
    requires { at + length word.now + number_room ≤ length out.old }
    ensures wrote { Wrote out.old at (joined (head_line word.now n ∷ [])) out.new result }
    ensures upper_bound { result ≤ at + length word.now + number_room }
{
    let a = file_numerals::put_bytes(word, out, at);
    let b = file_numerals::put_decimal(n, out, a);
    file_numerals::put_bytes(b"\n", out, b)
}

// A line of a number.
fn put_count(n: u64, out: &mut [u8], at: usize) -> usize
    requires { at + number_room ≤ length out.old }
    ensures wrote { Wrote out.old at (joined (decimal n ∷ [])) out.new result }
    ensures upper_bound { result ≤ at + number_room }
{
    let a = file_numerals::put_decimal(n, out, at);
    file_numerals::put_bytes(b"\n", out, a)
}

fn put_spaced(n: u64, out: &mut [u8], at: usize) -> usize
    requires { at + length (spaced n) ≤ length out.old }
    ensures { Wrote out.old at (spaced n) out.new result }
{
    let a = file_numerals::put_bytes(b" ", out, at);
    file_numerals::put_decimal(n, out, a)
}

fn put_pair(a: u64, b: u64, out: &mut [u8], at: usize) -> usize
    requires { at + length (pair_end a b) ≤ length out.old }
    ensures { Wrote out.old at (pair_end a b) out.new result }
{
    let first = put_spaced(a, out, at);
    let second = put_spaced(b, out, first);
    file_numerals::put_bytes(b"\n", out, second)
}

// So many words of a base, the last of them first.
fn put_base(base: Set, words: usize, out: &mut [u8], at: usize) -> usize
    requires words_le_base_words { words ≤ base_words }
    requires word_digits_in_bounds { at + words * word_digits ≤ length out.old }
    ensures { Wrote out.old at (digits 16 (words * word_digits) (set_of base)) out.new result }
{
    let mut end = at;
    for i in (0..words).rev() {
        let word = sets::word(base, i);
        file_numerals::put_digits(word, 16, file_numerals::WORD_DIGITS, out, end);
        end += file_numerals::WORD_DIGITS;
    }
    end
}

// A block's line.
fn put_block(width: Width, b: Block, out: &mut [u8], at: usize) -> usize
    requires block_room_in_bounds { at + block_room ≤ length out.old }
    requires right_block { RightBlock width (meant b) }
    ensures wrote { Wrote out.old at (joined (block_line width (meant b) ∷ [])) out.new result }
    ensures upper_bound { result ≤ at + block_room }
{
    let end = put_base(b.base, file_lines::words(width), out, at);
    put_pair(b.lower, b.upper, out, end)
}

fn put_counts(counts: &[u64], out: &mut [u8], at: usize) -> usize
    requires { at + length counts.now * number_room ≤ length out.old }
    ensures wrote { Wrote out.old at (joined (map decimal counts.now)) out.new result }
    ensures upper_bound { result ≤ at + length counts.now * number_room }
{
    let mut end = at;
    for n in counts {
        end = put_count(*n, out, end);
    }
    end
}

fn put_blocks(width: Width, blocks: &[u64], out: &mut [u8], at: usize) -> usize
    requires block_room_in_bounds { at + block_count blocks.now * block_room ≤ length out.old }
    requires all { All (RightBlock width) (shape_of blocks.now) }
    ensures wrote { Wrote out.old at (joined (map (block_line width) (shape_of blocks.now))) out.new result }
    ensures upper_bound { result ≤ at + block_count blocks.now * block_room }
{
    let mut end = at;
    for i in 0..blocks.len() / shapes::SIZE {
        let b = shapes::block_at(blocks, i);
        end = put_block(width, b, out, end);
    }
    end
}

// The heading of the blocks, which is the one that came in.
fn put_heading(width: Width, n: u64, out: &mut [u8], at: usize) -> usize
    requires { at + heading_room ≤ length out.old }
    ensures wrote { Wrote out.old at (joined (head_line (word_of (blocks-heading width)) n ∷ [])) out.new result }
    ensures upper_bound { result ≤ at + heading_room }
{
    match width {
        Width::Low => put_head(b"BLOCKS ", n, out, at),
        Width::Wide => put_head(b"WIDE ", n, out, at),
    }
}

// A sheet: the texts' block counts and the blocks, as a file has them.
fn put_sheet(width: Width, counts: &[u64], blocks: &[u64], out: &mut [u8], at: usize) -> usize
    requires blocks_in_bounds { at + sheet_room (length counts.now) (block_count blocks.now) ≤ length out.old }
    requires all { All (RightBlock width) (shape_of blocks.now) }
    ensures wrote { Wrote out.old at (writing (sheet_parts (sheet_of width counts.now blocks.now))) out.new result }
    ensures upper_bound { result ≤ at + sheet_room (length counts.now) (block_count blocks.now) }
{
    let a = put_head(b"TEXTS ", counts.len() as u64, out, at);
    let b = put_counts(counts, out, a);
    let c = put_heading(width, (blocks.len() / shapes::SIZE) as u64, out, b);
    put_blocks(width, blocks, out, c)
}

// How a group ends, with the applications made, and the newline.
fn put_ended(ended: Ended, out: &mut [u8], at: usize) -> usize
    requires { at + ended_room ≤ length out.old }
    ensures wrote { Wrote out.old at (joined (ended_line ended ∷ [])) out.new result }
    ensures upper_bound { result ≤ at + ended_room }
{
    match ended {
        Ended::Stable(n) => put_head(b" STABLE ", n, out, at),
        Ended::None(n) => put_head(b" NONE ", n, out, at),
    }
}

// The line of the group that the text at place k names, if it names one.
fn put_group(text: TextRan, k: usize, out: &mut [u8], at: usize) -> usize
    requires k_lt_most_texts { k < most_texts }
    requires group_room_in_bounds { at + group_room ≤ length out.old }
    ensures group_put { GroupPut text k out.old at out.new result }
    ensures upper_bound { result ≤ at + group_room }
{
    if text.group != k as u64 + 1 {
        return at;
    }
    let a = file_numerals::put_bytes(b"GROUP ", out, at);
    let b = file_numerals::put_decimal(text.group, out, a);
    put_ended(text.ended, out, b)
}

// The lines of the groups of these texts, by number.
fn put_groups(texts: &[TextRan], out: &mut [u8], at: usize) -> usize
    requires texts_len { length texts.now ≤ most_texts }
    requires group_room_in_bounds { at + length texts.now * group_room ≤ length out.old }
    ensures groups_put { GroupsPut texts.now out.old at out.new result }
    ensures upper_bound { result ≤ at + length texts.now * group_room }
{
    let mut end = at;
    for (k, text) in texts.iter().enumerate() {
        end = put_group(*text, k, out, end);
    }
    end
}

// The groups of a book's texts, and the sheet of what is left of them.
pub fn write_ran(
    width: Width,
    counts: &[u64],
    blocks: &[u64],
    texts: [TextRan; rules::TEXTS],
    out: &mut [u8],
) -> usize
    requires file_limit_in_bounds { file_limit ≤ length out.old }
    requires texts_len { length texts ≡ most_texts }
    requires counts_len_bound { length counts.now ≤ most_texts }
    requires blocks_bound { block_count blocks.now ≤ book_blocks }
    requires all { All (RightBlock width) (shape_of blocks.now) }
    ensures { RanReported (take (length counts.now) texts) (sheet_of width counts.now blocks.now) out.old out.new result }
{
    let head = put_groups(&texts[..counts.len()], out, 0);
    put_sheet(width, counts, blocks, out, head)
}

// REFUSED with number, text and place.
pub fn write_refused(refusal: Refusal, out: &mut [u8]) -> usize
    requires { file_limit ≤ length out.old }
    ensures { Reported (refused (told refusal)) out.old out.new result }
{
    let a = file_numerals::put_bytes(b"REFUSED ", out, 0);
    let b = file_numerals::put_decimal(refusal.number(), out, a);
    put_pair(refusal.text(), refusal.place(), out, b)
}
