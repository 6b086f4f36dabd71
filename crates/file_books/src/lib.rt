// A book file read: its size, a sheet and the rules, and nothing after them.

#![tactic(auto)]

ghost use Rattle.std.specs.Prelude.{◌*◌, ◌≤◌, length};
ghost use Rattle.shapes.specs.Shape.{block_size};
ghost use Rattle.rules.specs.Rule.{rule_size};
ghost use Rattle.rules.specs.Limits.{most_texts, book_blocks, most_rules};
ghost use Rattle.file_books.specs.Last.{LastRead};
ghost use Rattle.file_books.specs.Promise.{ReadPromise};

use answers::Refusal;
use file_lines::{Heading, Width};
use file_sections::Departs;

// How wide its blocks are said, and how many texts, blocks and rules a book has.
#[derive(Clone, Copy)]
pub struct Sizes {
    pub width: Width,
    pub texts: usize,
    pub blocks: usize,
    pub rules: usize,
}

// The rules, and nothing after them: anything is a further line. Answers how many they are.
fn read_last(bytes: &[u8], rules: &mut [u64]) -> Result<usize, Departs>
    requires { most_rules * rule_size ≤ length rules.old }
    ensures { LastRead bytes.now rules.old rules.new result }
{
    let (n, m) = file_sections::read_section(Heading::Rules, rules::RULES, bytes, rules)?;
    if m < bytes.len() {
        return Err(Departs(n as u64 + 1));
    }
    Ok(n)
}

// Reads a book file into numbers: its block counts, and the numbers of its blocks and of its rules.
pub fn read_book(
    file: &[u8],
    counts: &mut [u64],
    blocks: &mut [u64],
    rules: &mut [u64],
) -> Result<Sizes, Refusal>
    requires most_texts_in_bounds { most_texts ≤ length counts.old }
    requires block_size_in_bounds { book_blocks * block_size ≤ length blocks.old }
    requires rule_size_in_bounds { most_rules * rule_size ≤ length rules.old }
    ensures { ReadPromise file.now counts.old blocks.old rules.old counts.new blocks.new rules.new result }
{
    if file_lines::FILE_LIMIT < file.len() {
        return Err(Refusal::Size);
    }
    match file_sheets::read_sheet(rules::TEXTS, file, counts, blocks) {
        Err(Departs(i)) => Err(Refusal::Line(i + 1)),
        Ok(sheet) => match read_last(&file[sheet.end..], rules) {
            Err(Departs(i)) => Err(Refusal::Line((sheet.texts + sheet.blocks) as u64 + i + 3)),
            Ok(rules) => Ok(Sizes {
                width: sheet.width,
                texts: sheet.texts,
                blocks: sheet.blocks,
                rules,
            }),
        },
    }
}
