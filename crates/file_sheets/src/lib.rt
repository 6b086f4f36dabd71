// A sheet of a file: its texts' block counts and its blocks, one section after the other.

#![tactic(auto)]

ghost use Rattle.std.specs.Prelude.{◌*◌, ◌≤◌, length};
ghost use Rattle.shapes.specs.Shape.{block_size};
ghost use Rattle.file_lines.specs.declared.Heading.TheVariants.{Blocks as blocks-heading};
ghost use Rattle.file_lines.specs.Book.{blocks_section};
ghost use Rattle.rules.specs.Limits.{book_blocks};
ghost use Rattle.file_sections.specs.Parts.{HeadedBy};
ghost use Rattle.file_sheets.specs.Sheet.{SheetRead};

use file_lines::{Heading, Width};
use file_sections::Departs;

// A sheet at the start of some bytes: how wide its blocks are said, how many texts and blocks, and the place past it.
#[derive(Clone, Copy)]
pub struct SheetAt {
    pub width: Width,
    pub texts: usize,
    pub blocks: usize,
    pub end: usize,
}

// By which of its two words a section of blocks can be headed: the first letter tells.
fn width_at(bytes: &[u8]) -> Width
    ensures { HeadedBy blocks_section (blocks-heading result) bytes.now }
{
    if bytes.starts_with(b"W") {
        Width::Wide
    } else {
        Width::Low
    }
}

// Reads a sheet of so many texts at most into its block counts and the numbers of its blocks.
pub fn read_sheet(
    texts: usize,
    bytes: &[u8],
    counts: &mut [u64],
    blocks: &mut [u64],
) -> Result<SheetAt, Departs>
    requires texts_bound { texts ≤ 65535 }
    requires texts_in_bounds { texts ≤ length counts.old }
    requires block_size_in_bounds { book_blocks * block_size ≤ length blocks.old }
    ensures { SheetRead texts bytes.now counts.old blocks.old counts.new blocks.new result }
{
    let (n, m) = file_sections::read_section(Heading::Texts, texts, bytes, counts)?;
    let rest = &bytes[m..];
    let width = width_at(rest);
    match file_sections::read_section(Heading::Blocks(width), rules::BLOCKS, rest, blocks) {
        Err(Departs(i)) => Err(Departs(n as u64 + i + 1)),
        Ok((b, k)) => Ok(SheetAt {
            width,
            texts: n,
            blocks: b,
            end: m + k,
        }),
    }
}
