// A section of a file: its count, then as many lines, each read into the numbers of the item that it says.

#![tactic(auto)]

ghost use Rattle.std.specs.Prelude.{◌+◌, ◌*◌, ◌≤◌, ◌<◌, length};
ghost use Rattle.file_lines.specs.Grammar.{word_of, size_of};
ghost use Rattle.file_lines.specs.Lines.{HeadRead};
ghost use Rattle.file_lines.specs.declared.Heading.TheVariants.{Texts as texts, Blocks as blocks, Rules as rules};
ghost use Rattle.file_sections.specs.Parts.{HeadAt, LineRead, LineHere, LinesRead, SectionRead};

use file_lines::{Heading, Width};

// Some bytes depart from the grammar: so many of their lines stand before the one that does.
#[derive(Clone, Copy)]
pub struct Departs(pub u64);

// A heading's word and the count after it: each word a literal of its own length.
fn read_heading(heading: Heading, line: &[u8], most: u64) -> Option<u64>
    requires { most ≤ 65535 }
    ensures { HeadRead (word_of heading) most line.now result }
{
    match heading {
        Heading::Texts => file_lines::read_head(line, b"TEXTS ", most),
        Heading::Blocks(Width::Low) => file_lines::read_head(line, b"BLOCKS ", most),
        Heading::Blocks(Width::Wide) => file_lines::read_head(line, b"WIDE ", most),
        Heading::Rules => file_lines::read_head(line, b"RULES ", most),
    }
}

// A section's count, and the place past its newline.
fn head_at(heading: Heading, most: u64, bytes: &[u8]) -> Option<(u64, usize)>
    requires { most ≤ 65535 }
    ensures { HeadAt heading most bytes.now result }
{
    let i = file_lines::find(bytes, b'\n')?;
    let n = read_heading(heading, &bytes[..i], most)?;
    Some((n, i + 1))
}

// A line read into item number i of the output, if it is one.
fn count_line(line: &[u8], out: &mut [u64], i: usize) -> Option<()>
    requires { i < length out.old }
    ensures { LineRead texts line.now i out.old out.new result }
{
    out[i] = file_numerals::read_decimal(line)?;
    Some(())
}

fn block_line(width: Width, line: &[u8], out: &mut [u64], i: usize) -> Option<()>
    requires { i * size_of (blocks width) + size_of (blocks width) ≤ length out.old }
    ensures { LineRead (blocks width) line.now i out.old out.new result }
{
    let b = file_lines::read_block(width, line)?;
    shapes::put_block(out, i, b);
    Some(())
}

fn rule_line(line: &[u8], out: &mut [u64], i: usize) -> Option<()>
    requires { i * size_of rules + size_of rules ≤ length out.old }
    ensures { LineRead rules line.now i out.old out.new result }
{
    let r = file_lines::read_rule(line)?;
    let at = i * rules::SIZE;
    out[at..at + rules::SIZE].copy_from_slice(&[r.kind, r.a, r.b, r.c]);
    Some(())
}

// By its heading; a closure for the kind of line would be picked by this match as well.
fn read_line(heading: Heading, line: &[u8], out: &mut [u64], i: usize) -> Option<()>
    requires { i * size_of heading + size_of heading ≤ length out.old }
    ensures { LineRead heading line.now i out.old out.new result }
{
    match heading {
        Heading::Texts => count_line(line, out, i),
        Heading::Blocks(width) => block_line(width, line, out, i),
        Heading::Rules => rule_line(line, out, i),
    }
}

// The line at the start of some bytes: the place past its newline.
fn line_at(heading: Heading, bytes: &[u8], out: &mut [u64], i: usize) -> Option<usize>
    requires { i * size_of heading + size_of heading ≤ length out.old }
    ensures { LineHere heading bytes.now i out.old out.new result }
{
    let k = file_lines::find(bytes, b'\n')?;
    read_line(heading, &bytes[..k], out, i)?;
    Some(k + 1)
}

// The n lines of a section: the place past them.
fn read_lines(heading: Heading, bytes: &[u8], n: usize, out: &mut [u64]) -> Result<usize, Departs>
    requires { n * size_of heading ≤ length out.old }
    ensures { LinesRead heading n bytes.now out.old out.new result }
{
    let mut at = 0;
    for i in 0..n {
        let Some(m) = line_at(heading, &bytes[at..], out, i) else {
            return Err(Departs(i as u64));
        };
        at += m;
    }
    Ok(at)
}

// A whole section of so many items at most, read into the numbers that they are: how many they are, and the place past
// their lines.
pub fn read_section(
    heading: Heading,
    most: usize,
    bytes: &[u8],
    out: &mut [u64],
) -> Result<(usize, usize), Departs>
    requires most_bound { most ≤ 65535 }
    requires heading_in_bounds { most * size_of heading ≤ length out.old }
    ensures { SectionRead heading most bytes.now out.old out.new result }
{
    let Some((count, m)) = head_at(heading, most as u64, bytes) else {
        return Err(Departs(0));
    };
    let n = count as usize;
    match read_lines(heading, &bytes[m..], n, out) {
        Err(Departs(i)) => Err(Departs(i + 1)),
        Ok(k) => Ok((n, m + k)),
    }
}
