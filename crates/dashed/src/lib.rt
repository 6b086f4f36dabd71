// The calls of document 01, and of document 02. None has a duty for its caller: whatever is lent, the call ends,
// answers or refuses by number, text and place (the one for C by its number alone), and a refusal leaves all lent
// memory as on entry.

#![tactic(auto)]

use answers::{Fit, Narrowed, Ran, Refusal, Sought, Swept};
use kinds::Relation;

// Judges a tray of pairs at once, up to 64, each by the quick sweep of one range of the lent blocks in another, into
// the answer record of its number. Its promise is `SweepTray`. It is handed on as it is: a function that passes a slice
// of structs on would be proved by hand a second time.
ghost use Rattle.dashed.specs.Promises.{CheckShape, FitsShape, Earlier, LeastText, GreatestText, Sweep, NarrowPadded, NarrowExact, NarrowAnyCase, NarrowAtMost, NarrowBefore, NarrowJoin, CommonText, FindMark, RunBook, RunFile, RunHost};

pub use trays::sweep_tray;

// Checks a shape, lent as 64-bit numbers, six to a block.
pub fn check_shape(shape: &[u64]) -> Result<(), Refusal>
    ensures { CheckShape shape.now result }
{
    shape_checks::check_lent(shape, 1)
}

// Whether a text, any bytes of any length, fits a shape.
pub fn fits(shape: &[u64], text: &[u8]) -> Result<Fit, Refusal>
    ensures { FitsShape shape.now text.now result }
{
    fitting::fits(shape, text)
}

// The earlier of two texts itself, of the two lent; if they are equal, the first.
pub fn earlier<'a>(first: &'a [u8], second: &'a [u8]) -> &'a [u8]
    ensures { Earlier first.now second.now first.entry second.entry result }
{
    texts::earlier(first, second)
}

// The least text that fits the shape, into an output of at least 250 bytes; its length.
pub fn least_text(shape: &[u64], out: &mut [u8]) -> Result<usize, Refusal>
    ensures { LeastText shape.now out.old out.new result }
{
    extremes::least_text(shape, out)
}

// The greatest text that fits the shape, into an output of at least 250 bytes; its length.
pub fn greatest_text(shape: &[u64], out: &mut [u8]) -> Result<usize, Refusal>
    ensures { GreatestText shape.now out.old out.new result }
{
    extremes::greatest_text(shape, out)
}

// The quick sweep of x in y: a place for each block of x, block and offset, into an output of two numbers per block, or
// that there cannot be a common text; with the looks made.
pub fn sweep(x: &[u64], y: &[u64], out: &mut [u64]) -> Result<Swept, Refusal>
    ensures { Sweep x.now y.now out.old out.new result }
{
    sweep_calls::sweep(x, y, out)
}

// The calls that narrow a pair stand side by side: their names are the public interface, and what they share is
// `kinds::narrow`.

// Exact narrowing under equality of fields, a rule's kind 0: the texts are equal once trailing blanks are dropped from
// both. None exactly if no filling of x and filling of y have two such texts; otherwise each block of the outputs keeps
// exactly the characters, and the least and greatest count, that some such pair gives it. It takes a work buffer of at
// least 63,001 bytes.
//
// Take this one unless you know better: instruments pad their fields, and every reader in the trade drops the padding,
// so that two lines which differ in it alone are read as one. The sweep's "cannot" is about texts that are equal to the
// letter and is no ground for a none here.
pub fn narrow_padded(
    x: &[u64],
    y: &[u64],
    work: &mut [u8],
    out_x: &mut [u64],
    out_y: &mut [u64],
) -> Result<Narrowed, Refusal>
    ensures { NarrowPadded x.now y.now work.old out_x.old out_y.old
        work.new out_x.new out_y.new result }
{
    kinds::narrow(Relation::Padded, x, y, work, out_x, out_y)
}

// The same to the letter, a rule's kind 4: over the pairs of fillings with one and the same text. It is for files of
// which every byte counts, and it is what the sweep, the earliest common text and the join are about.
pub fn narrow_exact(
    x: &[u64],
    y: &[u64],
    work: &mut [u8],
    out_x: &mut [u64],
    out_y: &mut [u64],
) -> Result<Narrowed, Refusal>
    ensures { NarrowExact x.now y.now work.old out_x.old out_y.old
        work.new out_x.new out_y.new result }
{
    kinds::narrow(Relation::Exact, x, y, work, out_x, out_y)
}

// The same without regard to letter case, a rule's kind 5: over the pairs of fillings whose texts are equal once A to Z
// are read as a to z, in both. It is for units and other words that test houses write as they like. Blanks count, and
// each base keeps its letters in the cases in which it was lent them. The sweep's "cannot" and the earliest common text
// are about texts that are equal to the letter; neither is a ground for a none here.
pub fn narrow_any_case(
    x: &[u64],
    y: &[u64],
    work: &mut [u8],
    out_x: &mut [u64],
    out_y: &mut [u64],
) -> Result<Narrowed, Refusal>
    ensures { NarrowAnyCase x.now y.now work.old out_x.old out_y.old
        work.new out_x.new out_y.new result }
{
    kinds::narrow(Relation::AnyCase, x, y, work, out_x, out_y)
}

// The same over the pairs in which the text of x is at most that of y, blanks counting as any character.
pub fn narrow_at_most(
    x: &[u64],
    y: &[u64],
    work: &mut [u8],
    out_x: &mut [u64],
    out_y: &mut [u64],
) -> Result<Narrowed, Refusal>
    ensures { NarrowAtMost x.now y.now work.old out_x.old out_y.old
        work.new out_x.new out_y.new result }
{
    kinds::narrow(Relation::AtMost, x, y, work, out_x, out_y)
}

// The same over the pairs in which the text of x is before that of y.
pub fn narrow_before(
    x: &[u64],
    y: &[u64],
    work: &mut [u8],
    out_x: &mut [u64],
    out_y: &mut [u64],
) -> Result<Narrowed, Refusal>
    ensures { NarrowBefore x.now y.now work.old out_x.old out_y.old
        work.new out_x.new out_y.new result }
{
    kinds::narrow(Relation::Before, x, y, work, out_x, out_y)
}

// Exact narrowing of a join, the text of x being that of y followed by that of z: none exactly if no three fillings are
// so; otherwise each block of the three outputs keeps exactly the characters, and the least and greatest count, that
// some such triple gives it. The uppers of y and z may add to at most 250 (12). It takes a work buffer of at least
// 63,001 bytes.
pub fn narrow_join(
    x: &[u64],
    y: &[u64],
    z: &[u64],
    work: &mut [u8],
    out_x: &mut [u64],
    out_y: &mut [u64],
    out_z: &mut [u64],
) -> Result<Narrowed, Refusal>
    ensures { NarrowJoin x.now y.now z.now work.old out_x.old out_y.old out_z.old
        work.new out_x.new out_y.new out_z.new result }
{
    join_calls::narrow(x, y, z, work, out_x, out_y, out_z)
}

// The earliest text that fits both x and y, into an output of at least 250 bytes; its length; or that no text fits
// both. It takes a work buffer of at least 63,001 bytes.
pub fn common_text(
    x: &[u64],
    y: &[u64],
    work: &mut [u8],
    out: &mut [u8],
) -> Result<Option<usize>, Refusal>
    ensures { CommonText x.now y.now work.old out.old work.new out.new result }
{
    common_calls::common_text(x, y, work, out)
}

// Where a mark of at most 64 bytes first starts in the texts that fit the shape: the least and the greatest character
// index, from 1, over the texts that have it, and whether every text has it, some lack it, or none has it. The empty
// mark occurs at 1 in every text. It takes no work and no output buffer.
pub fn find(shape: &[u64], mark: &[u8]) -> Result<Sought, Refusal>
    ensures { FindMark shape.now mark.now result }
{
    find_calls::find(shape, mark)
}

// Runs a book of rules: the texts' block counts, all their blocks end to end, the rules as fours (kind, a, b, c), c
// being 0 except in a join. Texts that rules link, directly or through others, form a group, named by its least text
// number, and each group is run by itself. The final shapes of the stable groups are left in the blocks; the texts of
// a group that is none are as on entry. For each text it hands back the name of its group, and how the group ends with
// the applications of its rules; past the last text the name is 0. It takes a work buffer of at least 63,001 bytes.
pub fn run_book(counts: &[u64], blocks: &mut [u64], rules: &[u64], work: &mut [u8]) -> Ran
    ensures { RunBook counts.now blocks.old rules.now work.old blocks.new work.new result }
{
    book_calls::run_book(counts, blocks, rules, work)
}

// Runs a book file, any bytes, to its report, into an output of at least 32,768 bytes; the report's length. Refused are
// the file (9, 8), then its book, then an output too short (5). It has its own work space.
pub fn run_file(file: &[u8], report: &mut [u8]) -> Result<usize, Refusal>
    ensures { RunFile file.now report.old report.new result }
{
    file_calls::run_file(file, report)
}

// The call of a host that is written in C, exported under this name (include/wedgeotter.h): runs a book file as
// `run_file` does, with a lent work buffer of at least 63,001 bytes. It hands back the report's length, or the
// refusal's number made negative, without text and place: 9, 8, then the book's with 4, and 5 last.
#[unsafe(no_mangle)]
pub extern "C" fn wedgeotter_run_file(book: &[u8], report: &mut [u8], work: &mut [u8]) -> i64
    ensures { RunHost book.now report.old work.old report.new work.new result }
{
    host_calls::run(book, report, work)
}
