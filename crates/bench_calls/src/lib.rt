// The calls as C functions on numbers, for the benchmark and for the measuring of stack: an answer becomes a number, a
// refusal 1000 or more.

#![tactic(auto)]

ghost use Rattle.std.specs.Prelude.{◌<◌};

use answers::{AnswerRecord, Ended, Fit, Narrowed, Refusal, Sought, SweepVerdict, Swept, TextRan};

#[unsafe(no_mangle)]
pub extern "C" fn wedgeotter_fits(shape: &[u64], text: &[u8]) -> u64 {
    match dashed::fits(shape, text) {
        Ok(Fit::Fits) => 1,
        Ok(Fit::Unfit) => 0,
        Err(_) => 1000,
    }
}

// The text's length.
fn written(answer: Result<usize, Refusal>) -> u64 {
    match answer {
        Ok(n) => n as u64,
        Err(_) => 1000,
    }
}

#[unsafe(no_mangle)]
pub extern "C" fn wedgeotter_least(shape: &[u64], out: &mut [u8]) -> u64 {
    written(dashed::least_text(shape, out))
}

#[unsafe(no_mangle)]
pub extern "C" fn wedgeotter_greatest(shape: &[u64], out: &mut [u8]) -> u64 {
    written(dashed::greatest_text(shape, out))
}

// Both indices in one number, with 1000000 more where some text lacks the mark; 0 for nowhere, and 1000, as here no
// indices are, for a refusal.
#[unsafe(no_mangle)]
pub extern "C" fn wedgeotter_find(shape: &[u64], mark: &[u8]) -> u64 {
    match dashed::find(shape, mark) {
        Ok(Sought::Nowhere) => 0,
        Ok(Sought::InSome(least, greatest)) => {
            1000000 + least.at % 1000 * 1000 + greatest.at % 1000
        }
        Ok(Sought::InAll(least, greatest)) => least.at % 1000 * 1000 + greatest.at % 1000,
        Err(_) => 1000,
    }
}

// The looks made, and 100000 for cannot.
#[unsafe(no_mangle)]
pub extern "C" fn wedgeotter_sweep(x: &[u64], y: &[u64], out: &mut [u64]) -> u64 {
    match dashed::sweep(x, y, out) {
        Ok(Swept::Places(k)) => k,
        Ok(Swept::Cannot(_)) => 100000,
        Err(_) => 1000,
    }
}

// The looks, with a number for the verdict above them.
fn answer(record: AnswerRecord) -> u64
    ensures { result < 262144 }
{
    let looks = record.looks % 65536;
    match record.verdict {
        Ok(SweepVerdict::Places) => looks,
        Ok(SweepVerdict::Cannot) => 65536 + looks,
        Err(_) => 131072,
    }
}

// The answers of the first 64 records in one number, the later ones counting less.
fn answers_of(row: [AnswerRecord; 66]) -> u64 {
    let mut sum: u64 = 0;
    for i in 0..64 {
        sum = sum % 4294967296 * 3 + answer(row[i]);
    }
    sum
}

// A tray over a row of 64 records, as found a cannot with no looks. 1 for a refusal.
#[unsafe(no_mangle)]
pub extern "C" fn wedgeotter_tray(blocks: &[u64], pairs: &[u64]) -> u64 {
    let found = AnswerRecord {
        verdict: Ok(SweepVerdict::Cannot),
        looks: 0,
    };
    let batch = tray_rows::sweep_row(blocks, pairs, [found; 66], 64);
    match batch.tray {
        Ok(()) => answers_of(batch.row),
        Err(_) => 1,
    }
}

// 1 for narrowed shapes, 0 for none.
fn narrowed(answer: Result<Narrowed, Refusal>) -> u64 {
    match answer {
        Ok(Narrowed::Narrow) => 1,
        Ok(Narrowed::None) => 0,
        Err(_) => 1000,
    }
}

#[unsafe(no_mangle)]
pub extern "C" fn wedgeotter_exact(
    x: &[u64],
    y: &[u64],
    work: &mut [u8],
    out_x: &mut [u64],
    out_y: &mut [u64],
) -> u64 {
    narrowed(dashed::narrow_exact(x, y, work, out_x, out_y))
}

#[unsafe(no_mangle)]
pub extern "C" fn wedgeotter_padded(
    x: &[u64],
    y: &[u64],
    work: &mut [u8],
    out_x: &mut [u64],
    out_y: &mut [u64],
) -> u64 {
    narrowed(dashed::narrow_padded(x, y, work, out_x, out_y))
}

#[unsafe(no_mangle)]
pub extern "C" fn wedgeotter_any_case(
    x: &[u64],
    y: &[u64],
    work: &mut [u8],
    out_x: &mut [u64],
    out_y: &mut [u64],
) -> u64 {
    narrowed(dashed::narrow_any_case(x, y, work, out_x, out_y))
}

#[unsafe(no_mangle)]
pub extern "C" fn wedgeotter_at_most(
    x: &[u64],
    y: &[u64],
    work: &mut [u8],
    out_x: &mut [u64],
    out_y: &mut [u64],
) -> u64 {
    narrowed(dashed::narrow_at_most(x, y, work, out_x, out_y))
}

#[unsafe(no_mangle)]
pub extern "C" fn wedgeotter_before(
    x: &[u64],
    y: &[u64],
    work: &mut [u8],
    out_x: &mut [u64],
    out_y: &mut [u64],
) -> u64 {
    narrowed(dashed::narrow_before(x, y, work, out_x, out_y))
}

#[unsafe(no_mangle)]
pub extern "C" fn wedgeotter_join(
    x: &[u64],
    y: &[u64],
    z: &[u64],
    work: &mut [u8],
    out_x: &mut [u64],
    out_y: &mut [u64],
    out_z: &mut [u64],
) -> u64 {
    narrowed(dashed::narrow_join(x, y, z, work, out_x, out_y, out_z))
}

// The text's length, and 2000 for none.
#[unsafe(no_mangle)]
pub extern "C" fn wedgeotter_common(x: &[u64], y: &[u64], work: &mut [u8], out: &mut [u8]) -> u64 {
    match dashed::common_text(x, y, work, out) {
        Ok(Some(n)) => n as u64,
        Ok(None) => 2000,
        Err(_) => 1000,
    }
}

// The name of a text's group, whether it is none, and the applications made.
fn record_of(text: TextRan) -> [u64; 3] {
    match text.ended {
        Ended::Stable(n) => [text.group, 0, n],
        Ended::None(n) => [text.group, 1, n],
    }
}

// The records of eight texts as three numbers each, if there is room for them.
fn put_records(texts: [TextRan; 8], records: &mut [u64]) {
    if records.len() < 24 {
        return;
    }
    for (k, text) in texts.iter().enumerate() {
        records[3 * k..3 * k + 3].copy_from_slice(&record_of(*text));
    }
}

// 0 for an accepted book. The records say the name of each text's group, whether it is none, and its applications.
#[unsafe(no_mangle)]
pub extern "C" fn wedgeotter_book(
    counts: &[u64],
    blocks: &mut [u64],
    rules: &[u64],
    work: &mut [u8],
    records: &mut [u64],
) -> u64 {
    let ran = dashed::run_book(counts, blocks, rules, work);
    put_records(ran.texts, records);
    match ran.checked {
        Ok(()) => 0,
        Err(_) => 2097152,
    }
}

// The report's length.
#[unsafe(no_mangle)]
pub extern "C" fn wedgeotter_file(file: &[u8], report: &mut [u8]) -> u64 {
    match dashed::run_file(file, report) {
        Ok(n) => n as u64,
        Err(_) => 2097152,
    }
}
