// At which column does the unit start? Asks it of the torque line, `T`, a number with two decimals and `Nm`, as a
// program of one's own would.

#![tactic(auto)]

use answers::{Index, Sought};

fn main() {
    // Six numbers to a block: four for its base, a bit for each code, then lower and upper.
    let line = [
        // T, once
        0u64,
        0x100000,
        0,
        0,
        1,
        1,
        // one to three digits
        0x3ff000000000000,
        0,
        0,
        0,
        1,
        3,
        // a point, once
        0x400000000000,
        0,
        0,
        0,
        1,
        1,
        // two digits
        0x3ff000000000000,
        0,
        0,
        0,
        2,
        2,
        // N, once
        0,
        0x4000,
        0,
        0,
        1,
        1,
        // m, once
        0,
        0x200000000000,
        0,
        0,
        1,
        1,
    ];
    match dashed::find(&line, b"Nm") {
        Ok(Sought::Nowhere) => said(b"no line has Nm\n"),
        Ok(Sought::InSome(least, greatest)) => columns(
            b"some lines have Nm, from column ",
            least,
            greatest,
        ),
        Ok(Sought::InAll(least, greatest)) => columns(
            b"every line has Nm, from column ",
            least,
            greatest,
        ),
        Err(r) => refused(r.number()),
    }
}

fn said(words: &[u8]) {
    io::write_all(1, words);
}

fn columns(words: &[u8], least: Index, greatest: Index) {
    said(words);
    io::print_decimal(1, least.at);
    said(b" to column ");
    io::print_decimal(1, greatest.at);
    said(b"\n");
}

fn refused(number: u64) {
    said(b"refused ");
    io::print_decimal(1, number);
    said(b"\n");
}
