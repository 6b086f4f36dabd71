// The line of an answer.
use answers::{Fit, Refusal};
use test_lines::show::{line, refused, refused_line, text};

pub fn checked(answer: Result<(), Refusal>) {
    match answer {
        Ok(()) => line(b"sound"),
        Err(r) => refused_line(r),
    }
}

pub fn fit(answer: Result<Fit, Refusal>) {
    match answer {
        Ok(Fit::Fits) => line(b"fits"),
        Ok(Fit::Unfit) => line(b"unfit"),
        Err(r) => refused_line(r),
    }
}

// The answer with the whole output after the call.
pub fn written(answer: Result<usize, Refusal>, out: &[u8]) {
    match answer {
        Ok(k) => {
            io::write_all(1, b"text ");
            io::print_decimal(1, k as u64);
        }
        Err(r) => refused(r),
    }
    io::write_all(1, b" ");
    text(out);
    line(b"");
}
