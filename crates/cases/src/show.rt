// What a case prints.
use std::io::Write;

pub fn text<W: Write>(out: &mut W, word: &[u8]) {
    console::write(out, word);
}

// A number. What fails is not told: a case that is not printed whole is seen in what was printed.
fn decimal<W: Write>(out: &mut W, x: usize) {
    let _ = write!(out, "{x}");
}

// A word and a number.
pub fn value<W: Write>(out: &mut W, word: &[u8], x: usize) {
    text(out, word);
    text(out, b" ");
    decimal(out, x);
}

pub fn answer<W: Write>(out: &mut W, number: usize, place: usize) {
    value(out, b"", number);
    value(out, b"", place);
}

// A word and the cells of a table: equal cells in a row are printed once, as `7*125`.
pub fn table<W: Write, T: Copy + PartialEq + Into<usize>>(out: &mut W, word: &[u8], table: &[T]) {
    text(out, word);
    for run in table.chunk_by(|a, b| a == b) {
        value(out, b"", run[0].into());
        if 1 < run.len() {
            text(out, b"*");
            decimal(out, run.len());
        }
    }
}
