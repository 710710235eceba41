// A test program: it reads a bundle of sheets, each ended by a zero byte, and prints a line for each:
// number, line, n, and a checksum of each of the four tables. What it has to print stands in `stdout`, and
// was not made by the code under test.
#![tactic(auto)]

use rules::SheetRead;
use sheet::Tables;
use std::io::Write;

// A checksum of a table's cells.
fn checksum<T: Copy + Into<u16>>(table: &[T]) -> usize {
    let mut total = 1;
    for cell in table {
        let cell: u16 = (*cell).into();
        total = (31 * total + usize::from(cell)) % 65521;
    }
    total
}

// Reads one sheet over tables of junk, and prints its line. What fails is not told: a line that is not printed whole is
// seen in what was printed.
fn show<W: Write>(out: &mut W, text: &[u8]) {
    let mut tables = Tables {
        labels: [7; rules::LABELS],
        widths: [7; rules::PATHS],
        guards: [7; rules::CELLS],
        starts: [7; rules::PATHS],
    };
    let r = SheetRead::from(tables.read(text));
    for value in [
        r.number,
        r.place,
        r.n,
        checksum(&tables.labels),
        checksum(&tables.widths),
        checksum(&tables.guards),
        checksum(&tables.starts),
    ] {
        let _ = write!(out, "{value} ");
    }
    console::write(out, b"\n");
}

// A zero byte ends each sheet, and the last one may do without.
fn show_all<W: Write>(out: &mut W, bundle: &[u8]) {
    for sheet in bundle.split_inclusive(|b| *b == 0) {
        show(out, sheet.strip_suffix(&[0]).unwrap_or(sheet));
    }
}

fn main(rt: HostRuntime) {
    let mut text = [0u8; 65536];
    let input = console::read_all(&mut rt.stdin(), &mut text);
    show_all(&mut rt.stdout(), &text[..input.length]);
}
