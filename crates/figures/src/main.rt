// A test program: figures as data. Each line of standard input is a case: its name, a public call, and the
// numbers and tables that it is lent. Each case prints a line: the name, what the call answers, and the whole
// of each table that the call may write. What it has to print stands in `stdout`, and was not made by the
// code under test. The notation is explained at the head of `stdin`.
#![tactic(auto)]

use case_calls::Lent;
use cases::fields::Case;
use cases::show;
use std::io::Write;

// One case: its name and its call.
fn show_case<W: Write>(out: &mut W, case: &Case) {
    let n = case.number(b"paths", b'=', 0);
    let mut widths = [0u16; 129];
    let mut guards = [0u8; 16385];
    let mut order = [0u8; 129];
    let mut other = [0u8; 129];
    let mut starts = [0u16; 129];
    let lent = Lent {
        n,
        widths: case.table(b"widths", u16::MAX, &mut widths),
        guards: case.guards(n, &mut guards),
    };
    show::text(out, case.name);
    case_calls::call(
        out,
        case,
        lent,
        case.table(b"order", u8::MAX, &mut order),
        case.table(b"other", u8::MAX, &mut other),
        case.table(b"starts", u16::MAX, &mut starts),
    );
    show::text(out, b"\n");
}

// The lines that are no case explain.
fn show_all<W: Write>(out: &mut W, text: &[u8]) {
    for line in text.split(|b| *b == b'\n') {
        if let Some(case) = Case::from_line(line) {
            show_case(out, &case);
        }
    }
}

fn main(rt: HostRuntime) {
    let mut text = [0u8; 65536];
    let input = console::read_all(&mut rt.stdin(), &mut text);
    show_all(&mut rt.stdout(), &text[..input.length]);
}
