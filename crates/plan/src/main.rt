// One run of the plan program: it reads a sheet from standard input, plans with seed 1 and 1,000 rounds, and
// prints the sheet with its starts, or the line of a refusal. With the argument `--verbose` a line on
// standard error says what was planned.
//
// From the bytes read to the bytes printed all is proved (`printing::answer`); and where `run` answers that all was
// printed, that the writer took it, at any reader and writer whose bytes are known. `main` is calls alone: that nothing
// fails, and that the system hands on the bytes of standard input and standard output as a reader and a writer do, is
// seen by examples/check.
#![tactic(auto)]

ghost use Rattle.std.specs.Prelude.{IsTrue};
ghost use Rattle.rules.specs.Program.{printed};
ghost use Rattle.printing.specs.Made.{noted};
ghost use Rattle.console.specs.Made.{WroteFrom, WroteOf};

use sheet::Tables;
use std::io::{Read, Write};

// Whether `--verbose` is the one argument.
fn is_verbose(count: usize, word: &[u8]) -> bool {
    count == 1 && word == b"--verbose".as_slice()
}

// Prints what is made of the input. Where that is the first 65,536 bytes of a sheet, it is what is made of that sheet.
fn respond<W: Write, E: Write>(out: &mut W, errors: &mut E, input: &[u8], verbose: bool) -> bool
    ensures wrote { IsTrue result → WroteFrom printed input.now (W.contents out.old) (W.contents out.new) }
    ensures told { IsTrue result → IsTrue verbose
        → WroteFrom noted input.now (E.contents errors.old) (E.contents errors.new) }
{
    let mut tables = Tables::new();
    let mut text = [0u8; rules::SHEET_MOST];
    let mut line = [0u8; 80];
    let made = printing::answer(
        input,
        &mut tables.labels,
        &mut tables.widths,
        &mut tables.guards,
        &mut tables.starts,
        &mut text,
        &mut line,
    );
    let m = made.out;
    let e = made.line;
    let is_printed = console::print(out, errors, &text[..m], b"plan: standard output");
    if !is_printed || !verbose {
        return is_printed;
    }
    console::note(errors, &line[..e], b"plan: standard error")
}

// The text holds the first 65,536 bytes of the input, more than the longest sheet has. Its answer is the
// answer for the whole input, as `answer` promises. Answers whether all was printed.
fn run<R: Read, W: Write, E: Write>(
    input: &mut R,
    out: &mut W,
    errors: &mut E,
    verbose: bool,
) -> bool
    ensures wrote { IsTrue result
        → WroteOf printed (R.remaining input.old) (W.contents out.old) (W.contents out.new) }
    ensures told { IsTrue result → IsTrue verbose
        → WroteOf noted (R.remaining input.old) (E.contents errors.old) (E.contents errors.new) }
{
    let mut text = [0u8; 65536];
    let came = console::read_all(input, &mut text);
    if let Some(error) = came.failure {
        console::fail(errors, b"plan: standard input", error);
        return false;
    }
    let have = came.length;
    respond(out, errors, &text[..have], verbose)
}

fn main(rt: HostRuntime) {
    let count = console::arguments(&rt);
    if count == 0 {
        run(&mut rt.stdin(), &mut rt.stdout(), &mut rt.stderr(), false);
        return;
    }
    let mut word = [0u8; 4096];
    let k = console::argument(&rt, 1, &mut word);
    if is_verbose(count, &word[..k]) {
        run(&mut rt.stdin(), &mut rt.stdout(), &mut rt.stderr(), true);
        return;
    }
    console::tell(&mut rt.stderr(), b"plan", b"unknown argument");
}
