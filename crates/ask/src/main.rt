// One run of the ask program (RULES 26): `ask why LABEL` says why a path stands where it stands, `ask judge` whether
// the plan is valid, and `ask order ANCHOR` prints its order sheet. The sheet with its plan comes from standard
// input, and the answer, in lines that can be read aloud, goes to standard output.
//
// From the arguments and the bytes read to the bytes printed all is proved (`asking::answer`); and where `run` answers
// that it was printed whole, that the writer took it, at any reader and writer whose bytes are known. `main` is calls
// alone: that it lends `run` what the arguments held, that nothing fails, and that the system hands on the bytes of
// standard input and standard output as a reader and a writer do, is only seen by running it.
#![tactic(auto)]

ghost use Rattle.std.specs.Prelude.{IsTrue};
ghost use Rattle.rules.specs.Asking.{asked};
ghost use Rattle.console.specs.Made.{WroteFrom, WroteOf};

use sheet::Tables;
use std::io::{Read, Write};

// Prints the answer. Where the input is the first 65,536 bytes of a sheet, it is the answer for that sheet.
fn respond<W: Write, E: Write>(
    out: &mut W,
    errors: &mut E,
    count: usize,
    first: &[u8],
    second: &[u8],
    input: &[u8],
) -> bool
    ensures { IsTrue result → WroteFrom (asked count first.now second.now) input.now
        (W.contents out.old) (W.contents out.new) }
{
    let mut tables = Tables::new();
    let mut text = [0u8; asking::ANSWER_MOST];
    let m = asking::answer(
        count,
        first,
        second,
        input,
        &mut tables.labels,
        &mut tables.widths,
        &mut tables.guards,
        &mut tables.starts,
        &mut text,
    );
    console::print(out, errors, &text[..m], b"ask: standard output")
}

// Where no sheet is asked for, the input is left alone: the answer is the same whatever it holds, as `needs_input`
// promises. Else the text holds its first 65,536 bytes, more than the longest sheet has, and the answer is that for
// the whole input, as `answer` promises. Answers whether it was printed whole.
fn run<R: Read, W: Write, E: Write>(
    input: &mut R,
    out: &mut W,
    errors: &mut E,
    count: usize,
    first: &[u8],
    second: &[u8],
) -> bool
    ensures { IsTrue result → WroteOf (asked count first.now second.now) (R.remaining input.old)
        (W.contents out.old) (W.contents out.new) }
{
    if !questions::needs_input(count, first, second) {
        return respond(out, errors, count, first, second, b"");
    }
    let mut text = [0u8; 65536];
    let came = console::read_all(input, &mut text);
    if let Some(error) = came.failure {
        console::fail(errors, b"ask: standard input", error);
        return false;
    }
    let have = came.length;
    respond(out, errors, count, first, second, &text[..have])
}

// An argument that is missing, or longer than its buffer, stands as an empty one: that is no word, no label and no
// anchor either, so the answer is the same.
fn main(rt: HostRuntime) {
    let mut first = [0u8; 4096];
    let mut second = [0u8; 4096];
    let j = console::argument(&rt, 1, &mut first);
    let k = console::argument(&rt, 2, &mut second);
    run(
        &mut rt.stdin(),
        &mut rt.stdout(),
        &mut rt.stderr(),
        console::arguments(&rt),
        &first[..j],
        &second[..k],
    );
}
