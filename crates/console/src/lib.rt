// An inner crate of the programs: standard input read to its end, a refusal's line, and bytes written whole.
//
// What is proved: that every function is safe and ends, where each byte that came is put (`keep`, `read_all`), and a
// refusal's line (`refuse`). At any reader and writer of which it is known what they have left to give and what they
// hold: that the bytes that came are those of the input, each once and in order, and that those handed to `write`
// arrive. Of what the system reads or writes no contract can say that: it is only seen by running a program
// (examples/check).
#![tactic(auto)]

ghost use Rattle.std.specs.Prelude.{◌≡◌, ◌+◌, ◌≤◌, ◌<◌, length, take, IfSome, IsNone, IsTrue, ◌↔◌};
ghost use Rattle.std.specs.Io.KnownBytes.{Appends, IsAtEnd};
ghost use Rattle.rules.specs.Program.{refusal_text};
ghost use Rattle.spelling.specs.Says.{Wrote};
ghost use Rattle.console.specs.Failed.{IsLasting};
ghost use Rattle.console.specs.Kept.{Kept, Came, Took};

use spelling::{Pen, Sink};
use std::env::{Env, FillError};
use std::io::{Cursor, Error, ErrorKind, Read, Write};
use std::thread::yield_now;

// What a call after another has moved: how many bytes, from the first on; and why the last call failed, where it did.
// The two stand beside each other: the bytes count where a call failed too, so no Result says this.
#[derive(Drop)]
pub struct Moved {
    pub length: usize,
    pub failure: Option<Error>,
}

// Puts bytes that came into the text, after those that it has, as far as there is room. Answers how many it
// has then.
fn keep(text: &mut [u8], have: usize, came: &[u8]) -> usize
    requires { have ≤ length text.old }
    ensures { Kept text.old have came.now result text.new }
{
    let count = came.len().min(text.len() - have);
    let end = have + count;
    text[have..end].copy_from_slice(&came[..count]);
    end
}

// Whether a call has failed for good. One that was interrupted, or that would have had to wait, is tried
// again; before the latter others get their turn.
fn has_failed(error: &Error) -> bool
    ensures { IsTrue result ↔ IsLasting error.now }
{
    let kind = error.kind();
    if kind == ErrorKind::WouldBlock {
        yield_now();
        return false;
    }
    kind != ErrorKind::Interrupted
}

// Reads an input to its end, whatever the pieces are that it comes in. What the text has no room for is read
// and dropped. A read that fails is not the end. A proved loop has to end, so this one counts its turns, up to a number
// that no run uses up. Promised: the text past the length answered is as it was, and before it has the first bytes
// that the reader gave, which are all that it had where nothing failed.
pub fn read_all<R: Read>(input: &mut R, text: &mut [u8]) -> Moved
    ensures came { Came text.old result.length text.new }
    ensures took { Took (R.remaining input.old) (R.remaining input.new) result.length text.new }
    ensures end { IsNone result.failure → IsAtEnd (R.remaining input.new) }
    ensures lasting { IfSome result.failure IsLasting }
{
    let mut length = 0;
    let mut piece = [0u8; 4096];
    'turns: for _ in 0..u64::MAX {
        match input.read(&mut piece) {
            Ok(0) => {
                return Moved {
                    length,
                    failure: None,
                };
            }
            Ok(n) => length = keep(text, length, &piece[..n]),
            Err(error) if has_failed(&error) => {
                return Moved {
                    length,
                    failure: Some(error),
                };
            }
            Err(_) => {}
        }
    }
    Moved {
        length,
        failure: Some(Error::from(ErrorKind::TimedOut)),
    }
}

// Writes bytes until all are taken, a write takes none, or a write fails. Each call is handed those that are
// left. Promised: the writer took so many of the bytes, from the first on, each once and in order. Where nothing failed
// and bytes are left, the last call took none.
pub fn write<W: Write>(out: &mut W, bytes: &[u8]) -> Moved
    ensures within { result.length ≤ length bytes.now }
    ensures wrote { Appends (W.contents out.old) (W.contents out.new) (take result.length bytes.now) }
    ensures lasting { IfSome result.failure IsLasting }
{
    let mut length = 0;
    'turns: for _ in 0..u64::MAX {
        let rest = &bytes[length..];
        if rest.is_empty() {
            return Moved {
                length,
                failure: None,
            };
        }
        match out.write(rest) {
            Ok(0) => {
                return Moved {
                    length,
                    failure: None,
                };
            }
            Ok(n) => length += n,
            Err(error) if has_failed(&error) => {
                return Moved {
                    length,
                    failure: Some(error),
                };
            }
            Err(_) => {}
        }
    }
    Moved {
        length,
        failure: Some(Error::from(ErrorKind::TimedOut)),
    }
}

// Tells one line.
pub fn tell<E: Write>(errors: &mut E, about: &[u8], why: &[u8]) {
    for part in [about, b": ", why, b"\n"] {
        write(errors, part);
    }
}

// The words for an error: those of the system alone, which std puts before the error's number.
fn words(text: &str) -> &str {
    text.rsplit_once(" (os error ")
        .map_or(text, |(words, _)| words)
}

// Tells why a call failed.
pub fn fail<E: Write>(errors: &mut E, about: &[u8], error: Error) {
    let mut line = Cursor::new([0u8; 256]);
    let _ = write!(line, "{error}");
    let count = (line.position() as usize).min(256);
    let all = line.get_ref();
    let text = str::from_utf8(&all[..count]).unwrap_or("");
    tell(errors, about, words(text).as_bytes());
}

// Whether bytes were written whole. Where they were not, it is told.
fn is_whole<E: Write>(errors: &mut E, written: Moved, bytes: &[u8], about: &[u8]) -> bool
    ensures value { IsTrue result ↔ (written.length ≡ length bytes.now) }
    ensures silent { IsTrue result → errors.new ≡ errors.old }
{
    if written.length == bytes.len() {
        return true;
    }
    match written.failure {
        Some(error) => fail(errors, about, error),
        None => tell(errors, about, b"a write took no bytes"),
    }
    false
}

// Writes bytes whole. Where that does not succeed, it is told, and the answer is false.
pub fn print<W: Write, E: Write>(out: &mut W, errors: &mut E, bytes: &[u8], about: &[u8]) -> bool
    ensures wrote { IsTrue result → Appends (W.contents out.old) (W.contents out.new) bytes.now }
    ensures silent { IsTrue result → errors.new ≡ errors.old }
{
    let written = write(out, bytes);
    is_whole(errors, written, bytes, about)
}

// The same of bytes for standard error itself.
pub fn note<E: Write>(errors: &mut E, bytes: &[u8], about: &[u8]) -> bool
    ensures { IsTrue result → Appends (E.contents errors.old) (E.contents errors.new) bytes.now }
{
    let written = write(errors, bytes);
    is_whole(errors, written, bytes, about)
}

// How many arguments follow the program's own name.
pub fn arguments(rt: &HostRuntime) -> usize {
    (1..usize::MAX)
        .take_while(|place| is_given(rt, *place))
        .count()
}

fn is_given(rt: &HostRuntime, place: usize) -> bool {
    !matches!(rt.arg(place, &mut [0u8; 1]), Err(FillError::NotPresent))
}

// Puts an argument at the start of a text, and answers its length: 0 where it is missing, or there is no room for it.
pub fn argument(rt: &HostRuntime, place: usize, text: &mut [u8]) -> usize
    ensures { result ≤ length text.new }
{
    rt.arg(place, text).unwrap_or(0)
}

// Puts the one line of a refusal: the number, then the line.
fn put_refusal<S: Sink>(sink: &mut S, number: usize, line: usize)
    requires { (number < 100000) × (line < 100000) × (25 ≤ S.room sink.old) }
    ensures wrote { S.takes sink.old (refusal_text number line) sink.new }
    ensures upper_bound { S.room sink.old ≤ S.room sink.new + 25 }
{
    phrases::put_part(sink, b"refused ", number);
    phrases::put_part(sink, b" line ", line);
    sink.put_word(b"\n");
}

// The one line of a refusal, at the start of a text. Answers its length.
pub fn refuse(out: &mut [u8], number: usize, line: usize) -> usize
    requires { (number < 100000) × (line < 100000) × (25 ≤ length out.old) }
    ensures wrote { Wrote out.old 0 (refusal_text number line) result out.new }
    ensures upper_bound { result ≤ 25 }
{
    let mut pen = Pen::new(out);
    put_refusal(&mut pen, number, line);
    pen.place()
}
