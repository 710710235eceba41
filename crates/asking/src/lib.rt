// An inner crate of the ask program (RULES 26): from its arguments and an input, a sheet with a plan, to what is
// printed.
#![tactic(auto)]

ghost use Rattle.std.specs.Prelude.{◌≡◌, ◌≤◌, length};
ghost use Rattle.rules.specs.Program.{refusal_text, on_sheet};
ghost use Rattle.rules.specs.Asking.{asked};
ghost use Rattle.sheet_laws.specs.Sizes.{Sized};
ghost use Rattle.questions.specs.Asks.{topic_text, Fit};
ghost use Rattle.spelling.specs.Says.{Wrote};
ghost use Rattle.console.specs.Made.{Made};

use questions::{Question, Topic};

// Room for the longest answer: a chain of all 128 paths, whose links have at most 68 bytes each.
pub const ANSWER_MOST: usize = 9000;

// What is asked of a sheet, from the input on, which the reader may refuse.
fn sheet_answer(
    topic: Topic,
    second: &[u8],
    input: &[u8],
    labels: &mut [u8],
    widths: &mut [u16],
    guards: &mut [u8],
    starts: &mut [u16],
    out: &mut [u8],
) -> usize
    requires { Sized labels.old widths.old guards.old starts.old × Fit second.now topic
        × (9000 ≤ length out.old) }
    ensures wrote { Wrote out.old 0
        (on_sheet refusal_text (topic_text second.now topic) input.now) result
        out.new }
    ensures upper_bound { result ≤ 9000 }
{
    match sheet::read(input, labels, widths, guards, starts) {
        Ok(n) => answers::topic_text(topic, second, n, labels, widths, guards, starts, out),
        Err(refusal) => console::refuse(out, refusal.cause.number(), refusal.place),
    }
}

// From the arguments, how many there are and the first two of them, and the input to what is printed: so many
// bytes of a lent text that has room for the longest answer. The four tables are for the work. Where the input
// has 65,536 bytes or more, whatever comes after them changes nothing.
pub fn answer(
    count: usize,
    first: &[u8],
    second: &[u8],
    input: &[u8],
    labels: &mut [u8],
    widths: &mut [u16],
    guards: &mut [u8],
    starts: &mut [u16],
    out: &mut [u8],
) -> usize
    requires { (length labels.old ≡ 1024) × (length widths.old ≡ 128) × (length guards.old ≡ 16384)
        × (length starts.old ≡ 128) × (length out.old ≡ 9000) }
    ensures { Made (asked count first.now second.now) input.now result
        out.new }
{
    let said: &[u8] = match questions::asked_for(count, first, second) {
        Question::Sheet(topic) => {
            return sheet_answer(topic, second, input, labels, widths, guards, starts, out);
        }
        Question::NoLabel => b"Say which path: why LABEL.\n",
        Question::BadLabel => b"A label has 1 to 8 capitals, digits or hyphens.\n",
        Question::NoAnchor => b"Say the anchor: order ANCHOR.\n",
        Question::BadAnchor => b"An anchor is a whole number, -1024 to 1024.\n",
        Question::NoWord => b"The words are why, judge and order.\n",
    };
    answers::put_text(out, said)
}
