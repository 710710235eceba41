// An inner crate of the ask program (RULES 26): the answers on a sheet that was read.
#![tactic(auto)]

ghost use Rattle.std.specs.Prelude.{◌≡◌, ◌≤◌, ◌<◌, length};
ghost use Rattle.rules.specs.Tables.{lend};
ghost use Rattle.rules.specs.Asking.{why_text, judge_text, ordered_text};
ghost use Rattle.sheet_laws.specs.Sizes.{Sized};
ghost use Rattle.sheet_laws.specs.Grid.{lowered};
ghost use Rattle.questions.specs.Asks.{topic_text, Fit};
ghost use Rattle.spelling.specs.Says.{Wrote};

use questions::Topic;
use spelling::{Pen, Sink};

// A text that is given.
pub fn put_text(out: &mut [u8], text: &[u8]) -> usize
    requires { length text.now ≤ length out.old }
    ensures { Wrote out.old 0 text.now result out.new }
{
    let mut pen = Pen::new(out);
    pen.put_word(text);
    pen.place()
}

// Why the path of a name stands where it stands, of a sheet that was read.
fn why_text(
    name: &[u8],
    n: usize,
    labels: &[u8],
    widths: &[u16],
    guards: &[u8],
    starts: &[u16],
    out: &mut [u8],
) -> usize
    requires { (n ≤ 128) × Sized labels.now widths.now guards.now starts.now
        × (length name.now ≤ 8) × (9000 ≤ length out.old) }
    ensures wrote { Wrote out.old 0
        (why_text name.now n labels.now
        (lend widths.now guards.now) starts.now) result out.new }
    ensures upper_bound { result ≤ 9000 }
{
    let mut chain = [0u8; rules::PATHS];
    let path = questions::path_called(n, labels, name);
    match reason::why(n, widths, guards, starts, path, &mut chain) {
        Ok(why) => reason_lines::put_reason(
            out,
            labels,
            widths,
            guards,
            starts,
            &chain[..why.length],
            why.down,
        ),
        Err(e) => phrases::put_refused(out, labels, name, e.cause.number(), e.place, e.short),
    }
}

// Whether the plan of a sheet that was read is valid.
fn judge_text(
    n: usize,
    labels: &[u8],
    widths: &[u16],
    guards: &[u8],
    starts: &[u16],
    out: &mut [u8],
) -> usize
    requires { (length labels.now ≡ 1024) × (9000 ≤ length out.old) }
    ensures wrote { Wrote out.old 0
        (judge_text n labels.now (lend widths.now guards.now)
        starts.now) result out.new }
    ensures upper_bound { result ≤ 9000 }
{
    match clashes::check_plan(n, widths, guards, Ok(()), starts) {
        Ok(plan) => phrases::put_valid(out, questions::highest_slot(&plan)),
        Err(e) => phrases::put_refused(out, labels, b"", e.cause.number(), e.place, e.short),
    }
}

// The order sheet of a sheet that was read, from an anchor that is counted from -100,000. Only a valid plan is ordered.
fn order_text(
    anchor: usize,
    n: usize,
    labels: &[u8],
    widths: &[u16],
    guards: &[u8],
    starts: &[u16],
    out: &mut [u8],
) -> usize
    requires { (anchor < 200000) × (length labels.now ≡ 1024) × (9000 ≤ length out.old) }
    ensures wrote { Wrote out.old 0
        (ordered_text (lowered anchor) n labels.now
        (lend widths.now guards.now) starts.now) result out.new }
    ensures upper_bound { result ≤ 9000 }
{
    match packing::judge(n, widths, guards, starts) {
        Ok(()) => {
            let mut sheet = [0u8; rules::ORDER_MOST];
            let written = order::order_write(
                grid::uncounted(anchor),
                n,
                labels,
                widths,
                guards,
                starts,
                &mut sheet,
            );
            put_text(out, &sheet[..written.unwrap_or(0)])
        }
        Err(e) => phrases::put_refused(out, labels, b"", e.cause.number(), e.place, e.short),
    }
}

// What is asked of a sheet that was read, where the second argument is given.
pub fn topic_text(
    topic: Topic,
    second: &[u8],
    n: usize,
    labels: &[u8],
    widths: &[u16],
    guards: &[u8],
    starts: &[u16],
    out: &mut [u8],
) -> usize
    requires { (n ≤ 128) × Sized labels.now widths.now guards.now starts.now
        × Fit second.now topic × (9000 ≤ length out.old) }
    ensures wrote { Wrote out.old 0
        (topic_text second.now topic n labels.now
        (lend widths.now guards.now) starts.now) result out.new }
    ensures upper_bound { result ≤ 9000 }
{
    match topic {
        Topic::Reason => why_text(second, n, labels, widths, guards, starts, out),
        Topic::Verdict => judge_text(n, labels, widths, guards, starts, out),
        Topic::Order(anchor) => order_text(anchor, n, labels, widths, guards, starts, out),
    }
}
