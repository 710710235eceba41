// An inner crate of the programs: words with numbers and labels, and the answers that need no chain (RULES 26),
// put into a text. Each function says how many bytes it puts at the most, so that the program knows beforehand
// that the room is enough.
#![tactic(auto)]

ghost use Rattle.std.specs.Prelude.{◌≡◌, ◌++◌, ◌+◌, ◌*◌, ◌≤◌, ◌<◌, length};
ghost use Rattle.rules.specs.Text.{numeral};
ghost use Rattle.rules.specs.Writing.{label_of};
ghost use Rattle.rules.specs.Asking.{slots_text, block_text, valid_text, clash_text, unknown_text, refused_text};
ghost use Rattle.spelling.specs.Says.{Wrote};

use rules::Cause;
use spelling::{Pen, Sink};

// Puts words and a number.
#[tactic(auto, using(spelling::specs::Short::numeral_short))]
pub fn put_part<S: Sink>(sink: &mut S, w: &[u8], v: usize)
    requires { (v < 100000) × (length w.now + 5 ≤ S.room sink.old) }
    ensures wrote { S.takes sink.old (w.now ++ numeral v) sink.new }
    ensures upper_bound { S.room sink.old ≤ S.room sink.new + length w.now + 5 }
{
    sink.put_word(w);
    sink.put_number(v);
}

// Puts path k's label and words after it.
#[tactic(auto, using(sheet_laws::specs::Writes::label_short))]
pub fn put_named<S: Sink>(sink: &mut S, labels: &[u8], k: usize, w: &[u8])
    requires { (8 * k + 8 ≤ length labels.now) × (8 + length w.now ≤ S.room sink.old) }
    ensures wrote { S.takes sink.old (label_of labels.now k ++ w.now) sink.new }
    ensures upper_bound { S.room sink.old ≤ S.room sink.new + 8 + length w.now }
{
    sink.put_label(labels, k);
    sink.put_word(w);
}

// Puts a number of slots. One slot is told as one.
#[tactic(auto, using(spelling::specs::Short::numeral_short))]
pub fn put_slots<S: Sink>(sink: &mut S, d: usize)
    requires { (d < 100000) × (11 ≤ S.room sink.old) }
    ensures wrote { S.takes sink.old (slots_text d) sink.new }
    ensures upper_bound { S.room sink.old ≤ S.room sink.new + 11 }
{
    sink.put_number(d);
    if d == 1 {
        sink.put_word(b" slot");
    } else {
        sink.put_word(b" slots");
    }
}

// Puts the slots that a path has, from its start to its end. One slot is told as one.
pub fn put_block<S: Sink>(sink: &mut S, s: usize, e: usize)
    requires { (s < 100000) × (e < 100000) × (25 ≤ S.room sink.old) }
    ensures wrote { S.takes sink.old (block_text s e) sink.new }
    ensures upper_bound { S.room sink.old ≤ S.room sink.new + 25 }
{
    if s == e {
        put_part(sink, b" has slot ", s);
    } else {
        put_part(sink, b" has slots ", s);
        put_part(sink, b" to ", e);
    }
}

// Puts that a plan is valid, and its highest slot.
fn put_highest<S: Sink>(sink: &mut S, top: usize)
    requires { (top < 100000) × (9000 ≤ S.room sink.old) }
    ensures wrote { S.takes sink.old (valid_text top) sink.new }
    ensures upper_bound { S.room sink.old ≤ S.room sink.new + 9000 }
{
    put_part(sink, b"The plan is valid. Its highest slot is ", top);
    sink.put_word(b".\n");
}

// Puts the two paths of a cell, which clash, the lower number first, and how many slots short they are.
fn put_clash<S: Sink>(sink: &mut S, labels: &[u8], cell: usize, short: usize)
    requires { (length labels.now ≡ 1024) × (cell < 16384) × (short < 100000) × (9000 ≤ S.room sink.old) }
    ensures wrote { S.takes sink.old (clash_text labels.now cell short) sink.new }
    ensures upper_bound { S.room sink.old ≤ S.room sink.new + 9000 }
{
    put_named(sink, labels, cell / rules::PATHS, b" and ");
    put_named(sink, labels, cell % rules::PATHS, b" clash: ");
    put_slots(sink, short);
    sink.put_word(b" short.\n");
}

// Puts that no path has a label.
fn put_unknown<S: Sink>(sink: &mut S, name: &[u8])
    requires { (length name.now ≤ 8) × (9000 ≤ S.room sink.old) }
    ensures wrote { S.takes sink.old (unknown_text name.now) sink.new }
    ensures upper_bound { S.room sink.old ≤ S.room sink.new + 9000 }
{
    sink.put_word(b"No path is called ");
    sink.put_word(name);
    sink.put_word(b".\n");
}

// Puts what is said of a refusal of a sheet's network: no path has the label, two paths clash, or else there are
// no starts.
fn put_cause<S: Sink>(
    sink: &mut S,
    labels: &[u8],
    name: &[u8],
    number: usize,
    cell: usize,
    short: usize,
)
    requires { (length labels.now ≡ 1024) × (length name.now ≤ 8)
        × (number ≡ 8 → (cell < 16384) × (short < 100000)) × (9000 ≤ S.room sink.old) }
    ensures wrote { S.takes sink.old (refused_text labels.now name.now number cell short) sink.new }
    ensures upper_bound { S.room sink.old ≤ S.room sink.new + 9000 }
{
    if number == Cause::Entry.number() {
        put_unknown(sink, name);
    } else if number == Cause::Clash.number() {
        put_clash(sink, labels, cell, short);
    } else {
        sink.put_word(b"The sheet has no plan.\n");
    }
}

// The text of a valid plan.
pub fn put_valid(text: &mut [u8], top: usize) -> usize
    requires { (top < 100000) × (9000 ≤ length text.old) }
    ensures wrote { Wrote text.old 0 (valid_text top) result text.new }
    ensures upper_bound { result ≤ 9000 }
{
    let mut pen = Pen::new(text);
    put_highest(&mut pen, top);
    pen.place()
}

// The text of a refusal.
pub fn put_refused(
    text: &mut [u8],
    labels: &[u8],
    name: &[u8],
    number: usize,
    cell: usize,
    short: usize,
) -> usize
    requires { (length labels.now ≡ 1024) × (length name.now ≤ 8)
        × (number ≡ 8 → (cell < 16384) × (short < 100000)) × (9000 ≤ length text.old) }
    ensures wrote { Wrote text.old 0
        (refused_text labels.now name.now number cell short) result text.new }
    ensures upper_bound { result ≤ 9000 }
{
    let mut pen = Pen::new(text);
    put_cause(&mut pen, labels, name, number, cell, short);
    pen.place()
}
