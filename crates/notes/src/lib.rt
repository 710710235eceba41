// An inner crate of the plan program: the line that `--verbose` adds on standard error.
#![tactic(auto)]

ghost use Rattle.std.specs.Prelude.{◌≡◌, ◌+◌, ◌≤◌, length, eqb};
ghost use Rattle.rules.specs.Tables.{cleared, lend};
ghost use Rattle.rules.specs.Writing.{pairs};
ghost use Rattle.rules.specs.Calls.{siding};
ghost use Rattle.spelling.specs.Says.{Wrote};
ghost use Rattle.notes.specs.Note.{part, note_text};

use spelling::{Pen, Sink};

// Puts some words and a number.
#[tactic(auto, unfolding(crate::specs::Note::part))]
fn put_part<S: Sink>(sink: &mut S, w: &[u8], v: usize)
    requires { length w.now + 5 ≤ S.room sink.old }
    ensures wrote { S.takes sink.old (part w.now v) sink.new }
    ensures upper_bound { S.room sink.old ≤ S.room sink.new + length w.now + 5 }
{
    phrases::put_part(sink, w, v.min(99999));
}

// Puts the line.
fn put_note<S: Sink>(
    sink: &mut S,
    n: usize,
    conflicts: usize,
    highest: usize,
    sided: bool,
    kept: usize,
)
    requires { 80 ≤ S.room sink.old }
    ensures wrote { S.takes sink.old (note_text n conflicts highest sided kept) sink.new }
    ensures upper_bound { S.room sink.old ≤ S.room sink.new + 80 }
{
    put_part(sink, b"planned ", n);
    put_part(sink, b" paths, ", conflicts);
    put_part(sink, b" pairs, highest slot ", highest);
    if sided {
        sink.put_word(b", two sides\n");
    } else {
        put_part(sink, b", ", kept);
        sink.put_word(b" swaps kept\n");
    }
}

// The line of a network that was planned.
pub fn note(
    n: usize,
    widths: &[u16],
    guards: &[u8],
    highest: usize,
    kept: usize,
    line: &mut [u8],
) -> usize
    requires { (n ≤ 128) × (length guards.now ≡ 16384) × (80 ≤ length line.old) }
    ensures wrote { Wrote line.old 0 (note_text n (pairs n guards.now) highest
        (eqb (siding n (lend widths.now guards.now) (cleared 128 0)).answer.number 0) kept)
        result line.new }
    ensures upper_bound { result ≤ 80 }
{
    let mut order = [0; rules::PATHS];
    let sides = planning::two_sides(n, widths, guards, &mut order);
    let conflicts = sheet_tables::pair_count(n, guards);
    let mut pen = Pen::new(line);
    put_note(&mut pen, n, conflicts, highest, sides.is_ok(), kept);
    pen.place()
}
