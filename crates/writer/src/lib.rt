// An inner crate, for `sheet`: a sheet written from tables that were tested, and its length, which is known
// before the first byte is written.
#![tactic(auto)]

ghost use Rattle.std.specs.Prelude.{◌≡◌, ◌≤◌, ◌<◌, length};
ghost use Rattle.rules.specs.Tables.{lend};
ghost use Rattle.rules.specs.Writing.{join_from, path_text, guard_text, starts_text, sheet_text};
ghost use Rattle.sheet_laws.specs.Sizes.{Sized};
ghost use Rattle.spelling.specs.Says.{Wrote};
ghost use Rattle.writer.specs.Written.{guard_lines};

use spelling::{Count, Pen, Sink};

// Puts n lines, of a label and a number of a table each.
fn put_paths<S: Sink>(sink: &mut S, n: usize, labels: &[u8], table: &[u16])
    requires { (n ≤ 128) × (length labels.now ≡ 1024) × (length table.now ≡ 128)
        × (length (join_from n 0 (path_text labels.now table.now)) ≤ S.room sink.old) }
    ensures { S.takes sink.old (join_from n 0 (path_text labels.now table.now)) sink.new }
{
    for k in 0..n {
        sink.put_path_line(labels, table, k);
    }
}

// Puts the lines of path i and the later paths, in the order of the later ones.
fn put_row_lines<S: Sink>(sink: &mut S, n: usize, i: usize, labels: &[u8], guards: &[u8])
    requires { (i < n) × (n ≤ 128) × (length labels.now ≡ 1024) × (length guards.now ≡ 16384)
        × (length (join_from n 0 (guard_text labels.now guards.now i)) ≤ S.room sink.old) }
    ensures { S.takes sink.old (join_from n 0 (guard_text labels.now guards.now i)) sink.new }
{
    for j in i + 1..n {
        sink.put_guard_line(labels, guards, i, j);
    }
}

// Puts all guard lines.
fn put_guards<S: Sink>(sink: &mut S, n: usize, labels: &[u8], guards: &[u8])
    requires { (n ≤ 128) × (length labels.now ≡ 1024) × (length guards.now ≡ 16384)
        × (length (guard_lines n labels.now guards.now) ≤ S.room sink.old) }
    ensures { S.takes sink.old (guard_lines n labels.now guards.now) sink.new }
{
    for i in 0..n {
        put_row_lines(sink, n, i, labels, guards);
    }
}

// Puts the starts section, where there is a plan.
#[tactic(auto, using(crate::proofs::Sheets::starts_with, crate::proofs::Sheets::starts_without, crate::proofs::Sheets::starts_length))]
fn put_starts<S: Sink>(sink: &mut S, n: usize, labels: &[u8], starts: &[u16])
    requires { (n ≤ 128) × (length labels.now ≡ 1024) × (length starts.now ≡ 128)
        × (length (starts_text n labels.now starts.now) ≤ S.room sink.old) }
    ensures { S.takes sink.old (starts_text n labels.now starts.now) sink.new }
{
    if sheet_tables::has_plan(n, starts) {
        sink.put_count_line(text::STARTS_WORD, n);
        put_paths(sink, n, labels, starts);
    }
}

// Puts the whole sheet.
#[tactic(auto, using(crate::proofs::Sheets::sheet_length))]
fn put_sections<S: Sink>(
    sink: &mut S,
    n: usize,
    labels: &[u8],
    widths: &[u16],
    guards: &[u8],
    starts: &[u16],
)
    requires { (n ≤ 128) × Sized labels.now widths.now guards.now starts.now
        × (length (sheet_text n labels.now (lend widths.now guards.now) starts.now) ≤ S.room sink.old) }
    ensures { S.takes sink.old (sheet_text n labels.now (lend widths.now guards.now) starts.now) sink.new }
{
    sink.put_count_line(text::PATHS_WORD, n);
    put_paths(sink, n, labels, widths);
    sink.put_count_line(text::GUARDS_WORD, sheet_tables::pair_count(n, guards));
    put_guards(sink, n, labels, guards);
    put_starts(sink, n, labels, starts);
}

// The length of the whole sheet.
#[tactic(auto, using(crate::proofs::Sheets::sheet_short))]
pub fn sheet_length(n: usize, labels: &[u8], widths: &[u16], guards: &[u8], starts: &[u16]) -> usize
    requires { (n ≤ 128) × Sized labels.now widths.now guards.now starts.now }
    ensures { result ≡ length
        (sheet_text n labels.now (lend widths.now guards.now)
        starts.now) }
{
    let mut count = Count::new();
    put_sections(&mut count, n, labels, widths, guards, starts);
    count.bytes()
}

// Puts the whole sheet, and answers its length.
pub fn put_sheet(
    text: &mut [u8],
    n: usize,
    labels: &[u8],
    widths: &[u16],
    guards: &[u8],
    starts: &[u16],
) -> usize
    requires { (n ≤ 128) × Sized labels.now widths.now guards.now starts.now
        × (length (sheet_text n labels.now (lend widths.now guards.now) starts.now) ≤ length
        text.old) }
    ensures { Wrote text.old 0
        (sheet_text n labels.now (lend widths.now guards.now)
        starts.now) result text.new }
{
    let mut pen = Pen::new(text);
    put_sections(&mut pen, n, labels, widths, guards, starts);
    pen.place()
}
