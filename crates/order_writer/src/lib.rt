// An inner crate, for `order`: an order sheet written from tables that were tested, and its length, which is known
// before the first byte is written (RULES 27).
#![tactic(auto)]

ghost use Rattle.std.specs.Prelude.{◌≡◌, ◌≤◌, length};
ghost use Rattle.rules.specs.Grid.{order_line_text, order_text};
ghost use Rattle.sheet_laws.specs.Grid.{lowered};
ghost use Rattle.spelling.specs.Says.{Wrote};
ghost use Rattle.order_writer.specs.Ready.{Block, Ready};

use spelling::{Count, Pen, Sink};

// Puts path k's line: its label, n and m.
#[tactic(auto, using(sheet_laws::specs::Grid::order_line_length, crate::proofs::Fields::line_length))]
fn put_line<S: Sink>(
    sink: &mut S,
    anchor: usize,
    labels: &[u8],
    widths: &[u16],
    starts: &[u16],
    k: usize,
)
    requires { Block anchor labels.now widths.now starts.now k
        × (length (order_line_text (lowered anchor) labels.now widths.now starts.now k) ≤ S.room sink.old) }
    ensures { S.takes sink.old (order_line_text (lowered anchor) labels.now widths.now starts.now k) sink.new }
{
    let m = usize::from(widths[k]);
    let n = grid::number(anchor, usize::from(starts[k]), m);
    sink.put_label(labels, k);
    sink.put_word(b" ");
    sink.put_signed(n);
    sink.put_last(m);
}

// Puts the whole order sheet: how many lines it has, and the lines of n paths.
#[tactic(auto, using(sheet_laws::specs::Grid::order_length))]
fn put_lines<S: Sink>(
    sink: &mut S,
    anchor: usize,
    n: usize,
    labels: &[u8],
    widths: &[u16],
    starts: &[u16],
)
    requires { Ready anchor n labels.now widths.now starts.now
        × (length (order_text (lowered anchor) n labels.now widths.now starts.now) ≤ S.room sink.old) }
    ensures { S.takes sink.old (order_text (lowered anchor) n labels.now widths.now starts.now) sink.new }
{
    sink.put_count_line(text::ORDER_WORD, n);
    for k in 0..n {
        put_line(sink, anchor, labels, widths, starts, k);
    }
}

// The length of the whole order sheet.
#[tactic(auto, using(crate::proofs::Fields::order_short))]
pub fn order_length(anchor: usize, n: usize, labels: &[u8], widths: &[u16], starts: &[u16]) -> usize
    requires { Ready anchor n labels.now widths.now starts.now }
    ensures { result ≡ length
        (order_text (lowered anchor) n labels.now widths.now starts.now) }
{
    let mut count = Count::new();
    put_lines(&mut count, anchor, n, labels, widths, starts);
    count.bytes()
}

// Puts the whole order sheet, and answers its length.
pub fn put_order(
    text: &mut [u8],
    anchor: usize,
    n: usize,
    labels: &[u8],
    widths: &[u16],
    starts: &[u16],
) -> usize
    requires { Ready anchor n labels.now widths.now starts.now
        × (length (order_text (lowered anchor) n labels.now widths.now starts.now) ≤ length text.old) }
    ensures { Wrote text.old 0
        (order_text (lowered anchor) n labels.now widths.now starts.now)
        result text.new }
{
    let mut pen = Pen::new(text);
    put_lines(&mut pen, anchor, n, labels, widths, starts);
    pen.place()
}
