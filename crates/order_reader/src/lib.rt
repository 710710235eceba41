// An inner crate, for `order`: an order sheet read into a table of starts (RULES 27).
#![tactic(auto)]

ghost use Rattle.std.specs.Prelude.{◌≡◌, ◌+◌, ◌*◌, ◌≤◌, ◌<◌, length, IfSome, IfErr};
ghost use Rattle.rules.specs.Sheet.{lines};
ghost use Rattle.rules.specs.Grid.{order_line, order_step, order_from};
ghost use Rattle.sheet_laws.specs.Grid.{lowered};
ghost use Rattle.lines.specs.Says.{line_of};
ghost use Rattle.sections.specs.Says.{section_of, ended_of};
ghost use Rattle.order_reader.specs.Says.{parsed_order};

use rules::{Cause, Refusal};

// A line: its label, n as it is counted from -100,000, and m.
#[derive(Clone, Copy)]
struct OrderLine<'a> {
    label: &'a [u8],
    n: usize,
    m: usize,
}

// A label, n and m.
#[tactic(auto, unfolding(rules::specs::Grid::order_line, rules::specs::Text::then))]
fn order_line(text: &[u8]) -> Option<(OrderLine<'_>, &[u8])>
    ensures value { parsed_order result ≡ order_line text.now }
    ensures below { IfSome result (λ r. r.0.n < 200000) }
{
    let (label, field) = text::label(text)?;
    let (n, field) = text::signed(text::word(field, b" ")?)?;
    let (m, rest) = text::last_field(field)?;
    Some((OrderLine { label, n, m }, rest))
}

// Path k's line: 11, 13 not its label, 3 an m that is not its width, 7 an n that gives no start.
#[tactic(auto, unfolding(rules::specs::Grid::order_step, rules::specs::Grid::order_means))]
fn order_step<'a>(
    text: &'a [u8],
    k: usize,
    anchor: usize,
    labels: &[u8],
    widths: &[u16],
    starts: &mut [u16],
) -> Result<&'a [u8], Cause>
    requires { (anchor ≤ 101024) × (8 * k + 8 ≤ length labels.now) × (k < length widths.now)
        × (k < length starts.old) }
    ensures { line_of starts.new result ≡ order_step (lowered anchor) labels.now widths.now k starts.old text.now }
{
    let (line, rest) = order_line(text).ok_or(Cause::Form)?;
    if !labels::is_row(labels, k, line.label) {
        return Err(Cause::LabelUnknown);
    }
    let width = usize::from(widths[k]);
    if line.m != width {
        return Err(Cause::Width);
    }
    let start = grid::start_of(anchor, width, line.n).ok_or(Cause::Start)?;
    starts[k] = start as u16;
    Ok(rest)
}

// The lines of n paths.
#[tactic(auto, using(crate::proofs::Turns::turns))]
fn order_lines<'a>(
    text: &'a [u8],
    n: usize,
    anchor: usize,
    labels: &[u8],
    widths: &[u16],
    starts: &mut [u16],
) -> Result<&'a [u8], Refusal>
    requires { (anchor ≤ 101024) × (n ≤ 128) × (length labels.now ≡ 1024)
        × (length widths.now ≡ 128) × (length starts.old ≡ 128) }
    ensures section { section_of starts.new result
        ≡ lines (order_step (lowered anchor) labels.now widths.now) 2 n 0 starts.old text.now }
    ensures short { IfErr result (λ r. r.short ≡ 0) }
{
    let mut rest = text;
    for k in 0..n {
        let step = order_step(rest, k, anchor, labels, widths, starts);
        rest = step.map_err(|cause| Refusal::at(cause, 2 + k))?;
    }
    Ok(rest)
}

// The whole order sheet: its count, 1 where it is not n, its lines, and the end of the text.
#[tactic(auto, unfolding(rules::specs::Grid::order_from, rules::specs::Sheet::last_part, rules::specs::Sheet::counted, rules::specs::Sheet::after, rules::specs::Sheet::ended))]
pub fn order_part(
    text: &[u8],
    n: usize,
    anchor: usize,
    labels: &[u8],
    widths: &[u16],
    starts: &mut [u16],
) -> Result<(), Refusal>
    requires { (anchor ≤ 101024) × (n ≤ 128) × (length labels.now ≡ 1024)
        × (length widths.now ≡ 128) × (length starts.old ≡ 128) }
    ensures sheet { ended_of starts.new result
        ≡ order_from (lowered anchor) n labels.now widths.now starts.old text.now }
    ensures short { IfErr result (λ r. r.short ≡ 0) }
{
    let (m, rest) = text::count_line(text, text::ORDER_WORD).ok_or(Refusal::at(Cause::Form, 1))?;
    if m != n {
        return Err(Refusal::at(Cause::Count, 1));
    }
    let rest = order_lines(rest, n, anchor, labels, widths, starts)?;
    if !rest.is_empty() {
        return Err(Refusal::at(Cause::Form, 2 + n));
    }
    Ok(())
}
