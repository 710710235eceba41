// An inner crate, for the readers of sheets: what each line of a sheet means, over the tables that it is read into.
#![tactic(auto)]

ghost use Rattle.std.specs.Prelude.{◌≡◌, ◌+◌, ◌*◌, ◌≤◌, ◌<◌, length};
ghost use Rattle.rules.specs.Sheet.{guard_line, path_step, guard_step, start_step};
ghost use Rattle.lines.specs.Says.{parsed_guard, line_of};

use rules::Cause;

// A guard's line: its two labels and its guard.
#[derive(Clone, Copy)]
pub struct GuardLine<'a> {
    pub first: &'a [u8],
    pub second: &'a [u8],
    pub guard: usize,
}

// What a field may hold, as the number that it spells: that can be 99,999, more than a table's cell takes.
const WIDTH_MOST: usize = rules::WIDTH_MOST as usize;

const GUARD_MOST: usize = rules::GUARD_MOST as usize;

const START_MOST: usize = rules::START_MOST as usize;

// Path k's line, over the labels and widths of the paths before it: 11, 12 label again, 3 width outside 1 to 64
// (RULES 14).
#[tactic(auto, unfolding(rules::specs::Sheet::path_step, rules::specs::Sheet::path_means))]
pub fn path_step<'a>(
    text: &'a [u8],
    k: usize,
    labels: &mut [u8],
    widths: &mut [u16],
) -> Result<&'a [u8], Cause>
    requires { (k < 128) × (length labels.old ≡ 1024) × (k < length widths.old) }
    ensures { line_of (labels.new, widths.new) result ≡ path_step k (labels.old, widths.old) text.now }
{
    let (line, rest) = text::path_line(text).ok_or(Cause::Form)?;
    if labels::find(labels, k, line.label).is_some() {
        return Err(Cause::LabelTwice);
    }
    if !(1..=WIDTH_MOST).contains(&line.number) {
        return Err(Cause::Width);
    }
    labels::put_row(labels, k, line.label);
    widths[k] = line.number as u16;
    Ok(rest)
}

// Two labels and a number: a label, and then a line like a path's.
#[tactic(auto, unfolding(rules::specs::Sheet::guard_line, rules::specs::Text::then))]
pub fn guard_line(text: &[u8]) -> Option<(GuardLine<'_>, &[u8])>
    ensures { parsed_guard result ≡ guard_line text.now }
{
    let (first, field) = text::label(text)?;
    let (line, rest) = text::path_line(text::word(field, b" ")?)?;
    let (second, guard) = (line.label, line.number);
    Some((
        GuardLine {
            first,
            second,
            guard,
        },
        rest,
    ))
}

// A guard's line, over the labels of n paths: 11, 13 no path's label or one label twice, 14 the pair again, 4
// guard over 32.
#[tactic(auto, unfolding(rules::specs::Sheet::guard_step, rules::specs::Sheet::guard_means, rules::specs::Sheet::guard_cell))]
pub fn guard_step<'a>(
    text: &'a [u8],
    n: usize,
    labels: &[u8],
    guards: &mut [u8],
) -> Result<&'a [u8], Cause>
    requires { (n ≤ 128) × (length labels.now ≡ 1024) × (length guards.old ≡ 16384) }
    ensures { line_of guards.new result ≡ guard_step n labels.now 0 guards.old text.now }
{
    let (line, rest) = guard_line(text).ok_or(Cause::Form)?;
    let i = labels::find(labels, n, line.first).ok_or(Cause::LabelUnknown)?;
    let j = labels::find(labels, n, line.second).ok_or(Cause::LabelUnknown)?;
    if i == j {
        return Err(Cause::LabelUnknown);
    }
    if guards[rules::PATHS * i + j] != rules::NO_CONFLICT {
        return Err(Cause::PairTwice);
    }
    if GUARD_MOST < line.guard {
        return Err(Cause::Guard);
    }
    guards[rules::PATHS * i + j] = line.guard as u8;
    guards[rules::PATHS * j + i] = line.guard as u8;
    Ok(rest)
}

// Path k's start: 11, 13 not its label, 7 start outside 1 to 16,384.
#[tactic(auto, unfolding(rules::specs::Sheet::start_step, rules::specs::Sheet::start_means))]
pub fn start_step<'a>(
    text: &'a [u8],
    k: usize,
    labels: &[u8],
    starts: &mut [u16],
) -> Result<&'a [u8], Cause>
    requires { (8 * k + 8 ≤ length labels.now) × (k < length starts.old) }
    ensures { line_of starts.new result ≡ start_step labels.now k starts.old text.now }
{
    let (line, rest) = text::path_line(text).ok_or(Cause::Form)?;
    if !labels::is_row(labels, k, line.label) {
        return Err(Cause::LabelUnknown);
    }
    if !(1..=START_MOST).contains(&line.number) {
        return Err(Cause::Start);
    }
    starts[k] = line.number as u16;
    Ok(rest)
}
