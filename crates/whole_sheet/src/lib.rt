// An inner crate, for `reader`: the sections of a sheet in their fixed order, each after its count.
#![tactic(auto)]

ghost use Rattle.std.specs.Prelude.{◌≡◌, ◌≤◌, [], length, IfErr};
ghost use Rattle.rules.specs.Tables.{lend};
ghost use Rattle.rules.specs.Sheet.{starts_part, guards_part, sheet_from};
ghost use Rattle.sections.specs.Says.{section_by, ended_of};

use rules::{Cause, Refusal};

// The starts, where there is a plan: their count, 1 where it is not n, and their lines. What stands after them is 11.
#[tactic(auto, unfolding(rules::specs::Sheet::starts_part, rules::specs::Sheet::last_part, rules::specs::Sheet::counted, rules::specs::Sheet::after, rules::specs::Sheet::ended))]
fn starts_part(
    text: &[u8],
    n: usize,
    line: usize,
    labels: &[u8],
    table: &mut [u16],
) -> Result<(), Refusal>
    requires { (n ≤ 128) × (length labels.now ≡ 1024) × (n ≤ length table.old) × (line ≤ 9000) }
    ensures section { ended_of table.new result ≡ starts_part n line labels.now table.old text.now }
    ensures short { IfErr result (λ r. r.short ≡ 0) }
{
    if text.is_empty() {
        return Ok(());
    }
    let (m, rest) = text::count_line(text, text::STARTS_WORD).ok_or(Refusal::at(
        Cause::Form,
        line,
    ))?;
    if m != n {
        return Err(Refusal::at(Cause::Count, line));
    }
    let rest = sections::starts(rest, n, line + 1, labels, table)?;
    if !rest.is_empty() {
        return Err(Refusal::at(Cause::Form, line + 1 + n));
    }
    Ok(())
}

// The guards: their count, 1 where it is over 2,000, their lines, and what follows them.
#[tactic(auto, unfolding(rules::specs::Sheet::guards_part, rules::specs::Sheet::counted, rules::specs::Sheet::after))]
fn guards_part(
    text: &[u8],
    n: usize,
    labels: &[u8],
    square: &mut [u8],
    table: &mut [u16],
) -> Result<(), Refusal>
    requires { (n ≤ 128) × (length labels.now ≡ 1024) × (length square.old ≡ 16384)
        × (n ≤ length table.old) }
    ensures section { ended_of (square.new, table.new) result ≡ guards_part n labels.now square.old table.old text.now }
    ensures short { IfErr result (λ r. r.short ≡ 0) }
{
    let (m, rest) = text::count_line(text, text::GUARDS_WORD).ok_or(Refusal::at(
        Cause::Form,
        n + 2,
    ))?;
    if rules::PAIRS_MOST < m {
        return Err(Refusal::at(Cause::Count, n + 2));
    }
    let rest = sections::guards(rest, n, m, labels, square)?;
    starts_part(rest, n, n + m + 3, labels, table)
}

// The paths: their count, 1 where it is not 1 to 128, their lines, and what follows them.
#[tactic(auto, unfolding(rules::specs::Sheet::sheet_from, rules::specs::Sheet::counted, rules::specs::Sheet::after))]
pub fn sheet_parts(
    text: &[u8],
    labels: &mut [u8],
    widths: &mut [u16],
    square: &mut [u8],
    table: &mut [u16],
) -> Result<usize, Refusal>
    requires { (length labels.old ≡ 1024) × (length widths.old ≡ 128) × (length square.old ≡ 16384)
        × (length table.old ≡ 128) }
    ensures sheet { section_by (λ n. (n, labels.new, lend widths.new square.new, table.new)) (λ n. []) result
        ≡ sheet_from labels.old (lend widths.old square.old) table.old text.now }
    ensures short { IfErr result (λ r. r.short ≡ 0) }
{
    let (n, rest) = text::count_line(text, text::PATHS_WORD).ok_or(Refusal::at(Cause::Form, 1))?;
    if !(1..=rules::PATHS).contains(&n) {
        return Err(Refusal::at(Cause::Count, 1));
    }
    let rest = sections::paths(rest, n, labels, widths)?;
    guards_part(rest, n, labels, square, table)?;
    Ok(n)
}
