// An inner crate, for `sheet` and `order`: the tables of a sheet, tested and counted. Each scan goes from the lowest index.
#![tactic(auto)]

ghost use Rattle.std.specs.Prelude.{◌≡◌, cond, ℕ, ◌≤◌, ◌<◌, length};
ghost use Rattle.rules.specs.Tables.{lend};
ghost use Rattle.rules.specs.Scan.{sum};
ghost use Rattle.rules.specs.Writing.{bad_label, label_twice, is_pair, pairs, has_plan};
ghost use Rattle.rules.specs.Numbers.{◌or_else◌, scan, label_sizes, sheet_sizes};
ghost use Rattle.rules.specs.Told.{told};
ghost use Rattle.sheet_tables.specs.Tests.{plan_fault, table_fault};

use rules::{Cause, Refusal};

// 2, of the labels and the starts.
pub fn check_label_sizes(labels: &[u8], starts: &[u16]) -> Result<(), Refusal>
    ensures { told result ≡ label_sizes labels.now starts.now }
{
    tables::check_size(labels.len(), rules::LABELS)?;
    tables::check_size(starts.len(), rules::PATHS)
}

// 2, of all four tables of a sheet.
pub fn check_sheet_sizes(
    labels: &[u8],
    widths: &[u16],
    guards: &[u8],
    starts: &[u16],
) -> Result<(), Refusal>
    ensures { told result ≡ sheet_sizes labels.now
        (lend widths.now guards.now) starts.now }
{
    tables::check_network_sizes(widths, guards)?;
    check_label_sizes(labels, starts)
}

// 11, and then 12, each over all paths.
pub fn check_labels(n: usize, labels: &[u8]) -> Result<(), Refusal>
    requires { (n ≤ 128) × (length labels.now ≡ 1024) }
    ensures { told result ≡ (scan 11 (bad_label labels.now) n or_else scan 12 (label_twice labels.now) n) }
{
    let bad = (0..n).find(|&k| labels::bad_label(labels, k));
    tables::refuse_at(bad, Cause::Form)?;
    let twice = (0..n).find(|&k| labels::label_twice(labels, k));
    tables::refuse_at(twice, Cause::LabelTwice)
}

// The pairs of path i and a later path that have a guard line, counted with no branch on a cell, so that the compiler
// makes vector code of it.
fn row_pairs(n: usize, i: usize, guards: &[u8]) -> usize
    requires { (i < n) × (n ≤ 128) × (length guards.now ≡ 16384) }
    ensures { (result ≡ sum (λ j. cond (is_pair guards.now i j) 1 0) n) × (result ≤ n) }
{
    let mut count = 0;
    for j in i + 1..n {
        count += usize::from(guards[rules::PATHS * i + j] < rules::NO_CONFLICT);
    }
    count
}

// The guard lines that a sheet has.
pub fn pair_count(n: usize, guards: &[u8]) -> usize
    requires { (n ≤ 128) × (length guards.now ≡ 16384) }
    ensures { (result ≡ pairs n guards.now) × (result ≤ 16384) }
{
    (0..n).map(|i| row_pairs(n, i, guards)).sum()
}

// There is a plan: one of the n starts is not 0.
pub fn has_plan(n: usize, starts: &[u16]) -> bool
    requires { (n ≤ 128) × (length starts.now ≡ 128) }
    ensures { result ≡ has_plan n starts.now }
{
    (0..n).any(|k| starts[k] != 0)
}

// 7, where there is a plan: a start that is 0 or over 16,384.
fn check_plan(n: usize, starts: &[u16]) -> Result<(), Refusal>
    requires { (n ≤ 128) × (length starts.now ≡ 128) }
    ensures { told result ≡ plan_fault n starts.now }
{
    if has_plan(n, starts) {
        return tables::check_starts(n, starts);
    }
    Ok(())
}

// What the writer tests of its tables, in their order: 2, 1 for n, 3, 4, 5, 11, 12, 1 for pairs, 7.
pub fn check_tables(
    n: usize,
    labels: &[u8],
    widths: &[u16],
    guards: &[u8],
    starts: &[u16],
) -> Result<(), Refusal>
    ensures { told result ≡ table_fault n labels.now
        (lend widths.now guards.now) starts.now }
{
    tables::check_network(n, widths, guards, check_label_sizes(labels, starts))?;
    check_labels(n, labels)?;
    tables::refuse_if(rules::PAIRS_MOST < pair_count(n, guards), Cause::Count)?;
    check_plan(n, starts)
}
