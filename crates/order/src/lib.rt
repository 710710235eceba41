// The order sheet's two public calls (RULES 27): `order_write` and `order_read`. Nothing is asked of the caller.
#![tactic(auto)]

ghost use Rattle.std.specs.Prelude.{◌≡◌, IfErr};
ghost use Rattle.rules.specs.Tables.{lend};
ghost use Rattle.rules.specs.Numbers.{order_read_fault};
ghost use Rattle.rules.specs.Calls.{left, order_writing, order_reading};
ghost use Rattle.rules.specs.Told.{told, written_of, order_read_of};
ghost use Rattle.order.specs.Tests.{given_fault, table_fault};

use rules::{Cause, Refusal};

// 2 of the labels and the starts, then 17.
fn check_given(anchor: i32, labels: &[u8], starts: &[u16]) -> Result<(), Refusal>
    ensures { told result ≡ given_fault anchor labels.now starts.now }
{
    sheet_tables::check_label_sizes(labels, starts)?;
    grid::check_anchor(anchor)
}

// What both calls test of their tables, in its order: 2, 17, 1, 3, 4, 5.
fn check_lent(
    anchor: i32,
    n: usize,
    labels: &[u8],
    widths: &[u16],
    guards: &[u8],
    starts: &[u16],
) -> Result<(), Refusal>
    ensures { told result ≡ order_read_fault anchor n labels.now
        (lend widths.now guards.now) starts.now }
{
    let given = check_given(anchor, labels, starts);
    tables::check_network(n, widths, guards, given)?;
    Ok(())
}

// What the writing tests of its tables: those, then 11, 12, 7.
fn check_tables(
    anchor: i32,
    n: usize,
    labels: &[u8],
    widths: &[u16],
    guards: &[u8],
    starts: &[u16],
) -> Result<(), Refusal>
    ensures { told result ≡ table_fault anchor n labels.now
        (lend widths.now guards.now) starts.now }
{
    check_lent(anchor, n, labels, widths, guards, starts)?;
    sheet_tables::check_labels(n, labels)?;
    tables::check_starts(n, starts)
}

// Writes an order sheet into a lent text, and answers its length. That is known before the first byte is written: 16
// leaves the text unchanged.
pub fn order_write(
    anchor: i32,
    n: usize,
    labels: &[u8],
    widths: &[u16],
    guards: &[u8],
    starts: &[u16],
    text: &mut [u8],
) -> Result<usize, Refusal>
    ensures writes { left (written_of result) text.new
        ≡ order_writing anchor n labels.now (lend widths.now guards.now)
        starts.now text.old }
    ensures short { IfErr result (λ r. r.short ≡ 0) }
{
    check_tables(anchor, n, labels, widths, guards, starts)?;
    let low = grid::counted(anchor);
    let length = order_writer::order_length(low, n, labels, widths, starts);
    tables::refuse_if(text.len() < length, Cause::Room)?;
    Ok(order_writer::put_order(text, low, n, labels, widths, starts))
}

// Reads an order sheet into the starts. They are read into a table of its own first, so that a line at fault leaves
// those that are lent as they were.
pub fn order_read(
    anchor: i32,
    text: &[u8],
    n: usize,
    labels: &[u8],
    widths: &[u16],
    guards: &[u8],
    starts: &mut [u16],
) -> Result<(), Refusal>
    ensures reads { left (order_read_of result) starts.new
        ≡ order_reading anchor text.now n labels.now
        (lend widths.now guards.now) starts.old }
    ensures short { IfErr result (λ r. r.short ≡ 0) }
{
    check_lent(anchor, n, labels, widths, guards, starts)?;
    let low = grid::counted(anchor);
    let mut table = [0u16; rules::PATHS];
    table.copy_from_slice(starts);
    order_reader::order_part(text, n, low, labels, widths, &mut table)?;
    starts.copy_from_slice(&table);
    Ok(())
}
