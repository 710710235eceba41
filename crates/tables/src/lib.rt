// An inner crate: the tests of lent tables, each once, for every call. Each scan goes from the lowest
// index, by i then j, and cells of index n or more are never tested. A square is tested by rows (`guard_rows`).
// A test answers nothing where it finds no fault, so that a call runs its tests in their order by `?`.
#![tactic(auto)]

ghost use Rattle.std.specs.Prelude.{◌≡◌, not, ◌||◌, Bool, ℕ, ◌≤◌, ◌<◌, eqb, length, List, Option, IfOk};
ghost use Rattle.rules.specs.Tables.{at, lend};
ghost use Rattle.rules.specs.Numbers.{◌or_else◌, refuse_if, scan, square, nowhere_short, bad_guard, bad_mirror, outside, count_fault, network_sizes, plan_sizes, order_fault, start_fault, lent_fault, pack_fault};
ghost use Rattle.rules.specs.Told.{number_of, told};
ghost use Rattle.table_laws.specs.Firsts.{FirstIs, FirstCellIs};
ghost use Rattle.network.specs.Lent.{lent};

use network::Network;
use rules::{Cause, Refusal};

// A test of a whole.
pub fn refuse_if(bad: bool, cause: Cause) -> Result<(), Refusal>
    ensures { told result ≡ refuse_if bad (number_of cause) 0 }
{
    if bad {
        return Err(Refusal::whole(cause));
    }
    Ok(())
}

// A test of each, by the first at fault.
pub fn refuse_at(first: Option<usize>, cause: Cause) -> Result<(), Refusal>
    ensures { (bad : ℕ → Bool) (n : ℕ) → FirstIs bad n first
        → told result ≡ scan (number_of cause) bad n }
{
    match first {
        Some(k) => Err(Refusal::at(cause, k)),
        None => Ok(()),
    }
}

// 1: n outside 1 to 128.
pub fn check_count(n: usize) -> Result<(), Refusal>
    ensures { told result ≡ count_fault n }
{
    refuse_if(!(1..=rules::PATHS).contains(&n), Cause::Count)
}

// 2: a table of so many cells has not its size.
pub fn check_size(cells: usize, size: usize) -> Result<(), Refusal>
    ensures { told result ≡ refuse_if (not (eqb cells size)) 2 0 }
{
    refuse_if(cells != size, Cause::Size)
}

// 2, of an order or a chain and a table of starts, of so many cells.
pub fn check_plan_sizes(order: usize, starts: usize) -> Result<(), Refusal>
    ensures { (o s : List ℕ) → length o ≡ order → length s ≡ starts → told result ≡ plan_sizes o s }
{
    check_size(order, rules::PATHS)?;
    check_size(starts, rules::PATHS)
}

// 2, of the tables of a network.
pub fn check_network_sizes(widths: &[u16], guards: &[u8]) -> Result<(), Refusal>
    ensures { told result ≡ network_sizes (lend widths.now guards.now) }
{
    check_size(widths.len(), rules::PATHS)?;
    check_size(guards.len(), rules::CELLS)
}

// The first of n numbers of a table that is not 1 to `most`: 3 for a width, 7 for a start.
fn check_range(n: usize, table: &[u16], most: u16, cause: Cause) -> Result<(), Refusal>
    requires { (n ≤ 128) × (length table.now ≡ 128) }
    ensures { told result ≡ scan (number_of cause) (λ k. outside 1 most (at table.now k)) n }
{
    let first = (0..n).find(|&k| !(1..=most).contains(&table[k]));
    refuse_at(first, cause)
}

// 7: a start outside 1 to 16,384.
pub fn check_starts(n: usize, starts: &[u16]) -> Result<(), Refusal>
    requires { (n ≤ 128) × (length starts.now ≡ 128) }
    ensures { told result ≡ start_fault n starts.now }
{
    check_range(n, starts, rules::START_MOST, Cause::Start)
}

// The first cell of a square that is at fault, row by row: `in_row` tells the first of a row.
pub fn first_cell<F: Fn(usize) -> Option<usize>>(n: usize, in_row: F) -> Option<(usize, usize)>
    requires { (i : ℕ) → i < n → F.pre in_row i }
    ensures { (bad : ℕ → ℕ → Bool)
        → ((i : ℕ) (r : Option ℕ) → i < n → F.post in_row i r → FirstIs (bad i) n r)
        → FirstCellIs bad n result }
{
    for i in 0..n {
        if let Some(j) = in_row(i) {
            return Some((i, j));
        }
    }
    None
}

// A test of a square, by its first cell at fault.
fn refuse_cell(first: Option<(usize, usize)>, cause: Cause) -> Result<(), Refusal>
    requires { (bad : ℕ → ℕ → Bool) × (n : ℕ) × (n ≤ 128) × FirstCellIs bad n first }
    ensures { (bad : ℕ → ℕ → Bool) (n : ℕ) → FirstCellIs bad n first
        → told result ≡ square (number_of cause) bad nowhere_short n }
{
    match first {
        Some((i, j)) => Err(Refusal::at(cause, rules::PATHS * i + j)),
        None => Ok(()),
    }
}

// 4 over the whole square, and then 5. The place of 5 is that of the cell with i<j, never its mirror's.
fn check_guards(n: usize, guards: &[u8]) -> Result<(), Refusal>
    requires { (n ≤ 128) × (length guards.now ≡ 16384) }
    ensures { told result ≡ (square 4 (bad_guard guards.now) nowhere_short n
        or_else square 5 (bad_mirror guards.now) nowhere_short n) }
{
    let guard = first_cell(n, |i| guard_rows::guard_fault(n, i, guards));
    refuse_cell(guard, Cause::Guard)?;
    let mirror = first_cell(n, |i| guard_rows::mirror_fault(n, i, guards));
    refuse_cell(mirror, Cause::Mirror)
}

// 6: an entry that is no path, or that comes a second time. seen[k] is 1 once path k has been met.
pub fn check_order(n: usize, order: &[u8]) -> Result<(), Refusal>
    requires { (n ≤ 128) × (length order.now ≡ 128) }
    ensures { told result ≡ order_fault n order.now }
{
    let mut seen = [0u8; rules::PATHS];
    for p in 0..n {
        let k = usize::from(order[p]);
        if n <= k || seen[k] != 0 {
            return Err(Refusal::at(Cause::Entry, p));
        }
        seen[k] = 1;
    }
    Ok(())
}

// 2, 1, 3, 4, 5: the tests that every call begins with; all of 4 before 5. `others` is 2 of the tables that it is lent
// beside the network.
pub fn check_network<'a>(
    n: usize,
    widths: &'a [u16],
    guards: &'a [u8],
    others: Result<(), Refusal>,
) -> Result<Network<'a>, Refusal>
    ensures number { told result ≡ lent_fault n (lend widths.now guards.now) (told others) }
    ensures network { IfOk result (λ net. (net.n ≡ n) × (lent net ≡ lend widths.now guards.now)) }
{
    check_network_sizes(widths, guards)?;
    others?;
    check_count(n)?;
    check_range(n, widths, rules::WIDTH_MOST, Cause::Width)?;
    check_guards(n, guards)?;
    Ok(Network { n, widths, guards })
}

// The tests of packing into a table of so many starts: 2, 1, 3, 4, 5, 6.
pub fn check_packing<'a>(
    n: usize,
    widths: &'a [u16],
    guards: &'a [u8],
    order: &[u8],
    starts: usize,
) -> Result<Network<'a>, Refusal>
    ensures number { (s : List ℕ) → length s ≡ starts → told result
        ≡ pack_fault n (lend widths.now guards.now) order.now s }
    ensures network { IfOk result (λ net. (net.n ≡ n) × (lent net ≡ lend widths.now guards.now)) }
{
    let net = check_network(n, widths, guards, check_plan_sizes(order.len(), starts))?;
    check_order(n, order)?;
    Ok(net)
}
