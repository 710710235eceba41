// Why a path stands where it stands (RULES 25): the chain of paths below it, each just clear of the next, and
// how many slots the last of them can come down. `why` is a call: it is lent its tables, tests them in the order
// of RULES 18, and leaves behind what `explaining` in `rules` says.
#![tactic(auto)]

ghost use Rattle.std.specs.Prelude.{◌≡◌, cond, ◌++◌, ◌<◌, length, drop, Ok, Some, None};
ghost use Rattle.rules.specs.Tables.{at, lend};
ghost use Rattle.rules.specs.Plan.{net_of};
ghost use Rattle.rules.specs.Reason.{is_last, link, chain, bottom, down};
ghost use Rattle.rules.specs.Calls.{left, done_why, explaining};
ghost use Rattle.rules.specs.Told.{why_of};
ghost use Rattle.plan_laws.specs.Reason.{asks_of};
ghost use Rattle.network.specs.Lent.{lent};

use links::{Files, Room};
use network::Plan;
use rules::{Cause, Explained, Refusal};

// The next path of a chain after path k: in slot 1 there is none, whatever stands below.
#[tactic(auto, using(std::proofs::lemmas::Bool::Decides::nat_tests), unfolding(rules::specs::Reason::is_last))]
fn next_of(files: &Files, k: usize) -> Option<usize>
    requires { k < files.now.plan.now.net.n }
    ensures { let p = files.now.plan.now in let net = net_of (lent p.net) in result
        ≡ cond (is_last net (at p.starts.now) p.net.n k) None (Some (link net (at p.starts.now) p.net.n k)) }
{
    if files.plan.start(k) == 1 {
        return None;
    }
    files.link_of(k)
}

// Writes the chain from a path on into its table; how many paths it has.
fn write_chain(files: &Files, path: usize, table: &mut [u8]) -> usize
    requires { (path < files.now.plan.now.net.n) × (length table.old ≡ 128) }
    ensures value { let p = files.now.plan.now in result
        ≡ length (chain (net_of (lent p.net)) (at p.starts.now) p.net.n path) }
    ensures table_after { let p = files.now.plan.now in let c = chain (net_of (lent p.net)) (at p.starts.now) p.net.n path in
        table.new ≡ c ++ drop (length c) table.old }
{
    let n = files.plan.net.n;
    let mut k = path;
    for m in 0..n {
        table[m] = k as u8;
        match next_of(files, k) {
            Some(below) => k = below,
            None => return m + 1,
        }
    }
    n
}

// What path j asks of the start of path k, where it is in conflict with it and starts lower: its end + guard + 1;
// else 0.
#[tactic(auto, using(crate::proofs::Told::pairs))]
fn asked_below(plan: &Plan, k: usize, j: usize) -> u16
    requires { (k < plan.now.net.n) × (j < plan.now.net.n) }
    ensures { result ≡ asks_of (net_of (lent plan.now.net)) (at plan.now.starts.now) k j }
{
    let guard = plan.net.guard(k, j);
    let start = plan.start(j);
    if guard < rules::NO_CONFLICT && start < plan.start(k) {
        clashes::past(start, plan.net.width(j), guard)
    } else {
        0
    }
}

// The lowest slot that path k can come down to, the paths below it held where they are.
#[tactic(auto, using(plan_laws::specs::Reason::bottom_more), unfolding(rules::specs::Scan::largest, rules::specs::Reason::bottom))]
fn bottom_of(plan: &Plan, k: usize) -> u16
    requires { k < plan.now.net.n }
    ensures { result ≡ bottom (net_of (lent plan.now.net)) (at plan.now.starts.now) plan.now.net.n k }
{
    let mut low = 1;
    for j in 0..plan.net.n {
        low = low.max(asked_below(plan, k, j));
    }
    low
}

// How many slots path k can come down; none in slot 1, whatever stands below.
#[tactic(auto, unfolding(rules::specs::Reason::bottom, rules::specs::Reason::down))]
fn down_of(plan: &Plan, k: usize) -> u16
    requires { k < plan.now.net.n }
    ensures { result ≡ down (net_of (lent plan.now.net)) (at plan.now.starts.now) plan.now.net.n k }
{
    let start = plan.start(k);
    if start == 1 {
        return 0;
    }
    start.saturating_sub(bottom_of(plan, k))
}

// Writes the chain of a path of a plan that the tests have accepted, and says how far its last path can come
// down. It is called apart, so that its room takes no stack while the tests run.
#[inline(never)]
fn explain(plan: &Plan, path: usize, chain: &mut [u8]) -> Explained
    requires { (path < plan.now.net.n) × (length chain.old ≡ 128) }
    ensures { left (why_of (Ok result)) chain.new
        ≡ done_why (net_of (lent plan.now.net)) (at plan.now.starts.now) plan.now.net.n path chain.old }
{
    // No write to the chain can reach the copy, so that it is not read anew for each path.
    let plan = *plan;
    let mut room = Room::EMPTY;
    let files = Files::of(&plan, &mut room);
    let length = write_chain(&files, path, chain);
    let last = usize::from(chain[length - 1]);
    let down = usize::from(down_of(files.plan, last));
    Explained { length, down }
}

// Why a path stands where it stands: the chain goes into its table, and nothing past its length is changed. The tests
// are 2, 1, 3, 4, 5, 7, 8, and then 6 of the path that is asked for.
pub fn why(
    n: usize,
    widths: &[u16],
    guards: &[u8],
    starts: &[u16],
    path: usize,
    chain: &mut [u8],
) -> Result<Explained, Refusal>
    ensures { left (why_of result) chain.new
        ≡ explaining n (lend widths.now guards.now) starts.now path chain.old }
{
    let others = tables::check_size(chain.len(), rules::PATHS);
    let plan = clashes::check_plan(n, widths, guards, others, starts)?;
    tables::refuse_if(n <= path, Cause::Entry)?;
    Ok(explain(&plan, path, chain))
}
