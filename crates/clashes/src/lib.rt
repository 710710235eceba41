// An inner crate: the test 8, of a plan whose other tests have found no fault, with how many slots short the
// pair is; and the tests of a plan in their order.
#![tactic(auto)]

ghost use Rattle.std.specs.Prelude.{◌≡◌, false, ℕ, ◌+◌, ◌-◌, ◌≤◌, ◌<◌, IfOk};
ghost use Rattle.rules.specs.Tables.{at, lend};
ghost use Rattle.rules.specs.Plan.{net_of, too_close};
ghost use Rattle.rules.specs.Numbers.{◌or_else◌, size_fault, lent_fault, start_fault, clash_fault};
ghost use Rattle.rules.specs.Told.{told};
ghost use Rattle.table_laws.specs.Firsts.{FirstIs};
ghost use Rattle.plan_laws.specs.Clash.{pair_short, lack};
ghost use Rattle.network.specs.Lent.{lent};

use network::Plan;
use rules::{Cause, Refusal};

// End + guard + 1: the first slot past a path at s with width w and its guard g.
pub fn past(s: u16, w: u16, g: u8) -> u16
    requires { (1 ≤ w) × (w ≤ 64) × (s ≤ 16384) }
    ensures { result ≡ s + w - 1 + g + 1 }
{
    s + w - 1 + u16::from(g) + 1
}

// How many slots short two paths with guard g are (RULES 4), at s with width w and at t with width v: the lower
// start is asked, the first path's where they start together. 0 where they are not in conflict.
#[tactic(auto, unfolding(plan_laws::specs::Clash::pair_short))]
fn pair_short(g: u8, s: u16, w: u16, t: u16, v: u16) -> u16
    requires { (1 ≤ w) × (w ≤ 64) × (1 ≤ v) × (v ≤ 64) × (s ≤ 16384) × (t ≤ 16384) }
    ensures { result ≡ pair_short g s w t v }
{
    if rules::NO_CONFLICT <= g {
        return 0;
    }
    if t < s {
        return past(t, v, g).saturating_sub(s);
    }
    past(s, w, g).saturating_sub(t)
}

// The same of paths i and j, i<j.
fn cell_short(plan: &Plan, i: usize, j: usize) -> u16
    requires { (i < j) × (j < plan.now.net.n) }
    ensures { result ≡ lack (net_of (lent plan.now.net)) (at plan.now.starts.now) i j }
{
    let net = &plan.net;
    pair_short(
        net.guard(i, j),
        plan.start(i),
        net.width(i),
        plan.start(j),
        net.width(j),
    )
}

// The most slots that a path past i is short, or 0: then none is too close to i. With no branch on a pair.
#[tactic(auto, using(plan_laws::specs::Clash::close_before, plan_laws::specs::Clash::lack_none))]
fn row_short(plan: &Plan, i: usize) -> u16
    requires { i < plan.now.net.n }
    ensures { result ≡ 0 → (j : ℕ) → j < plan.now.net.n
        → too_close (net_of (lent plan.now.net)) (at plan.now.starts.now) i j ≡ false }
{
    let mut most = 0;
    for j in i + 1..plan.net.n {
        most = cell_short(plan, i, j).max(most);
    }
    most
}

// The first path past i that is too close to i.
fn close_row(plan: &Plan, i: usize) -> Option<usize>
    requires { i < plan.now.net.n }
    ensures { FirstIs (too_close (net_of (lent plan.now.net)) (at plan.now.starts.now) i)
        plan.now.net.n result }
{
    if row_short(plan, i) == 0 {
        return None;
    }
    (i + 1..plan.net.n).find(|&j| cell_short(plan, i, j) != 0)
}

// 8: the first pair that is too close, row by row above the diagonal: its cell, and how many slots short it is.
pub fn check_clashes(plan: &Plan) -> Result<(), Refusal>
    ensures { told result ≡ clash_fault plan.now.net.n (net_of (lent plan.now.net))
        plan.now.starts.now }
{
    match tables::first_cell(plan.net.n, |i| close_row(plan, i)) {
        Some((i, j)) => Err(Refusal {
            cause: Cause::Clash,
            place: rules::PATHS * i + j,
            short: usize::from(cell_short(plan, i, j)),
        }),
        None => Ok(()),
    }
}

// The tests of a plan that is lent with its network: 2, 1, 3, 4, 5, 7, 8. `others` is 2 of the tables that are lent
// before its starts.
pub fn check_plan<'a>(
    n: usize,
    widths: &'a [u16],
    guards: &'a [u8],
    others: Result<(), Refusal>,
    starts: &'a [u16],
) -> Result<Plan<'a>, Refusal>
    ensures number { told result
        ≡ (lent_fault n (lend widths.now guards.now) (told others or_else size_fault starts.now 128)
        or_else start_fault n starts.now or_else clash_fault n (net_of (lend widths.now guards.now)) starts.now) }
    ensures plan { IfOk result (λ p. (p.net.n ≡ n)
        × (lent p.net ≡ lend widths.now guards.now) × (p.starts.now ≡ starts.now)) }
{
    let sizes = others.and(tables::check_size(starts.len(), rules::PATHS));
    let net = tables::check_network(n, widths, guards, sizes)?;
    tables::check_starts(n, starts)?;
    let plan = Plan { net, starts };
    check_clashes(&plan)?;
    Ok(plan)
}
