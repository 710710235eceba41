// The two sides, improving, planning and the floor. Each call is lent its tables, tests them in the order
// of RULES 18, and has one promise: what it leaves behind is what the definition of its name in `rules`
// says. Every `pub fn` here is a call.
#![tactic(auto)]

ghost use Rattle.std.specs.Prelude.{◌≡◌, Ok, IfErr};
ghost use Rattle.rules.specs.Tables.{lend};
ghost use Rattle.rules.specs.Limits.{KeptFrom};
ghost use Rattle.rules.specs.Plan.{net_of};
ghost use Rattle.rules.specs.Numbers.{rounds_fault};
ghost use Rattle.rules.specs.Calls.{left, siding, done_planned, improving, planning, flooring};
ghost use Rattle.rules.specs.Told.{told, sided_of, planned_of, floored_of};
ghost use Rattle.plan_laws.specs.Answers.{Packable, Plannable};
ghost use Rattle.network.specs.Lent.{lent};
ghost use Rattle.planning.specs.Chosen.{Chosen};

use network::Network;
use rules::{Arranged, Cause, Refusal};

// Finds the two sides: the two-sided order goes into its table, and the size of the low side is answered.
pub fn two_sides(
    n: usize,
    widths: &[u16],
    guards: &[u8],
    order: &mut [u8],
) -> Result<usize, Refusal>
    ensures leaves { left (sided_of result) order.new
        ≡ siding n (lend widths.now guards.now) order.old }
    ensures short { IfErr result (λ r. r.short ≡ 0) }
{
    let size = tables::check_size(order.len(), rules::PATHS);
    let net = tables::check_network(n, widths, guards, size)?;
    sides::sided_order(&net, order).ok_or(Refusal::whole(Cause::NoSides))
}

// 10: rounds over 10,000.
#[tactic(auto, unfolding(rules::specs::Numbers::rounds_fault))]
fn check_rounds(rounds: usize) -> Result<(), Refusal>
    ensures { told result ≡ rounds_fault rounds }
{
    tables::refuse_if(rules::ROUNDS_MOST < rounds, Cause::Rounds)
}

// An order that the tests have accepted or planning has made, after so many swaps kept: its starts go into their
// table, once.
fn packed_plan(net: &Network, order: &[u8], starts: &mut [u16], kept: usize) -> Arranged
    requires { Packable net.now.n (lent net.now) order.now starts.old }
    ensures { left (planned_of (Ok result)) (order.now, starts.new)
        ≡ done_planned (net_of (lent net.now)) net.now.n order.now starts.old kept }
{
    let highest = engine::pack_into(net, order, starts);
    Arranged { highest, kept }
}

// Improves an order: the order and its starts go into their tables; its highest slot and the number of
// swaps kept are answered.
pub fn improve(
    n: usize,
    widths: &[u16],
    guards: &[u8],
    order: &mut [u8],
    starts: &mut [u16],
    seed: u32,
    rounds: usize,
) -> Result<Arranged, Refusal>
    ensures leaves { left (planned_of result) (order.new, starts.new)
        ≡ improving n (lend widths.now guards.now) order.old
        starts.old seed rounds }
    ensures short { IfErr result (λ r. r.short ≡ 0) }
{
    let net = tables::check_packing(n, widths, guards, order, starts.len())?;
    check_rounds(rounds)?;
    let run = rounds::improve_order(&net, order, starts, seed, rounds);
    Ok(packed_plan(&net, order, starts, run.kept))
}

// The order of a plan, and the number of swaps kept for it: with two sides the two-sided order, and no rounds are
// run; else the greedy order, improved. The rounds work in the table of starts, into which the plan will go.
fn chosen_order(
    net: &Network,
    order: &mut [u8],
    starts: &mut [u16],
    seed: u32,
    rounds: usize,
) -> usize
    requires { Plannable net.now.n (lent net.now) order.old starts.old seed rounds }
    ensures chosen { Chosen net.now.n (lent net.now) order.old starts.old seed rounds result order.new }
    ensures kept_from { KeptFrom net.now.n starts.old starts.new }
{
    match sides::sided_order(net, order) {
        Some(_) => 0,
        None => {
            greedy::greedy_order(net, order);
            rounds::improve_order(net, order, starts, seed, rounds).kept
        }
    }
}

// Plans: the order and its starts go into their tables, whose contents are not tested; its highest slot and
// the number of swaps kept are answered.
pub fn plan(
    n: usize,
    widths: &[u16],
    guards: &[u8],
    order: &mut [u8],
    starts: &mut [u16],
    seed: u32,
    rounds: usize,
) -> Result<Arranged, Refusal>
    ensures leaves { left (planned_of result) (order.new, starts.new)
        ≡ planning n (lend widths.now guards.now) order.old
        starts.old seed rounds }
    ensures short { IfErr result (λ r. r.short ≡ 0) }
{
    let sizes = tables::check_plan_sizes(order.len(), starts.len());
    let net = tables::check_network(n, widths, guards, sizes)?;
    check_rounds(rounds)?;
    let kept = chosen_order(&net, order, starts, seed, rounds);
    Ok(packed_plan(&net, order, starts, kept))
}

// The floor of a list of paths, each two in conflict: their widths and the shortest walk through them. Every
// valid plan reaches it.
pub fn floor(n: usize, widths: &[u16], guards: &[u8], list: &[u8]) -> Result<usize, Refusal>
    ensures answers { floored_of result ≡ flooring n (lend widths.now guards.now) list.now }
    ensures short { IfErr result (λ r. r.short ≡ 0) }
{
    let net = tables::check_network(n, widths, guards, Ok(()))?;
    cliques::check_list(&net, list)?;
    Ok(cliques::floor_of(&net, list))
}
