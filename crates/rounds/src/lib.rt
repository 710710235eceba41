// An inner crate: the rounds of improving, for the calls of planning.
#![tactic(auto)]

mod draws;

ghost use Rattle.std.specs.Prelude.{◌≡◌, ℕ, ◌<◌, ◌≤◌, List, length};
ghost use Rattle.rules.specs.Planning.{round, improved};
ghost use Rattle.rules.specs.Plan.{net_of};
ghost use Rattle.rules.specs.Packing.{lowest};
ghost use Rattle.rules.specs.Limits.{KeptFrom};
ghost use Rattle.plan_laws.specs.Answers.{Packable};
ghost use Rattle.network.specs.Lent.{lent};
ghost use Rattle.rounds.specs.Standing.{run_of, highest_of};

use network::Network;

// Where improving stands: the state of the draws, the highest slot of the order so far, and the number of
// swaps kept.
#[derive(Clone, Copy, Debug, PartialEq, Eq)]
pub struct Standing {
    pub state: u32,
    pub highest: usize,
    pub kept: usize,
}

// One round: two places are drawn and swapped, and the swap is undone unless the packed order is strictly
// lower. No table is tested here. The lowest starts go into a table that is lent.
fn one_round(net: &Network, order: &mut [u8], need: &mut [u16], run: &mut Standing)
    requires { Packable net.now.n (lent net.now) order.old need.old × (run.old.kept < 10000) }
    ensures by_index { (table : List ℕ) → length table ≡ 128 → run_of run.new order.new
        ≡ round (highest_of net.now.n (lent net.now) table) net.now.n (run_of run.old order.old) }
    ensures kept_from { KeptFrom net.now.n need.old need.new }
{
    let x = draws::next_state(run.state);
    let y = draws::next_state(x);
    let a = draws::place_of(net.n, x);
    let b = draws::place_of(net.n, y);
    draws::swap(order, a, b);
    let h = engine::height_of(net, order, need);
    run.state = y;
    if h < run.highest {
        run.highest = h;
        run.kept += 1;
    } else {
        draws::swap(order, a, b);
    }
}

// So many rounds from a seed. The order is left as the last of them leaves it, and the lent table with what it took. The
// network is copied as for packing, or the rounds take a tenth longer.
pub fn improve_order(
    net: &Network,
    order: &mut [u8],
    need: &mut [u16],
    seed: u32,
    count: usize,
) -> Standing
    requires { Packable net.now.n (lent net.now) order.old need.old × (count ≤ 10000) }
    ensures by_index { (table : List ℕ) → length table ≡ 128 → run_of result order.new
        ≡ improved (net_of (lent net.now)) net.now.n (lowest (net_of (lent net.now))) table order.old seed count }
    ensures kept_from { KeptFrom net.now.n need.old need.new }
{
    let net = *net;
    let highest = engine::height_of(&net, order, need);
    let mut run = Standing {
        state: seed,
        highest,
        kept: 0,
    };
    for _ in 0..count {
        one_round(&net, order, need, &mut run);
    }
    run
}
