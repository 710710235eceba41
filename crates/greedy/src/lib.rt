// An inner crate: the greedy order, for planning. Each next path is the one whose start would be lowest if
// the order so far were packed.
#![tactic(auto)]

ghost use Rattle.std.specs.Prelude.{◌≡◌, List, ℕ, length};
ghost use Rattle.rules.specs.Plan.{net_of};
ghost use Rattle.rules.specs.Packing.{lowest};
ghost use Rattle.rules.specs.Planning.{greedy};
ghost use Rattle.network.specs.Lent.{lent};

use network::Network;

// The engine's table of lowest starts is the key: each next path is the one of the lowest start, ties to the
// lowest number, and a path that is in the order has a key above all starts. The network is copied as for packing.
pub fn greedy_order(net: &Network, order: &mut [u8])
    requires { length order.old ≡ 128 }
    ensures { (table : List ℕ) → length table ≡ 128 → order.new
        ≡ greedy (lowest (net_of (lent net.now))) net.now.n table order.old net.now.n }
{
    let net = *net;
    let mut need = [0; rules::PATHS];
    engine::lowest_starts(net.n, &mut need);
    for m in 0..net.n {
        let c = engine::least_key(net.n, &need);
        engine::place(&net, c, net.width(c), &mut need);
        order[m] = c as u8;
        need[c] = engine::TAKEN;
    }
}
