// For the speed table alone: the packing with no tests, under an exported name.
#![tactic(auto)]

ghost use Rattle.std.specs.Prelude.{◌≡◌};
ghost use Rattle.rules.specs.Tables.{at, lend};
ghost use Rattle.rules.specs.Plan.{net_of, highest};
ghost use Rattle.rules.specs.Packing.{lowest, packed};
ghost use Rattle.plan_laws.specs.Answers.{Packable};

use network::Network;

#[unsafe(no_mangle)]
pub extern "C" fn bench_pack_into(
    n: usize,
    widths: &[u16],
    guards: &[u8],
    order: &[u8],
    starts: &mut [u16],
) -> usize
    requires { Packable n (lend widths.now guards.now) order.now starts.old }
    ensures value { result ≡ highest (net_of (lend widths.now guards.now))
        (at starts.new) n }
    ensures starts_after { starts.new
        ≡ packed (lowest (net_of (lend widths.now guards.now)))
        (at order.now) starts.old n }
{
    engine::pack_into(&Network { n, widths, guards }, order, starts)
}
