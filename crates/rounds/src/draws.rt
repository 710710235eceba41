// The draws of improving, and the swap that they pick.
ghost use Rattle.std.specs.Prelude.{◌≡◌, ◌<◌, ◌≤◌, length};
ghost use Rattle.rules.specs.Planning.{draw, drawn_place, swapped};

// The state after a draw, wrapped at 32 bits.
#[tactic(auto, unfolding(rules::specs::Planning::draw))]
pub fn next_state(x: u32) -> u32
    ensures { result ≡ draw x }
{
    x.wrapping_mul(1664525).wrapping_add(1013904223)
}

// The place that a state draws: its upper half, scaled to n and cut to a whole number. It is below n.
#[tactic(auto, using(plan_laws::specs::Improve::place_below), unfolding(rules::specs::Planning::drawn_place))]
pub fn place_of(n: usize, x: u32) -> usize
    requires { (1 ≤ n) × (n ≤ 128) }
    ensures drawn { result ≡ drawn_place n x }
    ensures below { result < n }
{
    (x / 65536) as usize * n / 65536
}

// Two places of an order changed about. The slice's own `swap` asks which of them is the lower, which no processor can
// foresee of drawn places: where there are few paths the rounds take a quarter longer.
#[tactic(auto, unfolding(rules::specs::Planning::swapped))]
pub fn swap(order: &mut [u8], a: usize, b: usize)
    requires { (a < length order.old) × (b < length order.old) }
    ensures { order.new ≡ swapped order.old a b }
{
    (order[a], order[b]) = (order[b], order[a]);
}
