// An inner crate: the two sides of a network, for the calls of planning. They are found in fixed room and
// with no recursion. The marks depend on the guards alone: what these functions promise holds for every
// network of these guards.
#![tactic(auto)]

ghost use Rattle.std.specs.Prelude.{◌≡◌, cond, List, ℕ, ◌+◌, ◌≤◌, ◌<◌, eqb, length, position, take};
ghost use Rattle.rules.specs.Tables.{at, cleared, Lent};
ghost use Rattle.rules.specs.Scan.{found};
ghost use Rattle.rules.specs.Plan.{net_of};
ghost use Rattle.rules.specs.Sides.{marks, has_sides, two_sided, low_side};
ghost use Rattle.plan_laws.specs.Alike.{AllMarked, alike};
ghost use Rattle.plan_laws.specs.Spreading.{between, next_path, asked_mark, meeting, Met};
ghost use Rattle.plan_laws.specs.Passes.{Passing, sides_of};
ghost use Rattle.sides.specs.Split.{SplitIs};

use network::Network;
use rules::{NO_CONFLICT, PATHS};

// While the sides are sought a cell of the marks holds 0 for a path not met, 1 or 2 for one of this mark, and
// 3 or 4 for one that is met: it is in conflict with a marked path, and mark 1 or 2 is asked of it. So a path takes one
// byte, and a row of the guards is met by vector code.

// The mark of a high path; 1 is that of a low one.
const HIGH: u8 = 2;

// The first of n paths whose cell holds one of the values from low to high.
#[tactic(auto, unfolding(plan_laws::specs::Spreading::between))]
fn first_between(n: usize, low: u8, high: u8, mark: &[u8; PATHS]) -> Option<usize>
    requires { n ≤ 128 }
    ensures { result ≡ position (λ x. between low high x) (take n mark.now) }
{
    mark[..n].iter().position(|x| (low..=high).contains(x))
}

// The next path to mark: the lowest number that is met wherever there is one, else the lowest that is not; n if there
// is none.
#[tactic(auto, using(crate::proofs::Steps::nexts))]
fn next_path(n: usize, mark: &[u8; PATHS]) -> usize
    requires { n ≤ 128 }
    ensures { result ≡ next_path n mark.now }
{
    match first_between(n, 3, 4, mark) {
        Some(met) => met,
        None => first_between(n, 0, 0, mark).unwrap_or(n),
    }
}

// The mark that the next path gets: what is asked of it, and 1 where it begins a connected part.
#[tactic(auto, unfolding(plan_laws::specs::Spreading::asked_mark))]
fn asked_mark(x: u8) -> u8
    ensures { result ≡ asked_mark x }
{
    if x < 3 { 1 } else { x - 2 }
}

// What a cell holding x holds once a path to which its own has guard g has been marked. A marked path keeps its
// mark; any other is met where they are in conflict, and is asked anew by each of its conflicts.
#[tactic(auto, using(std::proofs::lemmas::Bool::Decides::nat_tests), unfolding(plan_laws::specs::Spreading::meeting, plan_laws::specs::Spreading::between))]
fn met(asked: u8, g: u8, x: u8) -> u8
    ensures { result ≡ meeting asked g x }
{
    let meets = (g < NO_CONFLICT) & !(1..=2).contains(&x);
    if meets { asked } else { x }
}

// Path c has been marked, and asks along its row of the guards, with no branch on a cell.
fn meet_row(net: &Network, c: usize, asked: u8, mark: &mut [u8; PATHS])
    requires { c < net.now.n }
    ensures { Met net.now.n net.now.guards.now c asked mark.old mark.new }
{
    for (k, &g) in net.row(c).iter().enumerate() {
        mark[k] = met(asked, g, mark[k]);
    }
}

// The mark of each path: 1 is low, 2 is high, and past the paths there is none. A path of mark s asks the other mark,
// 3-s, of those in conflict with it, which a cell holds as 5-s. The marks go into a table that is lent: one that is
// handed over would be copied.
fn mark_sides(net: &Network, mark: &mut [u8; PATHS])
    requires { mark.old ≡ cleared 128 0 }
    ensures mark_after { (l : Lent) → l.guards ≡ net.now.guards.now → mark.new ≡ marks (net_of l) net.now.n }
    ensures all_marked { AllMarked net.now.n mark.new }
{
    for _m in 0..net.n {
        let c = next_path(net.n, mark);
        let s = asked_mark(mark[c]);
        mark[c] = s;
        meet_row(net, c, 5 - s, mark);
    }
}

// Whether some path is in conflict with path i and has its mark. The whole row is looked at, whatever n is, with no
// branch on a cell: past the paths there are no marks.
#[tactic(auto, using(crate::proofs::Steps::founds), unfolding(plan_laws::specs::Alike::alike))]
fn row_alike(net: &Network, i: usize, mark: &[u8; PATHS]) -> bool
    requires { i < net.now.n }
    ensures { result ≡ found (alike net.now.guards.now mark.now i) 128 }
{
    let mut any = false;
    for j in 0..PATHS {
        any |= (net.guards[PATHS * i + j] < NO_CONFLICT) & (mark[i] == mark[j]);
    }
    any
}

// There are two sides exactly where no conflict joins two paths of one mark.
fn are_sides(net: &Network, mark: &[u8; PATHS]) -> bool
    requires { AllMarked net.now.n mark.now }
    ensures { (l : Lent) → l.guards ≡ net.now.guards.now
        → mark.now ≡ marks (net_of l) net.now.n → result ≡ has_sides (net_of l) net.now.n }
{
    !(0..net.n).any(|i| row_alike(net, i, mark))
}

// The paths of one side go into the order by number, from a place on; the place after them.
fn put_side(n: usize, mark: &[u8; PATHS], high: bool, order: &mut [u8], from: usize) -> usize
    requires { (n ≤ 128) × ((before : List ℕ)
        × Passing (sides_of mark.now) n before order.old (cond high 1 0) 0 from) }
    ensures { (before : List ℕ)
        → Passing (sides_of mark.now) n before order.old (cond high 1 0) 0 from
        → Passing (sides_of mark.now) n before order.new (cond high 1 0) n result }
{
    let mut p = from;
    for k in 0..n {
        if (mark[k] == HIGH) == high {
            order[p] = k as u8;
            p += 1;
        }
    }
    p
}

// The two-sided order, the low paths by number and then the high ones; how many are low.
fn order_sides(n: usize, mark: &[u8; PATHS], order: &mut [u8]) -> usize
    requires { (n ≤ 128) × (n ≤ length order.old) }
    ensures value { result ≡ low_side n (λ k. eqb (at mark.now k) 2) }
    ensures order_after { order.new
        ≡ two_sided n (λ k. eqb (at mark.now k) 2) order.old }
{
    let low = put_side(n, mark, false, order, 0);
    put_side(n, mark, true, order, low);
    low
}

// The two-sided order, where there are two sides, and how many paths are low; else the order stays as it was. The marks
// are all that is held for it: one byte a path, whatever the conflicts are.
pub fn sided_order(net: &Network, order: &mut [u8]) -> Option<usize>
    requires { net.now.n ≤ length order.old }
    ensures { (l : Lent) → l.guards ≡ net.now.guards.now
        → SplitIs (net_of l) net.now.n order.old result order.new }
{
    let mut mark = [0; PATHS];
    mark_sides(net, &mut mark);
    if are_sides(net, &mark) {
        Some(order_sides(net.n, &mark, order))
    } else {
        None
    }
}
