// An inner crate: the list of the floor, its test and its value, for the calls of planning.
#![tactic(auto)]

ghost use Rattle.std.specs.Prelude.{◌≡◌, not, ◌||◌, ℕ, ◌≤◌, ◌<◌, eqb, length, All, sum_by};
ghost use Rattle.rules.specs.Tables.{at, Lent};
ghost use Rattle.rules.specs.Plan.{net_of, in_conflict};
ghost use Rattle.rules.specs.Numbers.{bad_member, list_fault};
ghost use Rattle.rules.specs.Told.{told};
ghost use Rattle.rules.specs.Floor.{floor};
ghost use Rattle.plan_laws.specs.Answers.{Floorable};
ghost use Rattle.network.specs.Lent.{lent};

use network::Network;
use rules::{Cause, LIST_MOST, NO_CONFLICT, Refusal};
use walks::Square;

// Path j is path i once more, or not in conflict with it.
fn is_stranger(net: &Network, i: usize, j: usize) -> bool
    requires { (i < net.now.n) × (j < net.now.n) }
    ensures { result ≡ (eqb i j || not (in_conflict (net_of (lent net.now)) i j)) }
{
    i == j || net.guard(i, j) == NO_CONFLICT
}

// The entry at position k is no path, or such a stranger to those before it, which are paths.
fn is_bad(net: &Network, list: &[u8], k: usize) -> bool
    requires { (k < length list.now) × ((i : ℕ) → i < k → at list.now i < net.now.n) }
    ensures { (l : Lent) → l.guards ≡ net.now.guards.now → result ≡ bad_member net.now.n (net_of l) list.now k }
{
    let path = usize::from(list[k]);
    net.n <= path || (0..k).any(|i| is_stranger(net, usize::from(list[i]), path))
}

// 15: the list is empty or over 8, place 0; or one of its entries is at fault, the first of them.
pub fn check_list(net: &Network, list: &[u8]) -> Result<(), Refusal>
    ensures { (l : Lent) → l.guards ≡ net.now.guards.now → told result ≡ list_fault net.now.n (net_of l) list.now }
{
    tables::refuse_if(!(1..=LIST_MOST).contains(&list.len()), Cause::List)?;
    for k in 0..list.len() {
        if is_bad(net, list, k) {
            return Err(Refusal::at(Cause::List, k));
        }
    }
    Ok(())
}

// The widths of the paths of a list, added.
fn widths_added(net: &Network, list: &[u8]) -> usize
    requires { (length list.now ≤ 8) × All (λ k. k < net.now.n) list.now }
    ensures { result ≡ sum_by (at net.now.widths.now) list.now }
{
    list.iter()
        .map(|k| usize::from(net.width(usize::from(*k))))
        .sum()
}

// The floor of a list that the tests have accepted: its widths added, and the shortest walk through it.
pub fn floor_of(net: &Network, list: &[u8]) -> usize
    requires { Floorable net.now.n (lent net.now) list.now }
    ensures { result ≡ floor (net_of (lent net.now)) (at list.now) (length list.now) }
{
    widths_added(net, list) + usize::from(Square::of(net, list).shortest())
}
