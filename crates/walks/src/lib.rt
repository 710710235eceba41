// An inner crate: the shortest walk through the paths of a floor's list (RULES 12). Every walk passes the
// last position: it is two walks away from there, one through some of the positions before it and one through
// the rest, so that only walks through sets of those are kept. They are built up by sets: the least walks
// through a set come from those through the set with one position less, and no order is walked twice. A set is
// a number, bit j being position j; a table of walks has a row for each set, and in it a cell for each position
// at which a walk may begin.
#![tactic(auto)]

ghost use Rattle.std.specs.Prelude.{◌≡◌, ℕ, ◌+◌, ◌-◌, ◌/◌, ◌^◌, ◌≤◌, ◌<◌, length, replicate};
ghost use Rattle.std.proofs.Props.{props};
ghost use Rattle.rules.specs.Tables.{at};
ghost use Rattle.rules.specs.Floor.{shortest};
ghost use Rattle.plan_laws.specs.Answers.{Floorable};
ghost use Rattle.network.specs.Lent.{lent};
ghost use Rattle.walks.specs.Square.{row_at, guard_in, Row, SquareOf, Walkable};
ghost use Rattle.walks.specs.Filled.{onward, least_from, Blank, Filling};
ghost use Rattle.walks.specs.Joined.{away, least_joined};

use network::Network;
use rules::{LIST_MOST, NO_CONFLICT};

// Stands for no walk. Through eight paths none is longer than seven guards of 32.
const NO_WALK: u8 = 255;

// The guards of a path with each path of a list, 255 past it.
fn row_of(guards: &[u8], list: &[u8], from: usize) -> [u8; LIST_MOST]
    requires { (length guards.now ≡ 16384) × ((length list.now ≤ 8) × ((from < 128)
        × ((i : ℕ) → i < length list.now → at list.now i < 128))) }
    ensures { Row guards.now list.now from result }
{
    let mut row = [NO_CONFLICT; LIST_MOST];
    for (q, to) in list.iter().enumerate() {
        row[q] = guards[rules::PATHS * from + usize::from(*to)];
    }
    row
}

// The guards of the list, by position.
pub fn square_of(guards: &[u8], list: &[u8]) -> [[u8; LIST_MOST]; LIST_MOST]
    requires { (length guards.now ≡ 16384) × ((length list.now ≤ 8)
        × ((i : ℕ) → i < length list.now → at list.now i < 128)) }
    ensures { SquareOf guards.now list.now result }
{
    let mut square = [[NO_CONFLICT; LIST_MOST]; LIST_MOST];
    for (p, from) in list.iter().enumerate() {
        square[p] = row_of(guards, list, usize::from(*from));
    }
    square
}

// The guards of one to eight positions that can be walked.
#[derive(Clone, Copy)]
pub struct Square {
    pub guards: [[u8; LIST_MOST]; LIST_MOST],
    pub size: usize,
    ghost sized: { (1 ≤ size) × (size ≤ 8) },
    ghost walkable: { Walkable (guard_in guards) size } by { Prim.hlevel props },
}

impl Square {
    pub fn of(net: &Network, list: &[u8]) -> Square
        requires { Floorable net.now.n (lent net.now) list.now }
        ensures size { result.size ≡ length list.now }
        ensures guards { SquareOf net.now.guards.now list.now result.guards }
    {
        Square {
            guards: square_of(net.guards, list),
            size: list.len(),
        }
    }

    // The shortest walk through all positions. The table has a row for each set of those before the last, which are
    // seven at most; a small one is sooner cleared.
    pub fn shortest(&self) -> u8
        ensures { result ≡ shortest (guard_in self.now.guards) self.now.size }
    {
        if self.size <= 5 {
            self.shortest_in(&mut [[NO_WALK; LIST_MOST]; 16])
        } else {
            self.shortest_in(&mut [[NO_WALK; LIST_MOST]; 128])
        }
    }

    // The same, in a blank table with room for all sets of the positions before the last.
    fn shortest_in(&self, walks: &mut [[u8; LIST_MOST]]) -> u8
        requires room { 2 ^ (self.now.size - 1) ≤ length walks.old }
        requires blank { Blank 0 walks.old }
        ensures { result ≡ shortest (guard_in self.now.guards) self.now.size }
    {
        self.shortest_to(self.size - 1, walks)
    }

    // The shortest walk through the positions up to this last one, likewise: the sets of those before it are filled one
    // after the other.
    fn shortest_to(&self, last: usize, walks: &mut [[u8; LIST_MOST]]) -> u8
        requires inside { last < self.now.size }
        requires room { 2 ^ (self.now.size - 1) ≤ length walks.old }
        requires blank { Blank 0 walks.old }
        ensures { result ≡ shortest (guard_in self.now.guards) (last + 1) }
    {
        let half = 1 << last;
        for s in 1..half {
            self.fill_set(last, walks, s);
        }
        self.least_joined(last, walks, half)
    }

    // Fills the row of the set s of those before the last, when all sets of smaller numbers are filled: every set that
    // s is with one position less is among them. It is filled in its place: a row that is made elsewhere is stored by
    // bytes and then read whole, which takes longer.
    fn fill_set(&self, last: usize, walks: &mut [[u8; LIST_MOST]], s: usize)
        requires { (last < 8) × (s < length walks.old) × (row_at walks.old s ≡ replicate 8 255) }
        ensures { Filling self.now.guards s last walks.old walks.new }
    {
        for j in 0..last {
            walks[s][j] = self.least_from(walks, s, j);
        }
    }

    // The least walk through the set s from position j.
    fn least_from(&self, walks: &[[u8; LIST_MOST]], s: usize, j: usize) -> u8
        requires { (j < 8) × (s < length walks.now) }
        ensures { result ≡ least_from self.now.guards walks.now s j }
    {
        if s >> j & 1 == 0 {
            return NO_WALK;
        }
        let rest = s - (1 << j);
        if rest == 0 {
            0
        } else {
            onward(&self.guards[j], &walks[rest])
        }
    }

    // The least walk that passes the last position: away from it through a set s of those before it, and through the rest
    // of them, which is half - 1 - s. Of the two one is below the middle, and which of them comes first makes no
    // difference, so that s goes no further.
    #[tactic(auto, using(crate::specs::Filled::least_steps), unfolding(crate::specs::Joined::least_joined))]
    fn least_joined(&self, last: usize, walks: &[[u8; LIST_MOST]], half: usize) -> u8
        requires { (last < 8) × (1 ≤ half) × (half ≤ length walks.now) }
        ensures { result ≡ least_joined (row_at self.now.guards last) walks.now half ((half + 1) / 2) }
    {
        let guards = &self.guards[last];
        let mut best = NO_WALK;
        for s in 0..half.div_ceil(2) {
            let walk = away(guards, walks, s).saturating_add(away(guards, walks, half - 1 - s));
            best = best.min(walk);
        }
        best
    }
}

// The least way on from a position with these guards through a set that has these least walks: one guard, and the
// walk from there.
#[tactic(auto, using(crate::specs::Filled::least_steps))]
fn onward(guards: &[u8; LIST_MOST], walks: &[u8; LIST_MOST]) -> u8
    ensures { result ≡ onward guards.now walks.now }
{
    let mut best = NO_WALK;
    for (guard, walk) in guards.iter().zip(walks) {
        best = best.min(guard.saturating_add(*walk));
    }
    best
}

// The least way on from the last position, which has these guards, through the set s: 0 where it is empty, as
// the walk may begin or end at the last position.
#[tactic(auto, using(std::proofs::lemmas::Bool::Decides::nat_tests), unfolding(crate::specs::Joined::away))]
fn away(guards: &[u8; LIST_MOST], walks: &[[u8; LIST_MOST]], s: usize) -> u8
    requires { s < length walks.now }
    ensures { result ≡ away guards.now walks.now s }
{
    if s == 0 { 0 } else { onward(guards, &walks[s]) }
}
