// An inner crate: the link of a path (RULES 25). The paths are filed by the slot after their end, and a path
// that holds another up is looked for in one file alone.
#![tactic(auto)]

ghost use Rattle.std.specs.Prelude.{◌≡◌, cond, eqb, ◌+◌, ◌<◌, Some, None};
ghost use Rattle.rules.specs.Tables.{at};
ghost use Rattle.rules.specs.Scan.{found};
ghost use Rattle.rules.specs.Plan.{net_of};
ghost use Rattle.rules.specs.Reason.{holds_up, link};
ghost use Rattle.network.specs.Lent.{lent};
ghost use Rattle.links.specs.Files.{file_at, file_of, Filed, props};

use network::Plan;
use rules::PATHS;

// 32 slots to a file, as many as a guard can have, and every 128th file in one, so that there are few to clear.
const SLOTS: usize = 32;

pub const FILES: usize = 128;

// No path has this number.
const NONE: u8 = 128;

// The file of a slot.
fn file_at(slot: u16) -> usize
    ensures { (result ≡ file_at slot) × (result < 128) }
{
    usize::from(slot) / SLOTS % FILES
}

// The slot after the end of path j.
fn after(plan: &Plan, j: usize) -> u16
    requires { j < plan.now.net.n }
    ensures { result ≡ at plan.now.starts.now j + at plan.now.net.widths.now j }
{
    plan.start(j) + plan.net.width(j)
}

// The file of path j: that of the slot after its end.
fn file_of(plan: &Plan, j: usize) -> usize
    requires { j < plan.now.net.n }
    ensures { (result ≡ file_of plan.now.net.widths.now plan.now.starts.now j) × (result < 128) }
{
    file_at(after(plan, j))
}

// Whether path j holds path k up: end + guard + 1 is k's start, and so it starts lower, since it has a slot at least.
// 255 is no conflict.
#[tactic(auto, using(crate::specs::Files::pairs))]
fn holds_up(plan: &Plan, k: usize, j: usize) -> bool
    requires { (k < plan.now.net.n) × (j < plan.now.net.n) }
    ensures { result ≡ holds_up (net_of (lent plan.now.net)) (at plan.now.starts.now) k j }
{
    let guard = plan.net.guard(k, j);
    guard < rules::NO_CONFLICT && after(plan, j) + u16::from(guard) == plan.start(k)
}

// Room for the files of any plan, whatever it holds: heads[b] is the first path of file b, owns[j] the path after j in
// j's own file, ups[j] the one after j in the file above. A path is a byte.
#[derive(Drop)]
pub struct Room {
    heads: [u8; FILES],
    owns: [u8; PATHS],
    ups: [u8; PATHS],
}

impl Room {
    // What it holds at first is never read: `Files::of` sets the heads, which are then set once.
    pub const EMPTY: Room = Room {
        heads: [0; FILES],
        owns: [0; PATHS],
        ups: [0; PATHS],
    };
}

// The paths of a plan, each filed in its own file and in the one above. The room is lent: a value that holds it would
// be copied where it is handed over.
#[derive(Drop)]
pub struct Files<'a> {
    pub plan: &'a Plan<'a>,
    room: &'a Room,
    ghost filed: { Filed (file_of plan.now.net.widths.now plan.now.starts.now) plan.now.net.n 0
        room.now.heads room.now.owns room.now.ups } by { Prim.hlevel props },
}

impl<'a> Files<'a> {
    // Files the paths from the last to the first, so that the lowest number of a file is its first.
    pub fn of(plan: &'a Plan<'a>, room: &'a mut Room) -> Files<'a>
        ensures { result.plan.now ≡ plan.now }
    {
        room.heads = [NONE; FILES];
        for j in (0..plan.net.n).rev() {
            let own = file_of(plan, j);
            let above = (own + 1) % FILES;
            room.owns[j] = room.heads[own];
            room.heads[own] = j as u8;
            room.ups[j] = room.heads[above];
            room.heads[above] = j as u8;
        }
        Files { plan, room }
    }

    // The path after j in file b, which is j's own or the one above.
    fn next_in(&self, b: usize, j: usize) -> usize
        requires { j < self.now.plan.now.net.n }
        ensures { let p = self.now.plan.now in result
            ≡ cond (eqb (file_of p.net.widths.now p.starts.now j) b) (at self.now.room.now.owns j)
            (at self.now.room.now.ups j) }
    {
        let next = if file_of(self.plan, j) == b {
            self.room.owns[j]
        } else {
            self.room.ups[j]
        };
        usize::from(next)
    }

    // The link of path k: in the file of its start the lowest number that holds it up.
    #[tactic(auto, using(crate::specs::Files::searches))]
    pub fn link_of(&self, k: usize) -> Option<usize>
        requires { k < self.now.plan.now.net.n }
        ensures { let p = self.now.plan.now in let net = net_of (lent p.net) in result
            ≡ cond (found (holds_up net (at p.starts.now) k) p.net.n)
            (Some (link net (at p.starts.now) p.net.n k)) None }
    {
        let file = file_at(self.plan.start(k));
        let mut j = usize::from(self.room.heads[file]);
        while j < self.plan.net.n {
            if holds_up(self.plan, k, j) {
                return Some(j);
            }
            j = self.next_in(file, j);
        }
        None
    }
}
