// An inner crate: what the tests have accepted, as a value that can't be had otherwise. A function that takes one needs
// no test of its own, and asks nothing of its caller for it.
#![tactic(auto)]

ghost use Rattle.std.specs.Prelude.{◌≡◌, ℕ, ◌<◌, length};
ghost use Rattle.rules.specs.Tables.{at, cell, lend};
ghost use Rattle.rules.specs.Limits.{Network, Starts};
ghost use Rattle.network.specs.Props.{props};

// A network within its limits (RULES 3).
#[derive(Clone, Copy)]
pub struct Network<'a> {
    pub n: usize,
    pub widths: &'a [u16],
    pub guards: &'a [u8],
    pub ghost within: { Network n (lend widths.now guards.now) } by { Prim.hlevel props },
}

impl<'a> Network<'a> {
    pub fn width(&self, k: usize) -> u16
        requires { k < self.now.n }
        ensures { result ≡ at self.now.widths.now k }
    {
        self.widths[k]
    }

    // The guard of paths i and j.
    pub fn guard(&self, i: usize, j: usize) -> u8
        requires { (i < self.now.n) × (j < self.now.n) }
        ensures { result ≡ at self.now.guards.now (cell i j) }
    {
        self.guards[rules::PATHS * i + j]
    }

    // The guards of path i with each of the n paths.
    pub fn row(&self, i: usize) -> &'a [u8]
        requires { i < self.now.n }
        ensures size { length result.now ≡ self.now.n }
        ensures cells { (j : ℕ) → j < self.now.n → at result.now j ≡ at self.now.guards.now (cell i j) }
    {
        let start = rules::PATHS * i;
        &self.guards[start..start + self.n]
    }
}

// Starts for a network, within their limits. They need not be a valid plan.
#[derive(Clone, Copy)]
pub struct Plan<'a> {
    pub net: Network<'a>,
    pub starts: &'a [u16],
    pub ghost legal: { Starts net.n starts.now },
}

impl<'a> Plan<'a> {
    pub fn start(&self, k: usize) -> u16
        requires { k < self.now.net.n }
        ensures { result ≡ at self.now.starts.now k }
    {
        self.starts[k]
    }
}
