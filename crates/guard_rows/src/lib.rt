// An inner crate: the tests of a guard table's rows, 4 and 5. A row is tested with no branch on a cell, so
// that the compiler makes vector code of it; the first cell at fault is looked for only in a row that has one.
#![tactic(auto)]

ghost use Rattle.std.specs.Prelude.{◌≡◌, false, not, ◌||◌, ◌&&◌, ℕ, ◌≤◌, ◌<◌, ltb, eqb, length};
ghost use Rattle.rules.specs.Tables.{at, cell};
ghost use Rattle.rules.specs.Numbers.{bad_guard, bad_mirror};
ghost use Rattle.table_laws.specs.Firsts.{FirstIs};

// 4, of one cell: neither a guard of 0 to 32 nor 255, or on the diagonal another value than 255.
fn bad_guard(i: usize, j: usize, g: u8) -> bool
    ensures { result ≡ (not (eqb g 255) && (eqb i j || ltb 32 g)) }
{
    g != rules::NO_CONFLICT && (i == j || rules::GUARD_MOST < g)
}

// One more than a guard, and 0 for no conflict: at most 33 for a cell that is right.
fn above(g: u8) -> u8
    ensures { result ≤ 33 → (g ≡ 255 → ⊥) → g ≤ 32 }
{
    g.wrapping_add(1)
}

// The largest of a row, by that measure.
fn row_top(n: usize, i: usize, guards: &[u8]) -> u8
    requires { (n ≤ 128) × (i < n) × (length guards.now ≡ 16384) }
    ensures { result ≤ 33 → (j : ℕ) → j < n → (at guards.now (cell i j) ≡ 255 → ⊥)
        → at guards.now (cell i j) ≤ 32 }
{
    let mut top = 0;
    for j in 0..n {
        top = above(guards[rules::PATHS * i + j]).max(top);
    }
    top
}

// 4: the first cell of row i that is at fault. A row that is right is told by its largest cell and its diagonal.
pub fn guard_fault(n: usize, i: usize, guards: &[u8]) -> Option<usize>
    requires { (n ≤ 128) × (i < n) × (length guards.now ≡ 16384) }
    ensures { FirstIs (bad_guard guards.now i) n result }
{
    if row_top(n, i, guards) <= 33 && guards[rules::PATHS * i + i] == rules::NO_CONFLICT {
        return None;
    }
    (0..n).find(|&j| bad_guard(i, j, guards[rules::PATHS * i + j]))
}

// Whether row i past the diagonal differs from its mirror.
fn row_differs(n: usize, i: usize, guards: &[u8]) -> bool
    requires { (n ≤ 128) × (i < n) × (length guards.now ≡ 16384) }
    ensures { result ≡ false → (j : ℕ) → j < n → bad_mirror guards.now i j ≡ false }
{
    let mut differs = false;
    for j in i + 1..n {
        differs |= guards[rules::PATHS * i + j] != guards[rules::PATHS * j + i];
    }
    differs
}

// 5: the first cell of row i past the diagonal that is unequal to its mirror.
pub fn mirror_fault(n: usize, i: usize, guards: &[u8]) -> Option<usize>
    requires { (n ≤ 128) × (i < n) × (length guards.now ≡ 16384) }
    ensures { FirstIs (bad_mirror guards.now i) n result }
{
    if !row_differs(n, i, guards) {
        return None;
    }
    (i + 1..n).find(|&j| guards[rules::PATHS * i + j] != guards[rules::PATHS * j + i])
}
