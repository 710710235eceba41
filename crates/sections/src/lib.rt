// An inner crate, for the readers of sheets: the lines of a section one after the other, and the first of them at
// fault. Each section has a loop of its own, since its lines ask for other tables and write other ones.
#![tactic(auto)]

ghost use Rattle.std.specs.Prelude.{◌≡◌, ◌+◌, ◌≤◌, length, IfErr};
ghost use Rattle.rules.specs.Sheet.{lines, path_step, guard_step, start_step};
ghost use Rattle.sections.specs.Says.{section_of};

use rules::Refusal;

// The lines of n paths.
#[tactic(auto, using(crate::proofs::Turns::turns))]
pub fn paths<'a>(
    text: &'a [u8],
    n: usize,
    labels: &mut [u8],
    widths: &mut [u16],
) -> Result<&'a [u8], Refusal>
    requires { (n ≤ 128) × (length labels.old ≡ 1024) × (n ≤ length widths.old) }
    ensures section { section_of (labels.new, widths.new) result ≡ lines path_step 2 n 0 (labels.old, widths.old) text.now }
    ensures short { IfErr result (λ r. r.short ≡ 0) }
{
    let mut rest = text;
    for k in 0..n {
        let step = lines::path_step(rest, k, labels, widths);
        rest = step.map_err(|cause| Refusal::at(cause, 2 + k))?;
    }
    Ok(rest)
}

// The lines of m guards.
#[tactic(auto, using(crate::proofs::Turns::turns))]
pub fn guards<'a>(
    text: &'a [u8],
    n: usize,
    m: usize,
    labels: &[u8],
    guards: &mut [u8],
) -> Result<&'a [u8], Refusal>
    requires { (n ≤ 128) × (length labels.now ≡ 1024) × (length guards.old ≡ 16384) × (m ≤ 2000) }
    ensures section { section_of guards.new result ≡ lines (guard_step n labels.now) (n + 3) m 0 guards.old text.now }
    ensures short { IfErr result (λ r. r.short ≡ 0) }
{
    let mut rest = text;
    for k in 0..m {
        let step = lines::guard_step(rest, n, labels, guards);
        rest = step.map_err(|cause| Refusal::at(cause, n + 3 + k))?;
    }
    Ok(rest)
}

// The lines of n starts, of which the first is the line given.
#[tactic(auto, using(crate::proofs::Turns::turns))]
pub fn starts<'a>(
    text: &'a [u8],
    n: usize,
    line: usize,
    labels: &[u8],
    starts: &mut [u16],
) -> Result<&'a [u8], Refusal>
    requires { (n ≤ 128) × (length labels.now ≡ 1024) × (n ≤ length starts.old) × (line ≤ 10000) }
    ensures section { section_of starts.new result ≡ lines (start_step labels.now) line n 0 starts.old text.now }
    ensures short { IfErr result (λ r. r.short ≡ 0) }
{
    let mut rest = text;
    for k in 0..n {
        let step = lines::start_step(rest, k, labels, starts);
        rest = step.map_err(|cause| Refusal::at(cause, line + k))?;
    }
    Ok(rest)
}
