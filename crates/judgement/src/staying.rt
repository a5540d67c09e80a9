//! Rule 14: a register that is its own selector keeps no secret by not being assigned.
ghost use Rattle.std.specs.Prelude.{◌≡◌, not, ◌&&◌, List, MatchResult};
ghost use Rattle.language.specs.Syntax.{Expr, assign, together};
ghost use Rattle.language.specs.Form.{Way, Every, always};
ghost use Rattle.language.specs.Typing.{Anything};
ghost use Rattle.language.specs.Finite.{Test14};
ghost use Rattle.records.specs.Trees.{design_of, cmd_at, body_at, settled_at};
ghost use Rattle.paths.specs.Marks.{Tracks};
ghost use Rattle.judgement.specs.Findings.{lower_of, Stayed, StayedIn, StayedAll, Finds, condition_high, Lowest14};

use flows::{Flow, Tester};
use lattice::Lattice;
use paths::{Origin, Path, always_assigns};
use records::{Action, DesignFile, Label};
use refusal::{Refusal, Section};

// Of two records, the lower.
fn lower(a: Option<u32>, b: Option<u32>) -> Option<u32>
    ensures { result ≡ lower_of a b }
{
    match (a, b) {
        (Some(x), Some(y)) => Some(x.min(y)),
        _ => a.or(b),
    }
}

// Whether block `b` is clocked and assigns `v` on every path.
fn is_clocked_with(file: &DesignFile<'_>, b: u32, v: u32) -> bool
    ensures { result ≡ (not (settled_at file.now b) && always (body_at file.now b) v) }
{
    let block = file.block(b);
    !block.is_settled() && always_assigns(file, block.top, v)
}

// Whether the clocked blocks assign `v` on every path.
fn always_clocked(file: &DesignFile<'_>, v: u32) -> bool
    ensures { result ≡ always (together (design_of file.now).clocked) v }
{
    (0..file.count(Section::Blocks)).any(|b| is_clocked_with(file, b, v))
}

// The record `n`, which assigns `u`, where it breaks rule 14.
fn check_assignment<L: Lattice>(tester: &Tester<'_, L>, path: &Path, n: u32, u: u32) -> Option<u32>
    ensures { (ways : List Way) → Tracks ways path.now → (e : Expr) → Stayed (L.meaning tester.now.lattice.now) (design_of tester.now.file.now) ways (assign u e n) result }
{
    match tester.file.label(u) {
        Label::LookedUp { table, selector } if selector == u => {
            if always_clocked(tester.file, u) {
                return None;
            }
            let flow = Flow {
                values: &path.values,
                variables: &path.variables,
            };
            let present = Origin::ValueOf { table, variable: u };
            tester.find_offence(flow, present).map(|_| n)
        }
        _ => None,
    }
}

// The lowest assignment in command `n` that breaks rule 14. Not as `check_command` for rule 13, which stops at the first
// leak: the lowest is known once all were looked at.
fn lowest_in<L: Lattice>(tester: &Tester<'_, L>, path: &Path, n: u32) -> Option<u32>
    ensures { (ways : List Way) → Tracks ways path.now → Stayed (L.meaning tester.now.lattice.now) (design_of tester.now.file.now) ways (cmd_at tester.now.file.now n) result }
{
    match tester.file.action(n) {
        Action::Idle => None,
        Action::Both { first, second } => {
            let one = lowest_in(tester, path, first);
            let two = lowest_in(tester, path, second);
            lower(one, two)
        }
        Action::Choose { condition, yes, no } => {
            let on = path.past(tester.file, condition, true);
            let one = lowest_in(tester, &on, yes);
            let off = path.past(tester.file, condition, false);
            let two = lowest_in(tester, &off, no);
            lower(one, two)
        }
        Action::Assign { target, place, .. } => check_assignment(tester, path, place, target),
    }
}

// The lowest assignment in block `b` that breaks rule 14, if the block is clocked.
fn lowest_in_block<L: Lattice>(tester: &Tester<'_, L>, b: u32) -> Option<u32>
    ensures { StayedIn (L.meaning tester.now.lattice.now) tester.now.file.now b result }
{
    let block = tester.file.block(b);
    if block.is_settled() {
        return None;
    }
    lowest_in(tester, &Path::start(), block.top)
}

// The lowest assignment in the clocked blocks that breaks rule 14.
fn lowest<L: Lattice>(tester: &Tester<'_, L>) -> Option<u32>
    ensures { StayedAll (L.meaning tester.now.lattice.now) (design_of tester.now.file.now) result }
{
    // `.filter_map(..).min()` was tried: the search alone does not prove it, and a loop tells the lowest so far.
    let mut found = None;
    for b in 0..tester.file.count(Section::Blocks) {
        found = lower(found, lowest_in_block(tester, b));
    }
    found
}

/// Refuses the first assignment that breaks rule 14.
pub(crate) fn check_stays<L: Lattice>(tester: &Tester<'_, L>) -> Result<(), Refusal>
    ensures { let m = L.meaning tester.now.lattice.now in let d = design_of tester.now.file.now in
        MatchResult result (λ _. Every Anything (Test14 m d) d.clocked) (Finds condition_high (Lowest14 m d)) }
{
    match lowest(tester) {
        Some(command) => Err(Refusal::ConditionTooHigh { command }),
        None => Ok(()),
    }
}
