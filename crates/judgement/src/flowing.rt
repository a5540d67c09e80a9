//! Rule 13 over all blocks.
ghost use Rattle.std.specs.Result.{MatchResult};
ghost use Rattle.language.specs.Typing.{Levelled};
ghost use Rattle.records.specs.Trees.{design_of};
ghost use Rattle.judgement.specs.Findings.{BlocksPass, Leaks};

use flows::Tester;
use lattice::Lattice;
use paths::Path;
use refusal::{Refusal, Section};

/// Refuses a design with an assignment that breaks rule 13.
pub(crate) fn check_flows<L: Lattice>(tester: &Tester<'_, L>) -> Result<(), Refusal>
    ensures { let m = L.meaning tester.now.lattice.now in let f = tester.now.file.now in
        Levelled m (design_of f) → MatchResult result (λ _. BlocksPass m f) (Leaks m f) }
{
    let start = Path::start();
    for b in 0..tester.file.count(Section::Blocks) {
        tester.check_command(&start, tester.file.block(b).top)?;
    }
    Ok(())
}
