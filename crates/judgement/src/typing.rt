//! Rules 11 to 14, in this order.
ghost use Rattle.std.specs.Result.{MatchResult};
ghost use Rattle.language.specs.Form.{Formed};
ghost use Rattle.records.specs.Trees.{design_of};
ghost use Rattle.judgement.specs.Verdicts.{Accepts, Rejects};

use crate::flowing::check_flows;
use crate::levels::{check_labels, check_selectors, check_tables};
use crate::staying::check_stays;
use flows::Tester;
use lattice::Lattice;
use refusal::Refusal;

/// Checks the typing rules of a formed design.
pub(crate) fn judge_typing<L: Lattice>(tester: &Tester<'_, L>) -> Result<(), Refusal>
    ensures { let m = L.meaning tester.now.lattice.now in let d = design_of tester.now.file.now in
        Formed d → MatchResult result (λ _. Accepts m d) (Rejects m d) }
{
    check_tables(tester)?;
    check_labels(tester)?;
    check_selectors(tester)?;
    check_flows(tester)?;
    check_stays(tester)
}
