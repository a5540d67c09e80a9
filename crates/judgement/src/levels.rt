//! Rules 11 and 12: every label is a level, and a selector's is at or below those that it looks up.
ghost use Rattle.std.specs.Prelude.{ℕ, ◌^◌, ◌<◌, Decides, MatchResult};
ghost use Rattle.lattice.specs.Meaning.{Below};
ghost use Rattle.language.specs.Syntax.{entry};
ghost use Rattle.language.specs.Typing.{TableLevels, LabelLevel};
ghost use Rattle.language.specs.Finite.{Test12};
ghost use Rattle.language.specs.Offences.{First};
ghost use Rattle.records.specs.Trees.{design_of};
ghost use Rattle.judgement.specs.Findings.{TablesFine, LabelsFine, Tests12, Finds, no_table, no_label, too_high};

use crate::first::refuse_unfine;
use flows::Tester;
use lattice::Lattice;
use records::{ENTRIES, Label};
use refusal::{Place, Refusal, Section};
use vectors::fits;

// Whether every entry of table `t` is a level.
fn is_table_fine<L: Lattice>(tester: &Tester<'_, L>, t: u32) -> bool
    ensures { Decides result ((i : ℕ) → i < 16 → entry (design_of tester.now.file.now) t i < (L.meaning tester.now.lattice.now).count) }
{
    let count = tester.lattice.count();
    (0..ENTRIES as u32).all(|i| tester.file.entry(t, i) < count)
}

// Whether the label of variable `v`, where it is fixed, is a level.
fn is_label_fine<L: Lattice>(tester: &Tester<'_, L>, v: u32) -> bool
    ensures { Decides result (LabelLevel (L.meaning tester.now.lattice.now) (design_of tester.now.file.now) v) }
{
    match tester.file.label(v) {
        Label::Fixed { level } => level < tester.lattice.count(),
        Label::LookedUp { .. } => true,
    }
}

/// Refuses the first table that has an entry which is no level.
pub(crate) fn check_tables<L: Lattice>(tester: &Tester<'_, L>) -> Result<(), Refusal>
    ensures { let m = L.meaning tester.now.lattice.now in let d = design_of tester.now.file.now in
        MatchResult result (λ _. TablesFine m d) (Finds no_table (First (TableLevels m d))) }
{
    refuse_unfine(
        tester.file.table_count(),
        |t| is_table_fine(tester, t),
        |record| Refusal::NoLevel {
            place: Place {
                section: Section::Tables,
                record,
            },
        },
    )
}

/// Refuses the first variable whose fixed label is no level.
pub(crate) fn check_labels<L: Lattice>(tester: &Tester<'_, L>) -> Result<(), Refusal>
    ensures { let m = L.meaning tester.now.lattice.now in let d = design_of tester.now.file.now in
        MatchResult result (λ _. LabelsFine m d) (Finds no_label (First (LabelLevel m d))) }
{
    refuse_unfine(
        tester.file.variable_count(),
        |v| is_label_fine(tester, v),
        |record| Refusal::NoLevel {
            place: Place {
                section: Section::Variables,
                record,
            },
        },
    )
}

// Whether level `k` is at or below each entry of table `t` that values of this width reach.
fn is_under_entries<L: Lattice>(tester: &Tester<'_, L>, k: u32, t: u32, width: u32) -> bool
    ensures { Decides result ((x : ℕ) → x < 16 → x < 2 ^ width → Below (L.meaning tester.now.lattice.now) k (entry (design_of tester.now.file.now) t x)) }
{
    (0..ENTRIES as u32).all(|x| !fits(x, width)
        || tester.lattice.is_below(k, tester.file.entry(t, x)))
}

// Whether the selector of variable `v` keeps to rule 12.
fn is_selector_fine<L: Lattice>(tester: &Tester<'_, L>, v: u32) -> bool
    ensures { Decides result (Test12 (L.meaning tester.now.lattice.now) (design_of tester.now.file.now) v) }
{
    let Label::LookedUp { table, selector } = tester.file.label(v) else {
        return true;
    };
    let Label::Fixed { level } = tester.file.label(selector) else {
        return true;
    };
    is_under_entries(tester, level, table, tester.file.width(selector))
}

/// Refuses the first variable whose selector breaks rule 12.
pub(crate) fn check_selectors<L: Lattice>(tester: &Tester<'_, L>) -> Result<(), Refusal>
    ensures { let m = L.meaning tester.now.lattice.now in let d = design_of tester.now.file.now in
        MatchResult result (λ _. Tests12 m d) (Finds too_high (First (Test12 m d))) }
{
    refuse_unfine(
        tester.file.variable_count(),
        |v| is_selector_fine(tester, v),
        |variable| Refusal::SelectorTooHigh { variable },
    )
}
