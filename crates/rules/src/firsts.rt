//! Which record breaks a rule first.
ghost use Rattle.std.specs.Prelude.{◌≡◌, ℕ, ◌<◌, Bool};
ghost use Rattle.refusal.specs.declared.Section.{Section};
ghost use Rattle.records.specs.Layouts.{count_in};
ghost use Rattle.rules.specs.Rules.{offends};
ghost use Rattle.rules.specs.First.{refusal_of, refused_in, refused_by, checked};

use crate::Rule;
use records::DesignFile;
use refusal::{Place, Refusal, Section};

// The refusal of a record that breaks a rule.
fn refusal_of(rule: Rule, section: Section, record: u32) -> Refusal
    ensures { result ≡ refusal_of rule section «record» }
{
    let place = Place { section, record };
    match rule {
        Rule::Range => Refusal::OutOfRange { place },
        Rule::Use => Refusal::Misused { place },
        Rule::Width => Refusal::WidthMismatch { place },
        Rule::Assignment => Refusal::BadAssignment { place },
        Rule::Reading => Refusal::EarlyRead { expression: record },
        Rule::Selector => Refusal::BadSelector { variable: record },
    }
}

// Refuses the first record of a section that a test finds.
#[tactic(auto, using(crate::proofs::Searches::none_yet, crate::proofs::Searches::passed, crate::proofs::Searches::refused_here))]
fn refuse_in<F: Fn(Section, u32) -> bool>(
    file: &DesignFile<'_>,
    rule: Rule,
    section: Section,
    breaks: &F,
) -> Result<(), Refusal>
    requires callable { F.IsAlwaysCallable breaks.now }
    requires tests { (n : ℕ) (r : Bool) → n < count_in file.now section → F.post breaks.now section n r → r ≡ offends file.now rule section n }
    ensures { result ≡ checked (refused_in file.now rule section) }
{
    // A `for`: with `find`, whose test is told only of records that there are, two answers would be left to write.
    for n in 0..file.count(section) {
        if breaks(section, n) {
            return Err(refusal_of(rule, section, n));
        }
    }
    Ok(())
}

// Refuses the first record that breaks a rule, by a test of the rule.
#[tactic(auto, using(crate::proofs::Searches::no_section_yet, crate::proofs::Searches::all_passed))]
pub(crate) fn refuse_first<F: Fn(Section, u32) -> bool>(
    file: &DesignFile<'_>,
    rule: Rule,
    breaks: F,
) -> Result<(), Refusal>
    requires callable { F.IsAlwaysCallable breaks }
    requires tests { (s : Section) (n : ℕ) (r : Bool) → n < count_in file.now s → F.post breaks s n r → r ≡ offends file.now rule s n }
    ensures { result ≡ checked (refused_by file.now rule) }
{
    for section in Section::ALL {
        refuse_in(file, rule, section, &breaks)?;
    }
    Ok(())
}
