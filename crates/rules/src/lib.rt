//! The rules of form: which record of a design file breaks one first.
#![tactic(auto)]

ghost use Rattle.std.specs.Prelude.{◌≡◌};
ghost use Rattle.rules.specs.declared.Rule.TheVariants.{Range, Use, Width, Assignment, Reading, Selector};
ghost use Rattle.rules.specs.First.{refused_by, form_refusal, checked};

use records::DesignFile;
use refusal::Refusal;
use survey::{Survey, Uses};

mod blocks;
mod firsts;
mod parts;
mod ranges;
mod widths;

use blocks::{is_hasty, is_misassigned, is_misguided};
use firsts::refuse_first;
use parts::is_misused;
use ranges::is_out_of_range;
use widths::is_misfit;

/// The rules, in the order in which they are asked.
#[derive(Clone, Copy)]
pub enum Rule {
    /// Fields, constants and shifts are in range, and name records that exist.
    Range,
    /// Commands and expressions are used once, by higher records.
    Use,
    /// Widths fit.
    Width,
    /// Blocks assign what they may, once and on every path.
    Assignment,
    /// Wires are read after they are assigned.
    Reading,
    /// Labels are looked up by fitting selectors.
    Selector,
}

fn check_ranges(file: &DesignFile<'_>) -> Result<(), Refusal>
    ensures { result ≡ checked (refused_by file.now Range) }
{
    refuse_first(file, Rule::Range, |s, n| is_out_of_range(file, s, n))
}

fn check_uses(file: &DesignFile<'_>) -> Result<(), Refusal>
    ensures { result ≡ checked (refused_by file.now Use) }
{
    // `&*`: lent again, for the one lifetime that `Uses` names.
    let uses = Uses::of(&*file);
    refuse_first(file, Rule::Use, |s, n| is_misused(&uses, s, n))
}

fn check_widths(file: &DesignFile<'_>) -> Result<(), Refusal>
    ensures { result ≡ checked (refused_by file.now Width) }
{
    refuse_first(file, Rule::Width, |s, n| is_misfit(file, s, n))
}

fn check_assignments(survey: &Survey<'_>) -> Result<(), Refusal>
    ensures { result ≡ checked (refused_by survey.now.file.now Assignment) }
{
    refuse_first(
        survey.file,
        Rule::Assignment,
        |s, n| is_misassigned(survey, s, n),
    )
}

fn check_readings(survey: &Survey<'_>) -> Result<(), Refusal>
    ensures { result ≡ checked (refused_by survey.now.file.now Reading) }
{
    refuse_first(survey.file, Rule::Reading, |s, n| is_hasty(survey, s, n))
}

fn check_selectors(survey: &Survey<'_>) -> Result<(), Refusal>
    ensures { result ≡ checked (refused_by survey.now.file.now Selector) }
{
    refuse_first(
        survey.file,
        Rule::Selector,
        |s, n| is_misguided(survey, s, n),
    )
}

/// Refuses the first record that breaks one rule.
pub fn check_rule(file: &DesignFile<'_>, rule: Rule) -> Result<(), Refusal>
    ensures { result ≡ checked (refused_by file.now rule) }
{
    match rule {
        Rule::Range => check_ranges(file),
        Rule::Use => check_uses(file),
        Rule::Width => check_widths(file),
        Rule::Assignment => check_assignments(&Survey::of(&*file)),
        Rule::Reading => check_readings(&Survey::of(&*file)),
        Rule::Selector => check_selectors(&Survey::of(&*file)),
    }
}

/// Refuses the first record that breaks a rule, in the order of the rules.
#[tactic(auto, using(crate::proofs::Searches::in_order))]
pub fn check_rules(file: &DesignFile<'_>) -> Result<(), Refusal>
    ensures { result ≡ checked (form_refusal file.now) }
{
    check_ranges(file)?;
    check_uses(file)?;
    check_widths(file)?;
    // Each record is used at most once here, so the walk over the blocks meets it once.
    let survey = Survey::of(&*file);
    check_assignments(&survey)?;
    check_readings(&survey)?;
    check_selectors(&survey)
}
