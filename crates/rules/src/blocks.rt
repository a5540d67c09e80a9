//! What blocks assign, when they read, and how labels are looked up.
ghost use Rattle.std.specs.Prelude.{◌≡◌, ◌<◌};
ghost use Rattle.refusal.specs.declared.Section.TheVariants.{Variables};
ghost use Rattle.records.specs.Layouts.{count_in};
ghost use Rattle.records.specs.Cells.{variable_at};
ghost use Rattle.survey.specs.Sums.{any};
ghost use Rattle.rules.specs.Blocks.{unsettled, clocked_at, late, misassigns, hasty, wrong_by, wrong_selector, misled, misguided};

use records::{DesignFile, Form, Kind};
use refusal::Section;
use survey::{Survey, is_wire};

fn is_unsettled(survey: &Survey<'_>, v: u32) -> bool
    ensures { v < count_in survey.now.file.now Variables → result ≡ unsettled survey.now.file.now v }
{
    survey.assigns_twice(v) || is_wire(survey.file, v) && !survey.assigns_always(v)
}

// Whether a block before block `n` is clocked.
fn is_clocked_before(file: &DesignFile<'_>, n: u32) -> bool
    ensures { result ≡ any (clocked_at file.now) n }
{
    (0..n).any(|b| !file.block(b).is_settled())
}

fn is_late(file: &DesignFile<'_>, n: u32) -> bool
    ensures { result ≡ late file.now n }
{
    file.block(n).is_settled() && is_clocked_before(file, n)
}

pub(crate) fn is_misassigned(survey: &Survey<'_>, section: Section, n: u32) -> bool
    ensures { n < count_in survey.now.file.now section → result ≡ misassigns survey.now.file.now section n }
{
    match section {
        Section::Tables | Section::Expressions => false,
        Section::Variables => is_unsettled(survey, n),
        Section::Blocks => is_late(survey.file, n),
        Section::Commands => survey.writes_wrong(n),
    }
}

pub(crate) fn is_hasty(survey: &Survey<'_>, section: Section, n: u32) -> bool
    ensures { n < count_in survey.now.file.now section → result ≡ hasty survey.now.file.now section n }
{
    section == Section::Expressions && survey.reads_early(n)
}

// Whether `s` may not be the selector of `v`, by the kind of `v`.
fn is_wrong_by_kind(survey: &Survey<'_>, v: u32, s: u32) -> bool
    ensures { v < count_in survey.now.file.now Variables → result ≡ wrong_by survey.now.file.now (variable_at survey.now.file.now v).kind v s }
{
    match survey.file.variable(v).kind {
        Some(Kind::Port) => s == v || is_wire(survey.file, s),
        Some(Kind::Register) => is_wire(survey.file, s),
        Some(Kind::Wire) | None => {
            s != v && is_wire(survey.file, s) && !survey.comes_after(v, s)
        }
    }
}

fn is_wrong_selector(survey: &Survey<'_>, v: u32, s: u32) -> bool
    ensures { v < count_in survey.now.file.now Variables → result ≡ wrong_selector survey.now.file.now (variable_at survey.now.file.now v).kind v s }
{
    let selector = survey.file.variable(s);
    selector.width > 4
        || s != v && selector.form == Some(Form::LookedUp)
        || is_wrong_by_kind(survey, v, s)
}

fn is_misled(survey: &Survey<'_>, v: u32) -> bool
    ensures { v < count_in survey.now.file.now Variables → result ≡ misled survey.now.file.now (variable_at survey.now.file.now v) v }
{
    let x = survey.file.variable(v);
    x.form == Some(Form::LookedUp) && is_wrong_selector(survey, v, x.level)
}

pub(crate) fn is_misguided(survey: &Survey<'_>, section: Section, n: u32) -> bool
    ensures { n < count_in survey.now.file.now section → result ≡ misguided survey.now.file.now section n }
{
    section == Section::Variables && is_misled(survey, n)
}
