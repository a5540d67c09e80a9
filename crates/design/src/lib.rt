//! Designs whose form was checked.
#![tactic(auto)]

ghost use Rattle.std.specs.Prelude.{◌≡◌, IfOk, Ok, Err, MatchResult};
ghost use Rattle.records.specs.Layouts.{layout_of};
ghost use Rattle.rules.specs.First.{form_refusal, checked};
ghost use Rattle.design.specs.First.{read_of};
ghost use Rattle.design.specs.Right.{Right, Accepted, Refused};

use records::DesignFile;
use refusal::Refusal;
use rules::check_rules;

/// A design file whose form was checked.
#[derive(Drop)]
pub struct Formed<'a> {
    file: DesignFile<'a>,
}

impl<'a> Formed<'a> {
    /// The file, with the layout that was found.
    pub fn file(&self) -> &DesignFile<'a>
        ensures { result.now ≡ self.now.file }
    {
        &self.file
    }
}

// Refuses a file by its records.
#[tactic(auto, using(crate::proofs::Firsts::tells))]
fn check_form(file: &DesignFile<'_>) -> Result<(), Refusal>
    ensures is { result ≡ checked (form_refusal file.now) }
    ensures says { MatchResult result (λ _. Right file.now) (λ e. layout_of file.now.bytes ≡ Ok file.now.layout → Refused file.now.bytes e) }
{
    check_rules(file)
}

/// Reads a design and checks its form, or gives the first refusal.
pub fn read_design(bytes: &[u8]) -> Result<Formed<'_>, Refusal>
    ensures answer { MatchResult result (λ d. read_of bytes.now ≡ Ok d.file.layout) (λ e. read_of bytes.now ≡ Err e) }
    ensures exact { MatchResult result (λ d. Accepted d.file) (λ e. Refused bytes.now e) }
    ensures file { IfOk result (λ d. d.file.bytes ≡ bytes.now) }
{
    let file = DesignFile::open(bytes)?;
    check_form(&file)?;
    Ok(Formed { file })
}
