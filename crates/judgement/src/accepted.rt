//! Designs that were judged, and passed.
ghost use Rattle.std.specs.Prelude.{◌≡◌, IfOk, MatchResult};
ghost use Rattle.design.specs.First.{under};
ghost use Rattle.judgement.specs.Verdicts.{Approved, Declined};

use crate::typing::judge_typing;
use design::{Formed, read_design};
use flows::Tester;
use lattice::Lattice;
use records::DesignFile;
use refusal::Refusal;

/// A design that was accepted: the bytes that were lent, and beside them their file, to lend on. That it is theirs, `judge` says of
/// each design that it hands out. The file alone would not do, since the model of a `DesignFile` forgets where its bytes are:
/// accepted designs that are equal borrow the same memory.
#[derive(Drop)]
pub struct Accepted<'a> {
    bytes: &'a [u8],
    file: DesignFile<'a>,
}

impl<'a> Accepted<'a> {
    /// The file of the design, lent with it.
    pub fn file(&self) -> &DesignFile<'a>
        ensures { result.now ≡ self.now.file }
    {
        &self.file
    }

    /// A file of the bytes that were lent, which may outlive the design.
    pub fn to_file(&self) -> DesignFile<'a>
        ensures { result ≡ under self.now.bytes.now self.now.file.layout }
    {
        DesignFile::new(self.bytes, self.file.layout())
    }
}

/// Judges a design under a lattice. Its form is checked again, so that nothing is assumed of it.
pub fn judge<'a, L: Lattice>(formed: &Formed<'a>, lattice: &L) -> Result<Accepted<'a>, Refusal>
    ensures verdict { MatchResult result (λ a. Approved (L.meaning lattice.now) a.file) (Declined (L.meaning lattice.now) formed.now.file.bytes) }
    ensures file { IfOk result (λ a. a.file.bytes ≡ formed.now.file.bytes) }
    ensures lent { IfOk result (λ a. a.file ≡ under a.bytes.now a.file.layout) }
{
    let bytes = formed.file().bytes();
    let layout = read_design(bytes)?.file().layout();
    // Made before the verdict, since to move the file in after it takes more stack. Handed out only if it passes.
    let design = Accepted {
        bytes,
        file: DesignFile::new(bytes, layout),
    };
    let tester = Tester {
        file: &design.file,
        lattice,
    };
    judge_typing(&tester)?;
    Ok(design)
}
