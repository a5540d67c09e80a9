//! The verdict on a design, and how it is told.
use crate::explaining::Cause;
use crate::failure::Failure;
use crate::lattices::Task;
use design::read_design;
use judgement::judge;
use lattice::Lattice;
use listing::Reason;
use refusal::Refusal;
use std::io;

/// A design file to judge, and how the verdict is told.
#[derive(Clone, Copy)]
pub(crate) struct Judging<'a> {
    pub rt: &'a HostRuntime,
    pub bytes: &'a [u8],
    /// Whether a refusal is told in words too.
    pub explain: bool,
}

impl Judging<'_> {
    fn print_refusal(self, sign: char, refusal: Refusal) -> io::Result<()> {
        println!(self.rt; "{sign} {refusal}")?;
        if self.explain {
            println!(self.rt; "{}", Reason { refusal })?;
        }
        Ok(())
    }

    fn print_verdict<L: Lattice>(self, lattice: &L) -> io::Result<()> {
        let sign = L::SIGN;
        let formed = match read_design(self.bytes) {
            Ok(formed) => formed,
            Err(refusal) => return self.print_refusal(sign, refusal),
        };
        match judge(&formed, lattice) {
            Ok(_) => println!(self.rt; "{sign} accepted"),
            Err(refusal) => {
                self.print_refusal(sign, refusal)?;
                if self.explain {
                    let file = formed.file();
                    print!(self.rt; "{}", Cause { file, refusal })?;
                }
                Ok(())
            }
        }
    }
}

impl Task for Judging<'_> {
    fn run<L: Lattice + Drop>(self, lattice: L) -> Result<(), Failure> {
        Ok(self.print_verdict(&lattice)?)
    }
}
