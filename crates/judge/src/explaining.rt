//! Refusals of the judge in words.
use listing::CommandText;
use records::DesignFile;
use refusal::Refusal;
use std::fmt;

/// The command that a refusal is about, if it is about one, and the levels of a flow that is too high.
#[derive(Clone, Copy)]
pub(crate) struct Cause<'a> {
    pub file: &'a DesignFile<'a>,
    pub refusal: Refusal,
}

impl fmt::Display for Cause<'_> {
    fn fmt<W: fmt::Write>(&self, f: &mut fmt::Formatter<W>) -> fmt::Result {
        let text = |command| CommandText {
            file: self.file,
            command,
            depth: 1,
        };
        match self.refusal {
            Refusal::FlowTooHigh {
                command,
                flow,
                target,
            } => {
                let command = text(command);
                writeln!(f, "{command}  flow: level {flow}; target: level {target}")
            }
            Refusal::ConditionTooHigh { command } => write!(f, "{}", text(command)),
            _ => Ok(()),
        }
    }
}
