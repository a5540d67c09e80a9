//! Refusals in plain words.
use refusal::{Place, Refusal, Section};
use std::fmt;

/// What a refusal means, and which record it is about.
#[derive(Clone, Copy)]
pub struct Reason {
    pub refusal: Refusal,
}

impl fmt::Display for Reason {
    fn fmt<W: fmt::Write>(&self, f: &mut fmt::Formatter<W>) -> fmt::Result {
        let reason = reason_of(self.refusal);
        match (self.refusal, self.refusal.place()) {
            (Refusal::BrokenLayout { section } | Refusal::OverLimit { section }, _) => {
                write!(f, "section {}: {reason}", section.number())
            }
            (_, Some(Place { section, record })) => {
                write!(f, "{} {record}: {reason}", word_of(section))
            }
            (_, None) => write!(f, "{reason}"),
        }
    }
}

// A function, since Refusal has its own Display, which is for programs.
fn reason_of(refusal: Refusal) -> &'static str {
    match refusal {
        Refusal::TooShort => "the file has fewer than 44 bytes",
        Refusal::UnknownEdition => "the edition is not 1",
        Refusal::BrokenLayout { .. } => "the section does not lie where it has to",
        Refusal::OverLimit { .. } => "the section has more records than its limit",
        Refusal::OutOfRange { .. } =>
            "a field is out of range, not 0 though unused, or names no record",
        Refusal::Misused { .. } =>
            "the record is not used exactly once, or has a part that is not lower",
        Refusal::WidthMismatch { .. } => "a width does not fit, or a condition is not 1 wide",
        Refusal::BadAssignment { .. } =>
            "block order, the kind of a target, or a rule on assignments is broken",
        Refusal::EarlyRead { .. } => "a wire is read by a block that is not after its own",
        Refusal::BadSelector { .. } => "the selector of the label is not allowed",
        Refusal::NoLevel { .. } => "an entry or a label is no level of the lattice",
        Refusal::SelectorTooHigh { .. } =>
            "the selector's level is not at or below an entry that it reaches",
        Refusal::FlowTooHigh { .. } =>
            "what is assigned, or a condition around, is not at or below the target's level",
        Refusal::ConditionTooHigh { .. } =>
            "a condition around is not at or below the level that the target has now",
        Refusal::NotAPort { .. } => "the number is no port's",
        Refusal::ValueTooWide { .. } => "the value does not fit the port's width",
        Refusal::NotAVariable { .. } => "the number is no variable's",
        Refusal::NotAWatcher { .. } => "the watcher's number is no level of the lattice",
        Refusal::NoValue { .. } => "the wire has no value",
        Refusal::Hidden { .. } => "the level is not at or below the watcher's",
        Refusal::OutsideLimits => "a count or a product is outside its limits",
        Refusal::NotALattice => "the table is no lattice's",
    }
}

// What a record of a section is. A function, since neither Display nor Section is of this crate.
fn word_of(section: Section) -> &'static str {
    match section {
        Section::Tables => "label table",
        Section::Variables => "variable",
        Section::Blocks => "block",
        Section::Commands => "command",
        Section::Expressions => "expression",
    }
}
