//! Every refusal that a caller can meet, with its number and its place.
#![tactic(auto)]

ghost use Rattle.std.specs.Prelude.{◌≡◌, ◌↔◌, Some, IsSome};
ghost use Rattle.refusal.specs.Notice.{notice, section_number, line, IsAboutPlace, Tells};

use std::fmt;

/// The five sections of a design file, each with its number there.
#[derive(Clone, Copy, Debug, PartialEq, Eq)]
pub enum Section {
    Tables = 0,
    Variables = 1,
    Blocks = 2,
    Commands = 3,
    Expressions = 4,
}

impl Section {
    /// The sections, in the file's order.
    pub const ALL: [Section; 5] = [
        Section::Tables,
        Section::Variables,
        Section::Blocks,
        Section::Commands,
        Section::Expressions,
    ];

    pub fn number(self) -> u32
        ensures { result ≡ section_number self }
    {
        self as u32
    }
}

/// A record of a design file.
#[derive(Clone, Copy, Debug, PartialEq, Eq)]
pub struct Place {
    pub section: Section,
    pub record: u32,
}

/// Why a call was refused. docs/REFUSALS.md tells when each is given.
#[derive(Clone, Copy, PartialEq, Eq)]
pub enum Refusal {
    // A design file: its layout.
    TooShort,
    UnknownEdition,
    BrokenLayout {
        section: Section,
    },
    OverLimit {
        section: Section,
    },
    // A design file: its records and their form.
    OutOfRange {
        place: Place,
    },
    Misused {
        place: Place,
    },
    WidthMismatch {
        place: Place,
    },
    BadAssignment {
        place: Place,
    },
    EarlyRead {
        expression: u32,
    },
    BadSelector {
        variable: u32,
    },
    // The judge.
    NoLevel {
        place: Place,
    },
    SelectorTooHigh {
        variable: u32,
    },
    FlowTooHigh {
        command: u32,
        flow: u32,
        target: u32,
    },
    ConditionTooHigh {
        command: u32,
    },
    // A session's drives and reads.
    NotAPort {
        number: u32,
    },
    ValueTooWide {
        variable: u32,
    },
    NotAVariable {
        number: u32,
    },
    NotAWatcher {
        variable: u32,
    },
    NoValue {
        variable: u32,
    },
    Hidden {
        variable: u32,
    },
    // Lattices.
    OutsideLimits,
    NotALattice,
}

impl Refusal {
    pub fn number(self) -> u32
        ensures { result ≡ (notice self).number }
    {
        match self {
            Refusal::TooShort => 1,
            Refusal::UnknownEdition => 2,
            Refusal::BrokenLayout { .. } => 3,
            Refusal::OverLimit { .. } => 4,
            Refusal::OutOfRange { .. } => 5,
            Refusal::Misused { .. } => 6,
            Refusal::WidthMismatch { .. } => 7,
            Refusal::BadAssignment { .. } => 8,
            Refusal::EarlyRead { .. } => 9,
            Refusal::BadSelector { .. } => 10,
            Refusal::NoLevel { .. } => 11,
            Refusal::SelectorTooHigh { .. } => 12,
            Refusal::FlowTooHigh { .. } => 13,
            Refusal::ConditionTooHigh { .. } => 14,
            Refusal::NotAPort { .. } => 15,
            Refusal::ValueTooWide { .. } => 16,
            Refusal::NotAVariable { .. } => 17,
            Refusal::NotAWatcher { .. } => 18,
            Refusal::NoValue { .. } => 19,
            Refusal::Hidden { .. } => 20,
            Refusal::OutsideLimits => 21,
            Refusal::NotALattice => 22,
        }
    }

    /// The record that the refusal is about: the first of its section, where it is about the section itself.
    pub fn place(self) -> Option<Place>
        ensures some { IsSome result ↔ IsAboutPlace self }
        ensures told { Tells (notice self) result }
    {
        let (section, record) = match self {
            Refusal::TooShort
            | Refusal::UnknownEdition
            | Refusal::OutsideLimits
            | Refusal::NotALattice => return None,
            Refusal::BrokenLayout { section } | Refusal::OverLimit { section } => (section, 0),
            Refusal::OutOfRange { place }
            | Refusal::Misused { place }
            | Refusal::WidthMismatch { place }
            | Refusal::BadAssignment { place }
            | Refusal::NoLevel { place } => return Some(place),
            Refusal::EarlyRead { expression } => (Section::Expressions, expression),
            Refusal::FlowTooHigh { command, .. } | Refusal::ConditionTooHigh { command } => {
                (Section::Commands, command)
            }
            Refusal::NotAPort { number } | Refusal::NotAVariable { number } => {
                (Section::Variables, number)
            }
            Refusal::BadSelector { variable }
            | Refusal::SelectorTooHigh { variable }
            | Refusal::ValueTooWide { variable }
            | Refusal::NotAWatcher { variable }
            | Refusal::NoValue { variable }
            | Refusal::Hidden { variable } => (Section::Variables, variable),
        };
        Some(Place { section, record })
    }

    /// The section of what the refusal is about, 0 where it is about no record.
    pub fn section(self) -> u32
        ensures { result ≡ (notice self).section }
    {
        self.place().map_or(0, |place| place.section.number())
    }

    /// The record of what the refusal is about, 0 where it is about no record.
    pub fn record(self) -> u32
        ensures { result ≡ (notice self).«record» }
    {
        self.place().map_or(0, |place| place.record)
    }
}

impl fmt::Display for Refusal {
    ghost output = { λ x. Some (line (notice x)) };

    fn fmt<W: fmt::Write>(&self, f: &mut fmt::Formatter<W>) -> fmt::Result {
        let number = self.number();
        let section = self.section();
        let record = self.record();
        write!(f, "refused {number} {section} {record}")
    }
}

// By hand, so that `{:?}` too prints what programs read.
impl fmt::Debug for Refusal {
    ghost debug_output = { λ x. Some (line (notice x)) };

    fn fmt<W: fmt::Write>(&self, f: &mut fmt::Formatter<W>) -> fmt::Result {
        write!(f, "{self}")
    }
}
