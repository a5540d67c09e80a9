//! Tables and variables as text.
use records::{DesignFile, ENTRIES, Kind, Label, field};
use refusal::Section;
use std::fmt;

/// A variable's name: the letter of its kind and its number.
#[derive(Clone, Copy)]
pub(crate) struct Name {
    pub kind: Option<Kind>,
    pub number: u32,
}

impl Name {
    pub(crate) fn of(file: &DesignFile<'_>, number: u32) -> Name {
        let kind = file.variable(number).kind;
        Name { kind, number }
    }
}

impl fmt::Display for Name {
    fn fmt<W: fmt::Write>(&self, f: &mut fmt::Formatter<W>) -> fmt::Result {
        let letter = match self.kind {
            Some(Kind::Port) => 'p',
            Some(Kind::Register) => 'r',
            Some(Kind::Wire) => 'w',
            None => 'v',
        };
        let number = self.number;
        write!(f, "{letter}{number}")
    }
}

// A function, since neither Display nor Kind is of this crate.
fn word_of(kind: Option<Kind>) -> &'static str {
    match kind {
        Some(Kind::Port) => "port",
        Some(Kind::Register) => "register",
        Some(Kind::Wire) => "wire",
        None => "variable",
    }
}

/// The first entries of a label table, each after a blank.
#[derive(Clone, Copy)]
pub struct TableText<'a> {
    pub file: &'a DesignFile<'a>,
    pub table: u32,
    pub entries: u32,
}

impl fmt::Display for TableText<'_> {
    fn fmt<W: fmt::Write>(&self, f: &mut fmt::Formatter<W>) -> fmt::Result {
        // The bytes that lie there: `entry` is 0 of a table that the file does not count, which would hide them.
        let levels = self.file.record(Section::Tables, self.table);
        for i in 0..self.entries.min(ENTRIES as u32) {
            let level = field(levels, 4 * i as usize);
            write!(f, " {level}")?;
        }
        Ok(())
    }
}

/// A variable's label: its level, or the entries that its selector reaches.
#[derive(Clone, Copy)]
struct LabelText<'a> {
    file: &'a DesignFile<'a>,
    label: Label,
}

impl fmt::Display for LabelText<'_> {
    fn fmt<W: fmt::Write>(&self, f: &mut fmt::Formatter<W>) -> fmt::Result {
        let file = self.file;
        match self.label {
            Label::Fixed { level } => write!(f, "level {level}"),
            Label::LookedUp { table, selector } => {
                let name = Name::of(file, selector);
                let entries = values_of(file.variable(selector).width);
                let levels = TableText {
                    file,
                    table,
                    entries,
                };
                write!(f, "by {name}:{levels}")
            }
        }
    }
}

// How many values a selector of this width has, of those that a table has entries for.
fn values_of(width: u8) -> u32 {
    if width < 4 {
        1 << width
    } else {
        ENTRIES as u32
    }
}

/// A variable: its name, kind, width, label and reset value.
#[derive(Clone, Copy)]
pub struct VariableText<'a> {
    pub file: &'a DesignFile<'a>,
    pub variable: u32,
}

impl fmt::Display for VariableText<'_> {
    fn fmt<W: fmt::Write>(&self, f: &mut fmt::Formatter<W>) -> fmt::Result {
        let file = self.file;
        let name = Name::of(file, self.variable);
        let variable = file.variable(self.variable);
        let kind = word_of(variable.kind);
        let width = variable.width;
        let label = LabelText {
            file,
            label: variable.label(),
        };
        write!(f, "{name}: {kind}, {width} wide, {label}")?;
        if variable.kind == Some(Kind::Register) {
            let reset = variable.reset;
            write!(f, ", reset {reset}")?;
        }
        Ok(())
    }
}
