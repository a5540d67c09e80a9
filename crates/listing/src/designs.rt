//! Whole designs as text.
use crate::commands::CommandText;
use crate::declarations::{TableText, VariableText};
use records::{DesignFile, ENTRIES};
use refusal::Section;
use std::fmt;

/// A design: its tables and variables, a line for each, and its blocks.
#[derive(Clone, Copy)]
pub struct DesignText<'a> {
    pub file: &'a DesignFile<'a>,
}

impl fmt::Display for DesignText<'_> {
    fn fmt<W: fmt::Write>(&self, f: &mut fmt::Formatter<W>) -> fmt::Result {
        show_tables(self.file, f)?;
        show_variables(self.file, f)?;
        show_blocks(self.file, f)
    }
}

fn show_tables<'a, W: fmt::Write>(
    file: &'a DesignFile<'a>,
    f: &mut fmt::Formatter<W>,
) -> fmt::Result {
    for table in 0..file.table_count() {
        let levels = TableText {
            file,
            table,
            entries: ENTRIES as u32,
        };
        writeln!(f, "table {table}:{levels}")?;
    }
    Ok(())
}

fn show_variables<'a, W: fmt::Write>(
    file: &'a DesignFile<'a>,
    f: &mut fmt::Formatter<W>,
) -> fmt::Result {
    for variable in 0..file.variable_count() {
        writeln!(f, "{}", VariableText { file, variable })?;
    }
    Ok(())
}

fn show_blocks<'a, W: fmt::Write>(
    file: &'a DesignFile<'a>,
    f: &mut fmt::Formatter<W>,
) -> fmt::Result {
    for n in 0..file.count(Section::Blocks) {
        let block = file.block(n);
        let kind = if block.is_settled() {
            "settled"
        } else {
            "clocked"
        };
        let body = CommandText {
            file,
            command: block.top,
            depth: 1,
        };
        write!(f, "{kind} block {n}:\n{body}")?;
    }
    Ok(())
}
