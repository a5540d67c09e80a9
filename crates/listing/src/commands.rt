//! Commands as text.
use crate::declarations::Name;
use crate::expressions::ExpressionText;
use records::{Action, DesignFile, Kind};
use std::fmt;

/// A command, a line for each assignment and each branch.
#[derive(Clone, Copy)]
pub struct CommandText<'a> {
    pub file: &'a DesignFile<'a>,
    pub command: u32,
    /// How far it stands from the left.
    pub depth: u32,
}

impl fmt::Display for CommandText<'_> {
    fn fmt<W: fmt::Write>(&self, f: &mut fmt::Formatter<W>) -> fmt::Result {
        show(self.file, self.command, self.depth, f)
    }
}

/// What stands at the left of a line.
#[derive(Clone, Copy)]
struct Indent {
    depth: u32,
}

impl fmt::Display for Indent {
    fn fmt<W: fmt::Write>(&self, f: &mut fmt::Formatter<W>) -> fmt::Result {
        for _ in 0..self.depth {
            write!(f, "  ")?;
        }
        Ok(())
    }
}

// How a value comes to a variable: a wire has it at once, a register from the next clock on.
// A function, since neither Display nor Kind is of this crate.
fn mark_of(target: Option<Kind>) -> &'static str {
    match target {
        Some(Kind::Wire) => "=",
        _ => "<=",
    }
}

// A function, since a `fmt` that calls itself through `write!` does not prove.
fn show<'a, W: fmt::Write>(
    file: &'a DesignFile<'a>,
    n: u32,
    depth: u32,
    f: &mut fmt::Formatter<W>,
) -> fmt::Result {
    let indent = Indent { depth };
    match file.action(n) {
        Action::Idle => Ok(()),
        Action::Both { first, second } => {
            show(file, first, depth, f)?;
            show(file, second, depth, f)
        }
        Action::Choose { condition, yes, no } => {
            let deeper = depth.saturating_add(1);
            let condition = ExpressionText {
                file,
                expression: condition,
            };
            writeln!(f, "{indent}if ({condition})")?;
            show(file, yes, deeper, f)?;
            match file.action(no) {
                Action::Idle => Ok(()),
                _ => {
                    writeln!(f, "{indent}else")?;
                    show(file, no, deeper, f)
                }
            }
        }
        Action::Assign { target, value, .. } => {
            let name = Name::of(file, target);
            let mark = mark_of(name.kind);
            let value = ExpressionText {
                file,
                expression: value,
            };
            writeln!(f, "{indent}{name} {mark} {value};")
        }
    }
}
