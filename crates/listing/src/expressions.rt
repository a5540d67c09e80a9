//! Expressions as text.
use crate::declarations::Name;
use records::{DesignFile, Node};
use std::fmt;
use vectors::Pairing;

/// An expression, written out.
#[derive(Clone, Copy)]
pub struct ExpressionText<'a> {
    pub file: &'a DesignFile<'a>,
    pub expression: u32,
}

impl fmt::Display for ExpressionText<'_> {
    fn fmt<W: fmt::Write>(&self, f: &mut fmt::Formatter<W>) -> fmt::Result {
        show(self.file, self.expression, f)
    }
}

// A function, since neither Display nor Pairing is of this crate.
fn mark_of(pairing: Pairing) -> &'static str {
    match pairing {
        Pairing::And => " & ",
        Pairing::Or => " | ",
        Pairing::Xor => " ^ ",
        Pairing::Sum => " + ",
        Pairing::Difference => " - ",
        Pairing::Equals => " == ",
        Pairing::Less => " < ",
    }
}

// Whether an expression needs brackets as a part of another.
fn is_open(node: Node) -> bool {
    matches!(
        node,
        Node::Pair { .. } | Node::ShiftLeft { .. } | Node::ShiftRight { .. } | Node::Choose { .. }
    )
}

// What stands after the only part.
fn show_suffix<W: fmt::Write>(node: Node, f: &mut fmt::Formatter<W>) -> fmt::Result {
    match node {
        Node::ShiftLeft { by, .. } => write!(f, " << {by}"),
        Node::ShiftRight { by, .. } => write!(f, " >> {by}"),
        Node::Part { width, from, .. } => {
            let top = (u64::from(from) + u64::from(width)).saturating_sub(1);
            write!(f, "[{top}:{from}]")
        }
        _ => Ok(()),
    }
}

// A mark, and after it expression `n` as a part of another.
// Functions, since a `fmt` that calls itself through `write!` does not prove.
#[cycle(expression)]
fn show_part<W: fmt::Write>(
    file: &DesignFile<'_>,
    mark: &str,
    n: u32,
    f: &mut fmt::Formatter<W>,
) -> fmt::Result {
    write!(f, "{mark}")?;
    if !is_open(file.node(n)) {
        return show(file, n, f);
    }
    write!(f, "(")?;
    show(file, n, f)?;
    write!(f, ")")
}

// Expression `n`; the constant that stands for one out of range has no width.
#[cycle(expression)]
fn show<W: fmt::Write>(file: &DesignFile<'_>, n: u32, f: &mut fmt::Formatter<W>) -> fmt::Result {
    let node = file.node(n);
    match node {
        Node::Constant { width: 0, .. } => write!(f, "0"),
        Node::Constant { width, value } => write!(f, "{width}'d{value}"),
        Node::Variable { variable, .. } => write!(f, "{}", Name::of(file, variable)),
        Node::Not { of, .. } => show_part(file, "~", of, f),
        Node::ShiftLeft { of, .. } | Node::ShiftRight { of, .. } | Node::Part { of, .. } => {
            show_part(file, "", of, f)?;
            show_suffix(node, f)
        }
        Node::Pair {
            by,
            left,
            right,
            ..
        } => {
            show_part(file, "", left, f)?;
            show_part(file, mark_of(by), right, f)
        }
        Node::Above { high, low, .. } => {
            write!(f, "{{")?;
            show(file, high, f)?;
            write!(f, ", ")?;
            show(file, low, f)?;
            write!(f, "}}")
        }
        Node::Choose {
            condition,
            yes,
            no,
            ..
        } => {
            show_part(file, "", condition, f)?;
            show_part(file, " ? ", yes, f)?;
            show_part(file, " : ", no, f)
        }
    }
}
