//! The shape of an expression, what a condition leaves to a variable, and what a command assigns.
ghost use Rattle.std.specs.Prelude.{◌≡◌};
ghost use Rattle.language.specs.Form.{always};
ghost use Rattle.language.specs.Typing.{shape, pins, equates, leaves};
ghost use Rattle.records.specs.Trees.{expr_at, cmd_at};
ghost use Rattle.paths.specs.Marks.{shape_of};

use records::{Action, DesignFile, Node};
use vectors::Pairing;

/// What the rules look for in an expression: a constant, a single variable, or anything else.
#[derive(Clone, Copy)]
pub enum Shape {
    Number { value: u32 },
    Single { variable: u32 },
    Other,
}

/// The shape of expression `e`.
pub fn shape_of(file: &DesignFile<'_>, e: u32) -> Shape
    ensures { shape_of result ≡ shape (expr_at file.now e) }
{
    match file.node(e) {
        Node::Constant { value, .. } => Shape::Number { value },
        Node::Variable { variable, .. } => Shape::Single { variable },
        _ => Shape::Other,
    }
}

// Where a test of `u` against `n` comes out as `way`, whether `v` may be `x`.
fn pins_value(way: bool, u: u32, n: u32, v: u32, x: u32) -> bool
    ensures { result ≡ pins way u n v x }
{
    u != v || (x == n) == way
}

// Where a test whether two expressions of these shapes are equal comes out as `way`, whether `v` may be `x`.
fn equates_value(way: bool, a: Shape, b: Shape, v: u32, x: u32) -> bool
    ensures { result ≡ equates way (shape_of a) (shape_of b) v x }
{
    match (a, b) {
        (Shape::Single { variable }, Shape::Number { value })
        | (Shape::Number { value }, Shape::Single { variable }) => {
            pins_value(way, variable, value, v, x)
        }
        _ => true,
    }
}

// Where condition `e` comes out as `way`, whether variable `v` may be `x`.
pub(crate) fn leaves_value(file: &DesignFile<'_>, e: u32, way: bool, v: u32, x: u32) -> bool
    ensures { result ≡ leaves (expr_at file.now e) way v x }
{
    match file.node(e) {
        Node::Variable { variable, .. } => pins_value(way, variable, 1, v, x),
        Node::Not { of, .. } => leaves_value(file, of, !way, v, x),
        Node::Pair {
            by,
            left,
            right,
            ..
        } => match by {
            Pairing::And | Pairing::Or => {
                // Where `and` is 1 or `or` is 0, both parts are so, and otherwise one of them.
                if (by == Pairing::And) == way {
                    leaves_value(file, left, way, v, x) && leaves_value(file, right, way, v, x)
                } else {
                    leaves_value(file, left, way, v, x) || leaves_value(file, right, way, v, x)
                }
            }
            Pairing::Equals => {
                equates_value(way, shape_of(file, left), shape_of(file, right), v, x)
            }
            _ => true,
        },
        _ => true,
    }
}

/// Whether command `n` assigns variable `v` on every path.
pub fn always_assigns(file: &DesignFile<'_>, n: u32, v: u32) -> bool
    ensures { result ≡ always (cmd_at file.now n) v }
{
    match file.action(n) {
        Action::Idle => false,
        Action::Both { first, second } => {
            always_assigns(file, first, v) || always_assigns(file, second, v)
        }
        Action::Choose { yes, no, .. } => {
            always_assigns(file, yes, v) && always_assigns(file, no, v)
        }
        Action::Assign { target, .. } => target == v,
    }
}
