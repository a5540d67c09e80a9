//! The values of expressions.
ghost use Rattle.std.specs.Prelude.{◌≡◌, ℕ, MatchOption};
ghost use Rattle.language.specs.Syntax.{Expr, width};
ghost use Rattle.language.specs.Vectors.{joined_above};
ghost use Rattle.language.specs.Machine.{eval};
ghost use Rattle.variables.specs.Variables.{value_of};
ghost use Rattle.records.specs.Nodes.{LowerOperands};
ghost use Rattle.records.specs.Trees.{grow_expr, expr_at};
ghost use Rattle.machine.specs.Widths.{Wide, Sized};

use crate::state::State;
use records::{DesignFile, Node};
use vectors::{Width, complement, join_above, operate, part_from, shift_left, shift_right, sum};

fn wide(bits: u8) -> Width
    requires { Wide bits }
    ensures { result.bits ≡ bits }
{
    Width::new(u32::from(bits)).unwrap()
}

// How many bits the expression has that `node` makes, whatever its parts are.
fn bits_of(node: Node) -> u8
    ensures { (at : ℕ → Expr) → result ≡ width (grow_expr node at) }
{
    match node {
        Node::Constant { width, .. }
        | Node::Variable { width, .. }
        | Node::Not { width, .. }
        | Node::Pair { width, .. }
        | Node::ShiftLeft { width, .. }
        | Node::ShiftRight { width, .. }
        | Node::Part { width, .. }
        | Node::Above { width, .. }
        | Node::Choose { width, .. } => width,
    }
}

// What expression `e` is, told with what `eval` builds on: a width of 1 to 32 unless it is a constant.
fn sized_at(file: &DesignFile<'_>, e: u32) -> Node
    ensures lower { LowerOperands result e }
    ensures tree { expr_at file.now e ≡ grow_expr result (expr_at file.now) }
    ensures sized { Sized (grow_expr result (expr_at file.now)) }
{
    file.node(e)
}

// The width of expression `e`, if it has any bits.
fn width_at(file: &DesignFile<'_>, e: u32) -> Option<Width>
    ensures { MatchOption result (width (expr_at file.now e) ≡ 0) (λ w. width (expr_at file.now e) ≡ w.bits) }
{
    Width::new(u32::from(bits_of(file.node(e))))
}

// `x` above `y`, which has no bits or is as wide as `low` says.
fn join(width: Width, low: Option<Width>, x: u32, y: u32) -> u32
    ensures { MatchOption low (result ≡ joined_above width.bits 0 x y) (λ w. result ≡ joined_above width.bits w.bits x y) }
{
    match low {
        Some(low) => join_above(width, low, x, y),
        None => sum(width, x, y),
    }
}

impl State<'_> {
    /// The value of expression `e` where variables have the values held.
    pub fn eval(&self, e: u32) -> u32
        ensures { result ≡ eval (value_of self.now.held.now) (expr_at self.now.file.now e) }
    {
        match sized_at(self.file, e) {
            Node::Constant { value, .. } => value,
            Node::Variable { variable, .. } => self.held.at(variable),
            Node::Not { width, of } => complement(wide(width), self.eval(of)),
            Node::Pair {
                width,
                by,
                left,
                right,
            } => {
                let x = self.eval(left);
                let y = self.eval(right);
                operate(wide(width), by, x, y)
            }
            Node::ShiftLeft { width, of, by } => shift_left(wide(width), self.eval(of), by),
            Node::ShiftRight { of, by, .. } => shift_right(self.eval(of), by),
            Node::Part { width, of, from } => part_from(wide(width), from, self.eval(of)),
            Node::Above { width, high, low } => {
                let x = self.eval(high);
                let y = self.eval(low);
                join(wide(width), width_at(self.file, low), x, y)
            }
            Node::Choose {
                condition,
                yes,
                no,
                ..
            } => {
                if self.eval(condition) == 1 {
                    self.eval(yes)
                } else {
                    self.eval(no)
                }
            }
        }
    }
}
