//! Widths fit.
ghost use Rattle.std.specs.Prelude.{◌≡◌, ◌+◌};
ghost use Rattle.language.specs.Form.{of_op};
ghost use Rattle.vectors.specs.Operations.{op_of};
ghost use Rattle.rules.specs.Widths.{wide, var_wide, command_misfit, expr_misfit, misfits};

use records::{Command, DesignFile, Expression, Operation, Step};
use refusal::Section;
use vectors::Pairing;

// The width of two parts joined.
fn paired_width(by: Pairing, width: u8) -> u8
    ensures { result ≡ of_op (op_of by) width }
{
    match by {
        Pairing::Equals | Pairing::Less => 1,
        Pairing::And | Pairing::Or | Pairing::Xor | Pairing::Sum | Pairing::Difference => width,
    }
}

fn is_command_misfit(file: &DesignFile<'_>, x: Command) -> bool
    ensures { result ≡ command_misfit file.now x }
{
    match x.step {
        Some(Step::Choose) => file.expression(x.a).width != 1,
        Some(Step::Assign) => file.expression(x.b).width != file.variable(x.a).width,
        Some(Step::Idle | Step::Both) | None => false,
    }
}

fn is_expression_misfit(file: &DesignFile<'_>, x: Expression) -> bool
    ensures { result ≡ expr_misfit file.now x }
{
    let a = file.expression(x.a).width;
    let b = file.expression(x.b).width;
    match x.operation {
        Some(Operation::Constant) | None => false,
        Some(Operation::Variable) => x.width != file.variable(x.a).width,
        Some(Operation::Not | Operation::ShiftLeft | Operation::ShiftRight) => a != x.width,
        Some(Operation::Pair(by)) => a != b || x.width != paired_width(by, a),
        Some(Operation::Part) => u64::from(a) < u64::from(x.b) + u64::from(x.width),
        Some(Operation::Above) => u32::from(x.width) != u32::from(a) + u32::from(b),
        Some(Operation::Choose) => {
            a != 1 || b != x.width || file.expression(x.c).width != x.width
        }
    }
}

pub(crate) fn is_misfit(file: &DesignFile<'_>, section: Section, n: u32) -> bool
    ensures { result ≡ misfits file.now section n }
{
    match section {
        Section::Tables | Section::Variables | Section::Blocks => false,
        Section::Commands => is_command_misfit(file, file.command(n)),
        Section::Expressions => is_expression_misfit(file, file.expression(n)),
    }
}
