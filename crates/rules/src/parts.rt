//! Commands and expressions are used once, by higher records.
ghost use Rattle.std.specs.Prelude.{◌≡◌, ◌<◌};
ghost use Rattle.records.specs.Layouts.{count_in};
ghost use Rattle.rules.specs.Parts.{command_high, expr_high, misused};

use records::{Command, Expression, Operation, Step};
use refusal::Section;
use survey::Uses;

fn is_command_high(x: Command, n: u32) -> bool
    ensures { result ≡ command_high x n }
{
    match x.step {
        Some(Step::Both) => x.a >= n || x.b >= n,
        Some(Step::Choose) => x.b >= n || x.c >= n,
        Some(Step::Idle | Step::Assign) | None => false,
    }
}

fn is_expression_high(x: Expression, n: u32) -> bool
    ensures { result ≡ expr_high x n }
{
    match x.operation {
        Some(Operation::Constant | Operation::Variable) | None => false,
        Some(Operation::Not | Operation::ShiftLeft | Operation::ShiftRight | Operation::Part) => {
            x.a >= n
        }
        Some(Operation::Pair(_) | Operation::Above) => x.a >= n || x.b >= n,
        Some(Operation::Choose) => x.a >= n || x.b >= n || x.c >= n,
    }
}

pub(crate) fn is_misused(uses: &Uses<'_>, section: Section, n: u32) -> bool
    ensures { n < count_in uses.now.file.now section → result ≡ misused uses.now.file.now section n }
{
    match section {
        Section::Tables | Section::Variables | Section::Blocks => false,
        Section::Commands => !uses.once_command(n) || is_command_high(uses.file.command(n), n),
        Section::Expressions => {
            !uses.once_expression(n) || is_expression_high(uses.file.expression(n), n)
        }
    }
}
