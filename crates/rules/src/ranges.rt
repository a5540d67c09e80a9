//! Fields, constants and shifts are in range, and name records that exist.
ghost use Rattle.std.specs.Prelude.{◌≡◌, ◌||◌};
ghost use Rattle.refusal.specs.declared.Section.TheVariants.{Tables, Variables, Commands, Expressions};
ghost use Rattle.records.specs.Layouts.{count_in};
ghost use Rattle.rules.specs.Ranges.{bad_width, label_out, reset_out, variable_out, block_out, command_out, operand_out, expression_out, out_of_range};

use records::{Block, Command, DesignFile, Expression, Form, Kind, Operation, Step, Variable};
use refusal::Section;
use vectors::{Width, fits};

fn is_bad_width(width: u8) -> bool
    ensures { result ≡ bad_width width }
{
    Width::new(u32::from(width)).is_none()
}

fn is_label_out(file: &DesignFile<'_>, v: Variable) -> bool
    ensures { result ≡ label_out v.form v.table v.level (count_in file.now Tables) (count_in file.now Variables) }
{
    match v.form {
        Some(Form::Fixed) => v.table != 0,
        Some(Form::LookedUp) => {
            u32::from(v.table) >= file.count(Section::Tables)
                || v.level >= file.count(Section::Variables)
        }
        None => true,
    }
}

fn is_reset_out(v: Variable) -> bool
    ensures { result ≡ reset_out v.kind v.reset v.width }
{
    match v.kind {
        Some(Kind::Port | Kind::Wire) => v.reset != 0,
        Some(Kind::Register) => !fits(v.reset, u32::from(v.width)),
        None => true,
    }
}

fn is_variable_out(file: &DesignFile<'_>, v: Variable) -> bool
    ensures { result ≡ variable_out v (count_in file.now Tables) (count_in file.now Variables) }
{
    is_bad_width(v.width) || is_label_out(file, v) || is_reset_out(v)
}

fn is_block_out(file: &DesignFile<'_>, b: Block) -> bool
    ensures { result ≡ block_out b (count_in file.now Commands) }
{
    b.kind.is_none() || b.top >= file.count(Section::Commands)
}

fn is_command_out(file: &DesignFile<'_>, x: Command) -> bool
    ensures { result ≡ command_out x (count_in file.now Variables) (count_in file.now Commands) (count_in file.now Expressions) }
{
    let variables = file.count(Section::Variables);
    let commands = file.count(Section::Commands);
    let expressions = file.count(Section::Expressions);
    match x.step {
        Some(Step::Idle) => x.a != 0 || x.b != 0 || x.c != 0,
        Some(Step::Both) => x.a >= commands || x.b >= commands || x.c != 0,
        Some(Step::Choose) => x.a >= expressions || x.b >= commands || x.c >= commands,
        Some(Step::Assign) => x.a >= variables || x.b >= expressions || x.c != 0,
        None => true,
    }
}

fn is_operand_out(file: &DesignFile<'_>, x: Expression) -> bool
    ensures { result ≡ operand_out x.operation x.width x.a x.b x.c (count_in file.now Variables) (count_in file.now Expressions) }
{
    let variables = file.count(Section::Variables);
    let expressions = file.count(Section::Expressions);
    match x.operation {
        Some(Operation::Constant) => !fits(x.a, u32::from(x.width)) || x.b != 0 || x.c != 0,
        Some(Operation::Variable) => x.a >= variables || x.b != 0 || x.c != 0,
        Some(Operation::Not) => x.a >= expressions || x.b != 0 || x.c != 0,
        Some(Operation::Pair(_) | Operation::Above) => {
            x.a >= expressions || x.b >= expressions || x.c != 0
        }
        Some(Operation::ShiftLeft | Operation::ShiftRight) => {
            x.a >= expressions || x.b >= u32::from(x.width) || x.c != 0
        }
        Some(Operation::Part) => x.a >= expressions || x.c != 0,
        Some(Operation::Choose) => {
            x.a >= expressions || x.b >= expressions || x.c >= expressions
        }
        None => true,
    }
}

fn is_expression_out(file: &DesignFile<'_>, x: Expression) -> bool
    ensures { result ≡ expression_out x (count_in file.now Variables) (count_in file.now Expressions) }
{
    x.third != 0 || x.fourth != 0 || is_bad_width(x.width) || is_operand_out(file, x)
}

pub(crate) fn is_out_of_range(file: &DesignFile<'_>, section: Section, n: u32) -> bool
    ensures { result ≡ out_of_range file.now section n }
{
    match section {
        Section::Tables => false,
        Section::Variables => is_variable_out(file, file.variable(n)),
        Section::Blocks => is_block_out(file, file.block(n)),
        Section::Commands => is_command_out(file, file.command(n)),
        Section::Expressions => is_expression_out(file, file.expression(n)),
    }
}
