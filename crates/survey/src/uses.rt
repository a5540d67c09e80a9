//! How often each command and each expression is used, counted in a pass over the blocks, two over the commands and one
//! over the expressions.
ghost use Rattle.std.specs.Prelude.{◌≡◌, ℕ, ◌+◌, ◌<◌, min, List, ◌==◌, slice_index_or};
ghost use Rattle.std.specs.Borrow.{MutBor};
ghost use Rattle.refusal.specs.declared.Section.TheVariants.{Blocks, Commands, Expressions};
ghost use Rattle.records.specs.Layouts.{File, count_in};
ghost use Rattle.survey.specs.Sums.{total};
ghost use Rattle.survey.specs.declared.uses.Tally.{Tally};
ghost use Rattle.survey.specs.declared.uses.Tally.TheVariants.{Never};
ghost use Rattle.survey.specs.Uses.{count_of, use_of, parts_of, values_of, operands_of, top_use, part_use, value_use, operand_use, command_used, expr_used, Adds, Counts};

use records::{Command, DesignFile, Expression, MOST_COMMANDS, MOST_EXPRESSIONS, Operation, Step};
use refusal::Section;

/// How often a record is used.
#[derive(Clone, Copy, PartialEq, Eq)]
pub(crate) enum Tally {
    Never,
    Once,
    Often,
}

impl Tally {
    fn more(self) -> Tally
        ensures { count_of result ≡ min (count_of self + 1) 2 }
    {
        match self {
            Tally::Never => Tally::Once,
            Tally::Once | Tally::Often => Tally::Often,
        }
    }
}

/// How often each record of a file is used, which may outlive the file.
#[derive(Drop)]
pub struct UseCounts {
    commands: [Tally; MOST_COMMANDS],
    expressions: [Tally; MOST_EXPRESSIONS],
}

/// How often each record of a file is used.
#[derive(Drop)]
pub struct Uses<'a> {
    /// The file whose uses are counted.
    pub file: &'a DesignFile<'a>,
    counts: UseCounts,
    ghost counted: { Counts file.now counts },
}

// One more use of record `n`.
fn add_use(uses: &mut [Tally], n: u32)
    ensures { Adds uses.old uses.new (use_of n) }
{
    // Written by index, since a proof knows no tally after `get_mut`.
    let i = n as usize;
    if i < uses.len() {
        uses[i] = uses[i].more();
    }
}

// The parts of a command.
fn add_parts(uses: &mut [Tally], x: Command)
    ensures { Adds uses.old uses.new (parts_of x) }
{
    match x.step {
        Some(Step::Both) => {
            add_use(uses, x.a);
            add_use(uses, x.b);
        }
        Some(Step::Choose) => {
            add_use(uses, x.b);
            add_use(uses, x.c);
        }
        _ => {}
    }
}

// The expressions that a command uses.
fn add_values(uses: &mut [Tally], x: Command)
    ensures { Adds uses.old uses.new (values_of x) }
{
    match x.step {
        Some(Step::Choose) => add_use(uses, x.a),
        Some(Step::Assign) => add_use(uses, x.b),
        _ => {}
    }
}

// The parts of an expression.
fn add_operands(uses: &mut [Tally], x: Expression)
    ensures { Adds uses.old uses.new (operands_of x) }
{
    match x.operation {
        Some(Operation::Not | Operation::ShiftLeft | Operation::ShiftRight | Operation::Part) => {
            add_use(uses, x.a);
        }
        Some(Operation::Pair(_) | Operation::Above) => {
            add_use(uses, x.a);
            add_use(uses, x.b);
        }
        Some(Operation::Choose) => {
            add_use(uses, x.a);
            add_use(uses, x.b);
            add_use(uses, x.c);
        }
        _ => {}
    }
}

// Whether record `n` was counted once.
fn is_once(uses: &[Tally], n: u32) -> bool
    ensures { result ≡ (count_of (slice_index_or uses.now n Never) == 1) }
{
    uses.get(n as usize) == Some(&Tally::Once)
}

// What the records of a section use, where `add` adds what one of them does.
fn add_each<F: Fn(&mut [Tally], u32)>(
    uses: &mut [Tally],
    file: &DesignFile<'_>,
    section: Section,
    add: F,
)
    requires { F.IsAlwaysCallable add }
    ensures { (by : ℕ → ℕ → ℕ) → ((k : ℕ) (p q : MutBor (List Tally)) → F.post add p k tt q → Adds p.now q.now (λ n. by n k)) → Adds uses.old uses.new (λ n. total (by n) (count_in file.now section)) }
{
    for k in 0..file.count(section) {
        add(uses, k);
    }
}

/// Counts all uses.
pub fn uses_of(file: &DesignFile<'_>) -> UseCounts
    ensures { Counts file.now result }
{
    let mut commands = [Tally::Never; MOST_COMMANDS];
    add_each(&mut commands, file, Section::Blocks, |uses, b| {
        add_use(uses, file.block(b).top);
    });
    add_each(&mut commands, file, Section::Commands, |uses, n| {
        add_parts(uses, file.command(n));
    });
    let mut expressions = [Tally::Never; MOST_EXPRESSIONS];
    add_each(&mut expressions, file, Section::Commands, |uses, n| {
        add_values(uses, file.command(n));
    });
    add_each(&mut expressions, file, Section::Expressions, |uses, e| {
        add_operands(uses, file.expression(e));
    });
    UseCounts {
        commands,
        expressions,
    }
}

impl UseCounts {
    /// Whether command `n` is used once.
    pub fn once_command(&self, n: u32) -> bool
        ensures { (f : File) → Counts f self.now → n < count_in f Commands → result ≡ (command_used f n == 1) }
    {
        is_once(&self.commands, n)
    }

    /// Whether expression `n` is used once.
    pub fn once_expression(&self, n: u32) -> bool
        ensures { (f : File) → Counts f self.now → n < count_in f Expressions → result ≡ (expr_used f n == 1) }
    {
        is_once(&self.expressions, n)
    }
}

impl<'a> Uses<'a> {
    /// Counts all uses.
    pub fn of(file: &'a DesignFile<'a>) -> Uses<'a>
        ensures { result.file.now ≡ file.now }
    {
        Uses {
            file,
            counts: uses_of(file),
        }
    }

    /// Whether command `n` is used once.
    pub fn once_command(&self, n: u32) -> bool
        ensures { let f = self.now.file.now in n < count_in f Commands → result ≡ (command_used f n == 1) }
    {
        self.counts.once_command(n)
    }

    /// Whether expression `n` is used once.
    pub fn once_expression(&self, n: u32) -> bool
        ensures { let f = self.now.file.now in n < count_in f Expressions → result ≡ (expr_used f n == 1) }
    {
        self.counts.once_expression(n)
    }
}
