//! A design file whose sections are found.
ghost use Rattle.std.specs.Prelude.{◌≡◌, ◌≤◌, Ok, Err, MatchOption, MatchResult, is_some, length};
ghost use Rattle.language.specs.Syntax.{count, var, entry};
ghost use Rattle.language.specs.Machine.{inside, level};
ghost use Rattle.variables.specs.Variables.{value_of};
ghost use Rattle.refusal.specs.declared.Section.TheVariants.{Variables};
ghost use Rattle.records.specs.Layouts.{File, layout_of, limit_of, count_in, record_of};
ghost use Rattle.records.specs.Cells.{variable_at, block_at, command_at, expression_at};
ghost use Rattle.records.specs.Nodes.{LowerParts, LowerOperands};
ghost use Rattle.records.specs.Trees.{grow_expr, grow_cmd, expr_at, cmd_at, design_of};
ghost use Rattle.records.specs.Labels.{label_of, variable_shown};

use crate::bytes::{field, part_from};
use crate::cells::{
    Block, Command, Expression, Variable, read_block, read_command, read_expression, read_variable,
};
use crate::labels::Label;
use crate::layout::{Layout, layout_of, limit_of, size_of};
use crate::nodes::{Action, NOTHING, Node, action_of, node_of};
use refusal::{Refusal, Section};
use std::marker::Model;
use variables::Values;

/// How many entries a table has.
pub const ENTRIES: usize = 16;

/// A design file: its bytes, and where its sections lie.
#[derive(Drop)]
pub struct DesignFile<'a> {
    bytes: &'a [u8],
    layout: Layout,
}

impl<'a> Model for DesignFile<'a> {
    ghost Value = { File };

    ghost view = { λ d. record { bytes = d.bytes.now; layout = d.layout } };
}

impl<'a> DesignFile<'a> {
    /// A file under a layout, be it that of its bytes or not.
    pub fn new(bytes: &'a [u8], layout: Layout) -> DesignFile<'a>
        ensures { result ≡ record { bytes = bytes.now; layout = layout } }
    {
        DesignFile { bytes, layout }
    }

    /// Finds the sections of a design file, or refuses it.
    pub fn open(bytes: &'a [u8]) -> Result<DesignFile<'a>, Refusal>
        ensures { MatchResult result (λ d. (d.bytes ≡ bytes.now) × (layout_of bytes.now ≡ Ok d.layout)) (λ e. layout_of bytes.now ≡ Err e) }
    {
        let layout = layout_of(bytes)?;
        Ok(DesignFile::new(bytes, layout))
    }

    pub fn bytes(&self) -> &'a [u8]
        ensures { result.now ≡ self.now.bytes }
    {
        self.bytes
    }

    pub fn layout(&self) -> Layout
        ensures { result ≡ self.now.layout }
    {
        self.layout
    }

    /// How many records a section has, its limit at most.
    pub fn count(&self, section: Section) -> u32
        ensures is { result ≡ count_in self.now section }
        ensures most { result ≤ limit_of section }
    {
        self.layout.extent(section).count.min(limit_of(section))
    }

    /// Record `n` of a section, with all that follows it.
    pub fn record(&self, section: Section, n: u32) -> &'a [u8]
        ensures { result.now ≡ record_of self.now section n }
    {
        let part = part_from(self.bytes, self.layout.extent(section).offset as usize);
        part_from(part, size_of(section) as usize * n as usize)
    }

    /// Variable record `n`.
    pub fn variable(&self, n: u32) -> Variable
        ensures { result ≡ variable_at self.now n }
    {
        read_variable(self.record(Section::Variables, n))
    }

    /// Block record `n`.
    pub fn block(&self, n: u32) -> Block
        ensures { result ≡ block_at self.now n }
    {
        read_block(self.record(Section::Blocks, n))
    }

    /// Command record `n`.
    pub fn command(&self, n: u32) -> Command
        ensures { result ≡ command_at self.now n }
    {
        read_command(self.record(Section::Commands, n))
    }

    /// Expression record `n`.
    pub fn expression(&self, n: u32) -> Expression
        ensures { result ≡ expression_at self.now n }
    {
        read_expression(self.record(Section::Expressions, n))
    }

    /// What command `n` does; one out of range does nothing.
    pub fn action(&self, n: u32) -> Action
        ensures lower { LowerParts result n }
        ensures tree { cmd_at self.now n ≡ grow_cmd (expr_at self.now) result (cmd_at self.now) }
    {
        if n >= limit_of(Section::Commands) {
            return Action::Idle;
        }
        action_of(self.command(n), n)
    }

    /// What expression `n` is.
    pub fn node(&self, n: u32) -> Node
        ensures lower { LowerOperands result n }
        ensures tree { expr_at self.now n ≡ grow_expr result (expr_at self.now) }
    {
        if n >= limit_of(Section::Expressions) {
            return NOTHING;
        }
        node_of(self.expression(n), n)
    }

    /// Variable `v`, if the design has it.
    pub fn get_variable(&self, v: u32) -> Option<Variable>
        ensures is { var (design_of self.now) v ≡ variable_shown result }
        ensures inside { is_some result ≡ inside (design_of self.now) v }
        ensures found { MatchOption result (count_in self.now Variables ≤ v) (λ x. x ≡ variable_at self.now v) }
    {
        if v < self.count(Section::Variables) {
            Some(self.variable(v))
        } else {
            None
        }
    }

    /// How many variables the design has.
    pub fn variable_count(&self) -> u32
        ensures is { result ≡ count (design_of self.now) }
        ensures most { result ≤ 128 }
    {
        self.count(Section::Variables)
    }

    /// How many tables the design has.
    pub fn table_count(&self) -> u32
        ensures { result ≡ length (design_of self.now).tables }
    {
        self.count(Section::Tables)
    }

    /// The label of variable `v`; of no variable, level 0.
    pub fn label(&self, v: u32) -> Label
        ensures { label_of result ≡ (var (design_of self.now) v).label }
    {
        self.get_variable(v)
            .map_or(Label::Fixed { level: 0 }, |variable| variable.label())
    }

    /// The width of variable `v`; of no variable, 0.
    pub fn width(&self, v: u32) -> u32
        ensures { result ≡ (var (design_of self.now) v).width }
    {
        self.get_variable(v)
            .map_or(0, |variable| u32::from(variable.width))
    }

    /// Entry `i` of table `t`; 0 where there is none.
    pub fn entry(&self, t: u32, i: u32) -> u32
        ensures { result ≡ entry (design_of self.now) t i }
    {
        if t >= self.count(Section::Tables) {
            return 0;
        }
        if i as usize >= ENTRIES {
            return 0;
        }
        field(self.record(Section::Tables, t), 4 * i as usize)
    }

    /// The level of variable `v` where variables have these values.
    pub fn level(&self, values: &Values, v: u32) -> u32
        ensures { result ≡ level (design_of self.now) (value_of values.now) v }
    {
        match self.label(v) {
            Label::Fixed { level } => level,
            Label::LookedUp { table, selector } => self.entry(table, values.at(selector)),
        }
    }
}
