//! Marks on the records that read too early, and on those that write where they may not.
ghost use Rattle.std.specs.Prelude.{◌≡◌, ◌<◌, true, nat_eq};
ghost use Rattle.refusal.specs.declared.Section.TheVariants.{Blocks};
ghost use Rattle.variables.specs.Variables.{has};
ghost use Rattle.records.specs.Layouts.{count_in};
ghost use Rattle.records.specs.Trees.{expr_at, cmd_at, is_settled};
ghost use Rattle.survey.specs.Sums.{any};
ghost use Rattle.survey.specs.Walks.{reads, reads_in, writes};
ghost use Rattle.survey.specs.Sets.{is_wire, is_register, unready, wrong_target, reads_early, writes_wrong, Assigns, Marked, Marks};

use crate::reach::Assigned;
use records::{Action, BlockKind, DesignFile, Kind, MOST_COMMANDS, MOST_EXPRESSIONS, Node};
use refusal::Section;
use variables::VariableSet;

/// Whether variable `v` is a wire.
pub fn is_wire(file: &DesignFile<'_>, v: u32) -> bool
    ensures is { result ≡ is_wire file.now v }
    ensures low { result ≡ true → v < 128 }
{
    v < file.count(Section::Variables)
        && !matches!(file.variable(v).kind, Some(Kind::Port | Kind::Register))
}

/// Whether variable `v` is a register.
pub fn is_register(file: &DesignFile<'_>, v: u32) -> bool
    ensures { result ≡ is_register file.now v }
{
    v < file.count(Section::Variables) && file.variable(v).kind == Some(Kind::Register)
}

/// Whether a block of this kind is settled.
// Of a kind alone, as this crate promises it; a whole block has `Block::is_settled`.
pub fn is_settled(kind: Option<BlockKind>) -> bool
    ensures { result ≡ is_settled kind }
{
    kind == Some(BlockKind::Settled)
}

// Whether `v` is a wire that is not among those known.
fn is_unready(file: &DesignFile<'_>, known: &VariableSet, v: u32) -> bool
    ensures { result ≡ unready file.now (has known.now) v }
{
    is_wire(file, v) && !known.contains(v)
}

// Whether a settled block, or another, may not assign `v`.
fn is_wrong_target(file: &DesignFile<'_>, settled: bool, v: u32) -> bool
    ensures { result ≡ wrong_target file.now settled v }
{
    if settled {
        !is_wire(file, v)
    } else {
        !is_register(file, v)
    }
}

// Marks record `k`.
fn mark(marks: &mut [bool], k: u32)
    ensures { Marks marks.old marks.new (nat_eq k) }
{
    // Written by index, since a proof knows no mark after `get_mut`.
    let i = k as usize;
    if i < marks.len() {
        marks[i] = true;
    }
}

// Marks the readings of unready wires in expression `e`.
fn mark_reads(marks: &mut [bool], file: &DesignFile<'_>, e: u32, known: &VariableSet)
    ensures { Marks marks.old marks.new (reads (unready file.now (has known.now)) (expr_at file.now e)) }
{
    match file.node(e) {
        Node::Constant { .. } => {}
        Node::Variable {
            variable,
            place,
            ..
        } => {
            if is_unready(file, known, variable) {
                mark(marks, place);
            }
        }
        Node::Not { of, .. }
        | Node::ShiftLeft { of, .. }
        | Node::ShiftRight { of, .. }
        | Node::Part { of, .. } => mark_reads(marks, file, of, known),
        Node::Pair {
            left: one,
            right: two,
            ..
        }
        | Node::Above {
            high: one,
            low: two,
            ..
        } => {
            mark_reads(marks, file, one, known);
            mark_reads(marks, file, two, known);
        }
        Node::Choose {
            condition,
            yes,
            no,
            ..
        } => {
            mark_reads(marks, file, condition, known);
            mark_reads(marks, file, yes, known);
            mark_reads(marks, file, no, known);
        }
    }
}

// Marks the readings of unready wires in command `n`.
fn mark_early(marks: &mut [bool], file: &DesignFile<'_>, n: u32, known: &VariableSet)
    ensures { Marks marks.old marks.new (reads_in (unready file.now (has known.now)) (cmd_at file.now n)) }
{
    match file.action(n) {
        Action::Idle => {}
        Action::Both { first, second } => {
            mark_early(marks, file, first, known);
            mark_early(marks, file, second, known);
        }
        Action::Choose { condition, yes, no } => {
            mark_reads(marks, file, condition, known);
            mark_early(marks, file, yes, known);
            mark_early(marks, file, no, known);
        }
        Action::Assign { value, .. } => mark_reads(marks, file, value, known),
    }
}

// Marks the assignments in command `n` of what a settled block, or another, may not assign.
// A walk that `mark_early` shared would take a closure for each of the two arms that differ.
fn mark_wrong(marks: &mut [bool], file: &DesignFile<'_>, n: u32, settled: bool)
    ensures { Marks marks.old marks.new (writes (wrong_target file.now settled) (cmd_at file.now n)) }
{
    match file.action(n) {
        Action::Idle => {}
        Action::Both { first, second } => {
            mark_wrong(marks, file, first, settled);
            mark_wrong(marks, file, second, settled);
        }
        Action::Choose { yes, no, .. } => {
            mark_wrong(marks, file, yes, settled);
            mark_wrong(marks, file, no, settled);
        }
        Action::Assign { target, place, .. } => {
            if is_wrong_target(file, settled, target) {
                mark(marks, place);
            }
        }
    }
}

/// The expressions that read a wire too early.
pub(crate) fn early_in(file: &DesignFile<'_>, assigned: &Assigned) -> [bool; MOST_EXPRESSIONS]
    requires { Assigns file.now (count_in file.now Blocks) assigned.now.all assigned.now.each }
    ensures { Marked result (λ e. any (reads_early file.now e) (count_in file.now Blocks)) }
{
    let mut marks = [false; MOST_EXPRESSIONS];
    for b in 0..file.count(Section::Blocks) {
        let known = &assigned.each[b as usize].before;
        mark_early(&mut marks, file, file.block(b).top, known);
    }
    marks
}

/// The commands that assign what their block may not assign.
pub(crate) fn wrong_in(file: &DesignFile<'_>) -> [bool; MOST_COMMANDS]
    ensures { Marked result (λ n. any (writes_wrong file.now n) (count_in file.now Blocks)) }
{
    let mut marks = [false; MOST_COMMANDS];
    for b in 0..file.count(Section::Blocks) {
        let block = file.block(b);
        mark_wrong(&mut marks, file, block.top, is_settled(block.kind));
    }
    marks
}
