//! What is found of the blocks.
ghost use Rattle.std.specs.Prelude.{◌≡◌, ◌<◌, false, slice_index_or};
ghost use Rattle.refusal.specs.declared.Section.TheVariants.{Variables, Blocks, Commands, Expressions};
ghost use Rattle.language.specs.Form.{always};
ghost use Rattle.records.specs.Layouts.{File, count_in};
ghost use Rattle.survey.specs.Sums.{any};
ghost use Rattle.survey.specs.Walks.{twice, blocks_to};
ghost use Rattle.survey.specs.Sets.{reads_early, writes_wrong, follows_in, Surveyed};

use crate::marks::{early_in, wrong_in};
use crate::reach::{Assigned, assigned_after, assigned_by};
use records::{DesignFile, MOST_COMMANDS, MOST_EXPRESSIONS};
use refusal::Section;

/// What is found of a file's blocks, which may outlive the file.
#[derive(Drop)]
pub struct Findings {
    assigned: Assigned,
    early: [bool; MOST_EXPRESSIONS],
    wrong: [bool; MOST_COMMANDS],
}

/// What the blocks of a file assign, and which records read too early or write where they may not.
#[derive(Drop)]
pub struct Survey<'a> {
    /// The file whose blocks are walked.
    pub file: &'a DesignFile<'a>,
    findings: Findings,
    ghost surveyed: { Surveyed file.now findings },
}

/// Walks all blocks.
pub fn survey_of(file: &DesignFile<'_>) -> Findings
    ensures { Surveyed file.now result }
{
    let assigned = assigned_by(file);
    let early = early_in(file, &assigned);
    let wrong = wrong_in(file);
    Findings {
        assigned,
        early,
        wrong,
    }
}

fn is_marked(marks: &[bool], k: u32) -> bool
    ensures { result ≡ slice_index_or marks.now k false }
{
    marks.get(k as usize).copied().unwrap_or(false)
}

impl Findings {
    /// Whether some block reads a wire too early by expression `e`.
    pub fn reads_early(&self, e: u32) -> bool
        ensures { (f : File) → Surveyed f self.now → e < count_in f Expressions → result ≡ any (reads_early f e) (count_in f Blocks) }
    {
        is_marked(&self.early, e)
    }

    /// Whether some block assigns what it may not by command `n`.
    pub fn writes_wrong(&self, n: u32) -> bool
        ensures { (f : File) → Surveyed f self.now → n < count_in f Commands → result ≡ any (writes_wrong f n) (count_in f Blocks) }
    {
        is_marked(&self.wrong, n)
    }

    /// Whether the blocks have two assignments of `v` that do not stand in opposite branches.
    pub fn assigns_twice(&self, v: u32) -> bool
        ensures { (f : File) → Surveyed f self.now → v < count_in f Variables → result ≡ twice (blocks_to f (count_in f Blocks)) v }
    {
        self.assigned.all.twice.contains(v)
    }

    /// Whether the blocks assign `v` on every path.
    pub fn assigns_always(&self, v: u32) -> bool
        ensures { (f : File) → Surveyed f self.now → v < count_in f Variables → result ≡ always (blocks_to f (count_in f Blocks)) v }
    {
        self.assigned.all.always.contains(v)
    }

    /// Whether a block that assigns `v` comes after one that assigns `s`, in a file of `blocks` blocks.
    pub fn comes_after(&self, blocks: u32, v: u32, s: u32) -> bool
        ensures { (f : File) → Surveyed f self.now → v < count_in f Variables → s < count_in f Variables → blocks ≡ count_in f Blocks → result ≡ any (follows_in f v s) (count_in f Blocks) }
    {
        let blocks = blocks as usize;
        if blocks > self.assigned.each.len() {
            return false;
        }
        assigned_after(&self.assigned.each[..blocks], v, s)
    }
}

impl<'a> Survey<'a> {
    /// Walks all blocks.
    pub fn of(file: &'a DesignFile<'a>) -> Survey<'a>
        ensures { result.file.now ≡ file.now }
    {
        Survey {
            file,
            findings: survey_of(file),
        }
    }

    /// Whether some block reads a wire too early by expression `e`.
    pub fn reads_early(&self, e: u32) -> bool
        ensures { let f = self.now.file.now in e < count_in f Expressions → result ≡ any (reads_early f e) (count_in f Blocks) }
    {
        self.findings.reads_early(e)
    }

    /// Whether some block assigns what it may not by command `n`.
    pub fn writes_wrong(&self, n: u32) -> bool
        ensures { let f = self.now.file.now in n < count_in f Commands → result ≡ any (writes_wrong f n) (count_in f Blocks) }
    {
        self.findings.writes_wrong(n)
    }

    /// Whether the blocks have two assignments of `v` that do not stand in opposite branches.
    pub fn assigns_twice(&self, v: u32) -> bool
        ensures { let f = self.now.file.now in v < count_in f Variables → result ≡ twice (blocks_to f (count_in f Blocks)) v }
    {
        self.findings.assigns_twice(v)
    }

    /// Whether the blocks assign `v` on every path.
    pub fn assigns_always(&self, v: u32) -> bool
        ensures { let f = self.now.file.now in v < count_in f Variables → result ≡ always (blocks_to f (count_in f Blocks)) v }
    {
        self.findings.assigns_always(v)
    }

    /// Whether a block that assigns `v` comes after one that assigns `s`.
    pub fn comes_after(&self, v: u32, s: u32) -> bool
        ensures { let f = self.now.file.now in v < count_in f Variables → s < count_in f Variables → result ≡ any (follows_in f v s) (count_in f Blocks) }
    {
        let blocks = self.file.count(Section::Blocks);
        self.findings.comes_after(blocks, v, s)
    }
}
