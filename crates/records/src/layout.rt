//! Where the sections of a design file lie.
ghost use Rattle.std.specs.Prelude.{◌≡◌, ◌+◌, ◌≤◌};
ghost use Rattle.std.specs.List.{find};
ghost use Rattle.refusal.specs.Notice.{section_number};
ghost use Rattle.records.specs.Layouts.{section_at, all_sections, limit_of, size_of, start_of, offset_of, length_of, breaks, over, layout_of, count_of, extent_at, extents_at, extent_of};

use crate::bytes::field;
use refusal::{Refusal, Section};
use variables::MOST_VARIABLES;

/// How many sections a design file has.
pub const SECTION_COUNT: usize = 5;

/// The most tables of a design.
pub const MOST_TABLES: usize = 16;

/// The most blocks of a design.
pub const MOST_BLOCKS: usize = 32;

/// The most commands of a design.
pub const MOST_COMMANDS: usize = 512;

/// The most expressions of a design.
pub const MOST_EXPRESSIONS: usize = 1024;

// By section: the size of a record in bytes, and the most records.
const SECTIONS: [(u32, u32); SECTION_COUNT] = [
    (64, MOST_TABLES as u32),
    (12, MOST_VARIABLES as u32),
    (8, MOST_BLOCKS as u32),
    (16, MOST_COMMANDS as u32),
    (16, MOST_EXPRESSIONS as u32),
];

// The edition, and a pair of fields for each section.
const HEAD_LEN: usize = 4 + 8 * SECTION_COUNT;

const EDITION: u32 = 1;

/// Where a section begins, and how many records it has.
#[derive(Clone, Copy)]
pub struct Extent {
    pub offset: u32,
    pub count: u32,
}

/// Where the sections lie, in the file's order.
#[derive(Clone, Copy)]
pub struct Layout {
    pub extents: [Extent; SECTION_COUNT],
}

/// The section at a place in the file; the last one past the end.
pub fn section_at(i: usize) -> Section
    ensures { result ≡ section_at i }
{
    Section::ALL.get(i).copied().unwrap_or(Section::Expressions)
}

fn offset(file: &[u8], section: Section) -> u32
    ensures { result ≡ offset_of file.now (section_number section) }
{
    field(file, 8 * section as usize + 4)
}

fn len(file: &[u8], section: Section) -> u32
    ensures { result ≡ length_of file.now (section_number section) }
{
    field(file, 8 * section as usize + 8)
}

// Where a section ends.
fn end(file: &[u8], section: Section) -> u64
    ensures { result ≡ offset_of file.now (section_number section) + length_of file.now (section_number section) }
{
    u64::from(offset(file, section)) + u64::from(len(file, section))
}

// Where a section has to begin: the first behind the head, each other where the one before ends.
fn start(file: &[u8], section: Section) -> u64
    ensures { result ≡ start_of file.now (section_number section) }
{
    match section {
        Section::Tables => HEAD_LEN as u64,
        Section::Variables => end(file, Section::Tables),
        Section::Blocks => end(file, Section::Variables),
        Section::Commands => end(file, Section::Blocks),
        Section::Expressions => end(file, Section::Commands),
    }
}

// Whether the pair of a section breaks the layout.
fn pair_breaks(file: &[u8], section: Section) -> bool
    ensures { result ≡ breaks file.now (section_number section) }
{
    let end = end(file, section);
    let all = file.len() as u64;
    u64::from(offset(file, section)) != start(file, section)
        || len(file, section) % size_of(section) != 0
        || end > all
        || section == Section::Expressions && end != all
}

// How many records a section has.
fn count(file: &[u8], section: Section) -> u32
    ensures { result ≡ count_of file.now (section_number section) }
{
    len(file, section) / size_of(section)
}

// Whether a section has too many records.
fn section_over(file: &[u8], section: Section) -> bool
    ensures { result ≡ over file.now (section_number section) }
{
    limit_of(section) < count(file, section)
}

// Where a section begins, and how many records it has.
fn extent_at(file: &[u8], section: Section) -> Extent
    ensures { result ≡ extent_at file.now (section_number section) }
{
    Extent {
        offset: offset(file, section),
        count: count(file, section),
    }
}

// The extents of all sections.
// One by one: of `map` over an array a proof does not learn the items.
fn extents_at(file: &[u8]) -> [Extent; SECTION_COUNT]
    ensures { result ≡ extents_at file.now }
{
    [
        extent_at(file, Section::Tables),
        extent_at(file, Section::Variables),
        extent_at(file, Section::Blocks),
        extent_at(file, Section::Commands),
        extent_at(file, Section::Expressions),
    ]
}

// The first section whose pair breaks the layout.
fn first_broken(file: &[u8]) -> Option<Section>
    ensures { result ≡ find (λ s. breaks file.now (section_number s)) all_sections }
{
    Section::ALL
        .iter()
        .copied()
        .find(|section| pair_breaks(file, *section))
}

// The first section that has too many records.
fn first_over(file: &[u8]) -> Option<Section>
    ensures { result ≡ find (λ s. over file.now (section_number s)) all_sections }
{
    Section::ALL
        .iter()
        .copied()
        .find(|section| section_over(file, *section))
}

/// Finds the sections of a design file, or refuses it.
pub fn layout_of(file: &[u8]) -> Result<Layout, Refusal>
    ensures { result ≡ layout_of file.now }
{
    if file.len() < HEAD_LEN {
        return Err(Refusal::TooShort);
    }
    if field(file, 0) != EDITION {
        return Err(Refusal::UnknownEdition);
    }
    if let Some(section) = first_broken(file) {
        return Err(Refusal::BrokenLayout { section });
    }
    if let Some(section) = first_over(file) {
        return Err(Refusal::OverLimit { section });
    }
    Ok(Layout {
        extents: extents_at(file),
    })
}

/// The most records of a section.
pub fn limit_of(section: Section) -> u32
    ensures { result ≡ limit_of section }
{
    let (_, limit) = SECTIONS[section as usize];
    limit
}

// The size of a section's records in bytes.
pub(crate) fn size_of(section: Section) -> u32
    ensures is { result ≡ size_of section }
    ensures some { 1 ≤ result }
    ensures most { result ≤ 64 }
{
    let (size, _) = SECTIONS[section as usize];
    size
}

impl Layout {
    /// The extent of a section.
    pub fn extent(self, section: Section) -> Extent
        ensures { result ≡ extent_of self section }
    {
        self.extents[section as usize]
    }
}
