//! A relation between the numbers below a count, lawful or not, and the tests of the laws.
ghost use Rattle.std.specs.Prelude.{◌≡◌, ℕ, ◌*◌, ◌<◌, ◌≤◌, true, Decides, MatchOption, MatchResult, length, slice_index};
ghost use Rattle.lattice.specs.Kinds.{table, reversed};
ghost use Rattle.lattice.specs.Meaning.{Meaning, Below, Reflexive, Antisymmetric, Transitive, LeastAbove, HasJoins};
ghost use Rattle.refusal.specs.declared.Refusal.TheVariants.{NotALattice};
ghost use Rattle.clearance.specs.Tables.{Bits, Levels, ListsJoins, table_levels, reversed_levels};

use lattice::are_levels;
use refusal::Refusal;

/// The most levels of a table.
pub(crate) const MOST_ROWS: u32 = 16;

/// The most bytes of a table.
pub(crate) const MOST_CELLS: usize = 256;

pub(crate) trait Relation {
    ghost relation: { Self → Meaning };

    // It relates no number outside.
    ghost levels: { (s : Self) → Levels (relation s) };

    fn size(&self) -> u32
        ensures { result ≡ (relation self.now).count };

    fn holds(&self, a: u32, b: u32) -> bool
        ensures { result ≡ (relation self.now).below a b };
}

/// A square of bytes: row `a`, column `b` holds 1 where `a` is related to `b`.
#[derive(Clone, Copy)]
pub(crate) struct Grid<'a> {
    pub n: u32,
    pub bytes: &'a [u8],
    ghost most: { n ≤ 16 },
}

impl Grid<'_> {
    // Whether there are n × n bytes.
    pub(crate) fn is_square(&self) -> bool
        ensures { Decides result (length self.now.bytes.now ≡ self.now.n * self.now.n) }
    {
        self.bytes.len() == (self.n * self.n) as usize
    }
}

impl Relation for Grid<'_> {
    ghost relation = { λ s. table s.n s.bytes.now };

    ghost levels = { λ s. table_levels s.n s.bytes.now };

    fn size(&self) -> u32 {
        self.n
    }

    fn holds(&self, a: u32, b: u32) -> bool {
        if !are_levels(self.n, a, b) {
            return false;
        }
        let cell = (a * self.n + b) as usize;
        self.bytes.get(cell).copied().unwrap_or(0) == 1
    }
}

/// A relation turned round.
#[derive(Clone, Copy)]
pub(crate) struct Turned<R> {
    pub of: R,
}

impl<R: Relation> Relation for Turned<R> {
    ghost relation = { λ s. reversed (R.Relation.relation s.of) };

    ghost levels = { λ s. reversed_levels (R.Relation.levels s.of) };

    fn size(&self) -> u32 {
        self.of.size()
    }

    fn holds(&self, a: u32, b: u32) -> bool {
        self.of.holds(b, a)
    }
}

pub(crate) fn is_reflexive<R: Relation>(r: &R) -> bool
    ensures { Decides result (Reflexive (R.relation r.now)) }
{
    (0..r.size()).all(|a| r.holds(a, a))
}

// Whether `a` is related both ways to no other number.
fn is_alone<R: Relation>(r: &R, a: u32) -> bool
    ensures { Decides result ((b : ℕ) → Below (R.relation r.now) a b → Below (R.relation r.now) b a → a ≡ b) }
{
    (0..r.size()).all(|b| a == b || !r.holds(a, b) || !r.holds(b, a))
}

pub(crate) fn is_antisymmetric<R: Relation>(r: &R) -> bool
    ensures { Decides result (Antisymmetric (R.relation r.now)) }
{
    (0..r.size()).all(|a| is_alone(r, a))
}

// Whether `a` is related to all that `b` is related to.
fn reaches<R: Relation>(r: &R, a: u32, b: u32) -> bool
    ensures { Decides result ((c : ℕ) → Below (R.relation r.now) b c → Below (R.relation r.now) a c) }
{
    (0..r.size()).all(|c| !r.holds(b, c) || r.holds(a, c))
}

// Whether `a` is related to all that is two steps away.
fn is_closed<R: Relation>(r: &R, a: u32) -> bool
    ensures { Decides result ((b c : ℕ) → Below (R.relation r.now) a b → Below (R.relation r.now) b c → Below (R.relation r.now) a c) }
{
    (0..r.size()).all(|b| !r.holds(a, b) || reaches(r, a, b))
}

pub(crate) fn is_transitive<R: Relation>(r: &R) -> bool
    ensures { Decides result (Transitive (R.relation r.now)) }
{
    (0..r.size()).all(|a| is_closed(r, a))
}

pub(crate) fn is_least_above<R: Relation>(r: &R, a: u32, b: u32, x: u32) -> bool
    ensures { Decides result (LeastAbove (R.relation r.now) a b x) }
{
    r.holds(a, x)
        && r.holds(b, x)
        && (0..r.size()).all(|t| !r.holds(a, t) || !r.holds(b, t) || r.holds(x, t))
}

// The least number at or above both, where there is one.
pub(crate) fn least_above<R: Relation>(r: &R, a: u32, b: u32) -> Option<u32>
    ensures { MatchOption result ((x : ℕ) → LeastAbove (R.relation r.now) a b x → ⊥) (λ x. LeastAbove (R.relation r.now) a b x) }
{
    (0..r.size()).find(|x| is_least_above(r, a, b, *x))
}

// The least numbers at or above each two, row by row. The relation of a lattice has them all.
pub(crate) fn joins_of<R: Relation>(r: &R) -> Result<[u8; MOST_CELLS], Refusal>
    requires { (R.relation r.now).count ≤ 16 }
    ensures { MatchResult result
        (λ joins. ListsJoins (R.relation r.now) joins)
        (λ f. (HasJoins (R.relation r.now) → ⊥) × (f ≡ NotALattice)) }
{
    let n = r.size();
    let mut joins = [0; MOST_CELLS];
    // One place for each pair, so that the first pair with no join ends the one loop.
    for k in 0..n * n {
        let x = least_above(r, k / n, k % n).ok_or(Refusal::NotALattice)?;
        joins[k as usize] = x as u8;
    }
    Ok(joins)
}

pub(crate) fn are_bits(bytes: &[u8]) -> bool
    ensures { Decides result (Bits bytes.now) }
{
    bytes.iter().all(|x| *x <= 1)
}
