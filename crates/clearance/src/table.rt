//! T: the lattice that a table gives.
ghost use Rattle.std.specs.Prelude.{◌≡◌, ℕ, ◌*◌, ◌<◌, ◌≤◌, true, length, take, Decides, MatchResult};
ghost use Rattle.clearance.specs.Tabled.{table_laws};
ghost use Rattle.lattice.specs.Kinds.{table};
ghost use Rattle.lattice.specs.Meaning.{LeastAbove, GreatestBelow};
ghost use Rattle.clearance.specs.Tables.{Sound, WorkedOut, Countable, TableRefused, OrderTable};

use crate::relation::{
    Grid, MOST_CELLS, MOST_ROWS, Relation, Turned, are_bits, is_antisymmetric, is_reflexive,
    is_transitive, joins_of,
};
use lattice::{Lattice, Level, are_levels};
use refusal::Refusal;

/// Levels 0 to n - 1: row `a`, column `b` tells whether `a` is at or below `b`.
#[derive(Clone, Copy)]
pub struct Table {
    n: u32,
    // The order, and the joins and meets worked out from it: the first n × n bytes of each, row by row.
    // Of fixed size, as there is no heap; three arrays, as the order stays the caller's bytes in one piece.
    bytes: [u8; MOST_CELLS],
    joins: [u8; MOST_CELLS],
    meets: [u8; MOST_CELLS],
    ghost some: { 1 ≤ n },
    ghost most: { n ≤ 16 },
    ghost sound: { ∥ WorkedOut n (take (n * n) bytes) joins meets ∥₁ },
}

// Whether the grid is the table of an order.
fn is_order(grid: &Grid) -> bool
    ensures { Decides result (OrderTable grid.now.n grid.now.bytes.now) }
{
    grid.is_square()
        && are_bits(grid.bytes)
        && is_reflexive(grid)
        && is_antisymmetric(grid)
        && is_transitive(grid)
}

// The bytes, with zeros after them.
fn padded(bytes: &[u8]) -> [u8; MOST_CELLS]
    requires { length bytes.now ≤ 256 }
    ensures { take (length bytes.now) result ≡ bytes.now }
{
    let mut all = [0; MOST_CELLS];
    all[0..bytes.len()].copy_from_slice(bytes);
    all
}

impl Table {
    /// The lattice of `n` levels whose table is `bytes`, row by row.
    pub fn new(n: u32, bytes: &[u8]) -> Result<Table, Refusal>
        ensures { MatchResult result
            (λ t. Countable n × Sound n bytes.now × (t.n ≡ n) × (take (n * n) t.bytes ≡ bytes.now))
            (λ f. TableRefused n (Sound n bytes.now) f) }
    {
        if n < 1 || n > MOST_ROWS {
            return Err(Refusal::OutsideLimits);
        }
        let grid = Grid { n, bytes };
        if !is_order(&grid) {
            return Err(Refusal::NotALattice);
        }
        let joins = joins_of(&grid)?;
        let turned = Turned { of: grid };
        let meets = joins_of(&turned)?;
        let bytes = padded(bytes);
        Ok(Table {
            n,
            bytes,
            joins,
            meets,
        })
    }

    // The least level at or above two levels.
    // Its twin reads the other array and promises the other fact, so a function for both would say less.
    fn least(&self, a: Level, b: Level) -> Level
        requires a_level { a < self.now.n }
        requires b_level { b < self.now.n }
        ensures { LeastAbove (table self.now.n (take (self.now.n * self.now.n) self.now.bytes)) a b result }
    {
        Level::from(self.joins[(a * self.n + b) as usize])
    }

    // The greatest level at or below two levels.
    fn greatest(&self, a: Level, b: Level) -> Level
        requires a_level { a < self.now.n }
        requires b_level { b < self.now.n }
        ensures { GreatestBelow (table self.now.n (take (self.now.n * self.now.n) self.now.bytes)) a b result }
    {
        Level::from(self.meets[(a * self.n + b) as usize])
    }
}

impl Lattice for Table {
    const SIGN: char = 'T';

    ghost meaning = { λ s. table s.n (take (s.n * s.n) s.bytes) };

    ghost lawful = { λ s. table_laws s.n (take (s.n * s.n) s.bytes) s.joins s.meets s.some s.most s.sound };

    fn count(&self) -> u32 {
        self.n
    }

    fn is_below(&self, a: Level, b: Level) -> bool {
        let grid = Grid {
            n: self.n,
            bytes: &self.bytes[0..(self.n * self.n) as usize],
        };
        grid.holds(a, b)
    }

    fn join(&self, a: Level, b: Level) -> Level {
        if are_levels(self.n, a, b) {
            self.least(a, b)
        } else {
            self.lowest()
        }
    }

    fn meet(&self, a: Level, b: Level) -> Level {
        if are_levels(self.n, a, b) {
            self.greatest(a, b)
        } else {
            self.lowest()
        }
    }

    fn lowest(&self) -> Level {
        // A loop, as below: the closure of a fold could not know that what it has so far is a level.
        let mut low = 0;
        for t in 0..self.n {
            low = self.greatest(low, t);
        }
        low
    }

    fn highest(&self) -> Level {
        let mut high = 0;
        for t in 0..self.n {
            high = self.least(high, t);
        }
        high
    }
}

/// The sign of every table: `T`.
pub fn table_sign() -> char
    ensures { result ≡ 84 }
{
    Table::SIGN
}
