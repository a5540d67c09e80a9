//! A table as text: n lines of n digits 0 or 1.
ghost use Rattle.std.specs.Prelude.{◌≡◌, ℕ, ◌*◌, ◌<◌, ◌≤◌, length, slice_index, take, Decides, MatchResult};
ghost use Rattle.clearance.specs.Tables.{Sound, Countable, TableRefused};
ghost use Rattle.clearance.specs.Text.{begins, line_count, Ruled, digit, cell, cells};

use crate::Table;
use crate::relation::{MOST_CELLS, MOST_ROWS};
use refusal::Refusal;

const LINE_END: u8 = b'\n';

fn begins_line(text: &[u8], i: usize) -> bool
    ensures { result ≡ begins text.now i }
{
    i == 0 || text.get(i - 1).copied().unwrap_or(0) == LINE_END
}

fn line_count(text: &[u8]) -> usize
    ensures { result ≡ line_count text.now }
{
    // A `for`: `filter` and `count` took twice the time.
    let mut lines = 0;
    for i in 0..text.len() {
        if begins_line(text, i) {
            lines += 1;
        }
    }
    lines
}

// Whether a line may end at a place: past the end of the text it may.
fn ends_line(text: &[u8], i: usize) -> bool
    ensures { Decides result (i < length text.now → slice_index text.now i ≡ 10) }
{
    i >= text.len() || text[i] == LINE_END
}

// Whether the text is n lines of n bytes.
fn is_ruled(n: usize, text: &[u8]) -> bool
    requires { n ≤ 16 }
    ensures { Decides result (Ruled n text.now) }
{
    let size = n * (n + 1);
    if text.len() != size && text.len() + 1 != size {
        return false;
    }
    (0..n).all(|a| ends_line(text, a * (n + 1) + n))
}

// What a byte says: 0, 1, or neither.
// A number for neither, since a table refuses it with its other faults: an Option would test each cell twice.
fn digit_of(b: u8) -> u8
    ensures { result ≡ digit b }
{
    match b {
        b'0' => 0,
        b'1' => 1,
        _ => 2,
    }
}

// The cells of n lines, row by row.
fn cells_of(n: usize, text: &[u8]) -> [u8; MOST_CELLS]
    requires { n ≤ 16 }
    ensures { take (n * n) result ≡ cells n text.now }
{
    let mut all = [0; MOST_CELLS];
    // The cells only: a `from_fn` would fill the places after them too, and there divide by an n of 0.
    for k in 0..n * n {
        all[k] = digit_of(text.get(k + k / n).copied().unwrap_or(0));
    }
    all
}

/// The lattice whose table the text spells.
pub fn read_table(text: &[u8]) -> Result<Table, Refusal>
    ensures { MatchResult result
        (λ t. Countable (line_count text.now) × Ruled (line_count text.now) text.now × Sound (line_count text.now) (cells (line_count text.now) text.now)
        × (t.n ≡ line_count text.now) × (take (t.n * t.n) t.bytes ≡ cells t.n text.now))
        (λ f. TableRefused (line_count text.now) (Ruled (line_count text.now) text.now × Sound (line_count text.now) (cells (line_count text.now) text.now)) f) }
{
    let n = line_count(text);
    // Asked here too, since the cells have to fit before `Table::new` can ask.
    if n < 1 || n > MOST_ROWS as usize {
        return Err(Refusal::OutsideLimits);
    }
    if !is_ruled(n, text) {
        return Err(Refusal::NotALattice);
    }
    let cells = cells_of(n, text);
    Table::new(n as u32, &cells[0..n * n])
}
