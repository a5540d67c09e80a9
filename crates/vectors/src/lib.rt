//! Arithmetic of unsigned vectors, as numbers. It takes any numbers, also ones past the width.
#![tactic(auto)]

ghost use Rattle.std.specs.Prelude.{◌≡◌, ◌%◌, ◌^◌, ◌≤◌, MatchOption, ◌==◌, bit_and, bit_or, bit_xor, nat_lt};
ghost use Rattle.language.specs.Syntax.{sum, difference};
ghost use Rattle.language.specs.Vectors.{bit, complemented, operated, shifted_left, shifted_right, part_from, joined_above, chosen};
ghost use Rattle.vectors.specs.Operations.{op_of};

/// How many bits a vector has: 1 to 32.
#[derive(Clone, Copy, Debug, PartialEq, Eq)]
pub struct Width {
    bits: u32,
    ghost some: { 1 ≤ bits },
    ghost most: { bits ≤ 32 },
}

impl Width {
    /// The width of `bits` bits, if a vector may have so many.
    pub fn new(bits: u32) -> Option<Width>
        ensures { MatchOption result ((1 ≤ bits) × (bits ≤ 32) → ⊥) (λ w. (1 ≤ bits) × (bits ≤ 32) × (w.bits ≡ bits)) }
    {
        match bits {
            1..=u32::BITS => Some(Width { bits }),
            _ => None,
        }
    }

    /// How many bits.
    pub fn bits(self) -> u32
        ensures { result ≡ self.bits }
    {
        self.bits
    }

    /// Whether `value` has no bit past the width.
    pub fn holds(self, value: u32) -> bool
        ensures { result ≡ nat_lt value (2 ^ self.bits) }
    {
        fits(value, self.bits)
    }

    // 2 to the power of the width.
    fn power(self) -> u64
        ensures { result ≡ 2 ^ self.bits }
    {
        1u64 << self.bits
    }

    // The lowest bits of `value`.
    fn keep(self, value: u64) -> u32
        ensures { result ≡ value % 2 ^ self.bits }
    {
        (value % self.power()) as u32
    }
}

/// What two vectors are joined by.
#[derive(Clone, Copy, Debug, PartialEq, Eq)]
pub enum Pairing {
    And,
    Or,
    Xor,
    Sum,
    Difference,
    Equals,
    Less,
}

/// Each bit of `x` turned; 0 where `x` is past the width.
pub fn complement(width: Width, x: u32) -> u32
    ensures { result ≡ complemented width.bits x }
{
    (width.power() - 1).saturating_sub(u64::from(x)) as u32
}

/// The bits that `x` and `y` both have.
pub fn and(x: u32, y: u32) -> u32
    ensures { result ≡ bit_and x y }
{
    x & y
}

/// The bits that `x` or `y` has.
pub fn or(x: u32, y: u32) -> u32
    ensures { result ≡ bit_or x y }
{
    x | y
}

/// The bits that one of `x` and `y` has and the other lacks.
pub fn exclusive_or(x: u32, y: u32) -> u32
    ensures { result ≡ bit_xor x y }
{
    x ^ y
}

/// The lowest bits of the sum.
pub fn sum(width: Width, x: u32, y: u32) -> u32
    ensures { result ≡ operated width.bits sum x y }
{
    width.keep(u64::from(x) + u64::from(y))
}

/// The lowest bits of `x` plus 2 to the power of the width less `y`, or 0 where `y` is more than both.
pub fn difference(width: Width, x: u32, y: u32) -> u32
    ensures { result ≡ operated width.bits difference x y }
{
    let above = u64::from(x) + width.power();
    width.keep(above.saturating_sub(u64::from(y)))
}

/// 1 where `x` is `y`, otherwise 0.
pub fn equals(x: u32, y: u32) -> u32
    ensures { result ≡ bit (x == y) }
{
    u32::from(x == y)
}

/// 1 where `x` is less than `y`, otherwise 0.
pub fn less(x: u32, y: u32) -> u32
    ensures { result ≡ bit (nat_lt x y) }
{
    u32::from(x < y)
}

/// `x` and `y` joined.
pub fn operate(width: Width, pairing: Pairing, x: u32, y: u32) -> u32
    ensures { result ≡ operated width.bits (op_of pairing) x y }
{
    match pairing {
        Pairing::And => and(x, y),
        Pairing::Or => or(x, y),
        Pairing::Xor => exclusive_or(x, y),
        Pairing::Sum => sum(width, x, y),
        Pairing::Difference => difference(width, x, y),
        Pairing::Equals => equals(x, y),
        Pairing::Less => less(x, y),
    }
}

/// The lowest bits of `x` shifted to the left by `by`.
#[tactic(auto, using(crate::proofs::Shifts::left_past, crate::proofs::Shifts::left_kept))]
pub fn shift_left(width: Width, x: u32, by: u32) -> u32
    ensures { result ≡ shifted_left width.bits x by }
{
    width.keep(u64::from(x).checked_shl(by).unwrap_or(0))
}

/// `x` shifted to the right by `by`.
#[tactic(auto, using(crate::proofs::Shifts::right_past))]
pub fn shift_right(x: u32, by: u32) -> u32
    ensures { result ≡ shifted_right x by }
{
    x.checked_shr(by).unwrap_or(0)
}

/// Whether `x` has no bit past `width`, which may be any number.
pub fn fits(x: u32, width: u32) -> bool
    ensures { result ≡ nat_lt x (2 ^ width) }
{
    shift_right(x, width) == 0
}

/// The bits of `x` from bit `from` up, as many as the width says.
pub fn part_from(width: Width, from: u32, x: u32) -> u32
    ensures { result ≡ part_from width.bits from x }
{
    width.keep(u64::from(shift_right(x, from)))
}

/// The lowest bits of `x` above `y`, which is as wide as `lower` says.
pub fn join_above(width: Width, lower: Width, x: u32, y: u32) -> u32
    ensures { result ≡ joined_above width.bits lower.bits x y }
{
    width.keep(u64::from(x) * lower.power() + u64::from(y))
}

/// `x` where `condition` is 1, otherwise `y`.
pub fn choose(condition: u32, x: u32, y: u32) -> u32
    ensures { result ≡ chosen condition x y }
{
    if condition == 1 { x } else { y }
}

#[cfg(test)]
mod tests;
