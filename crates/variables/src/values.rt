//! A value for each variable.
ghost use Rattle.std.specs.Prelude.{◌≡◌, ℕ, ◌<◌};
ghost use Rattle.language.specs.Machine.{put};

use crate::MOST_VARIABLES;
use std::array;

/// A value for each variable; 0 for a number that names none.
#[derive(Clone, Copy, Debug, PartialEq, Eq)]
pub struct Values {
    values: [u32; MOST_VARIABLES],
}

impl Values {
    ghost use Rattle.variables.specs.Variables.{value_of, Holds};

    /// 0 for every variable.
    pub fn zeros() -> Values
        ensures { (v : ℕ) → value_of result v ≡ 0 }
    {
        Values {
            values: [0; MOST_VARIABLES],
        }
    }

    /// For each variable the value that `value` gives.
    pub fn from_fn<F: Fn(u32) -> u32>(value: F) -> Values
        requires { F.IsAlwaysCallable value }
        ensures { (v : ℕ) → v < MOST_VARIABLES → F.post value v (value_of result v) }
    {
        Values {
            values: array::from_fn(|v| value(v as u32)),
        }
    }

    /// The value of variable `v`; 0 where there is none.
    pub fn at(&self, v: u32) -> u32
        ensures { result ≡ value_of self.now v }
    {
        self.values.get(v as usize).copied().unwrap_or(0)
    }

    /// Gives variable `v` the value `x`, if there is such a variable.
    pub fn set(&mut self, v: u32, x: u32)
        ensures { Holds self.new (put (value_of self.old) v x) }
    {
        // Written by index, since a proof knows no value after `get_mut`.
        let i = v as usize;
        if i < MOST_VARIABLES {
            self.values[i] = x;
        }
    }
}
