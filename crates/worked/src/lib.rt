//! The worked rows hold of the definitions.
#![tactic(auto)]

ghost use Rattle.lattice.specs.Meaning.{All};
ghost use Rattle.worked.specs.Rows.{Holds, rows};

/// Every worked row holds.
pub fn rows_hold()
    ensures { All Holds rows }
{}
