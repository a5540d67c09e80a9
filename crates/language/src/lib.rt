//! Core SecVerilog on paper: what a design is, what it does, when it is accepted, and what acceptance promises.
//! Each function stands for a theorem, which its contract names.
#![tactic(auto)]

ghost use Rattle.language.specs.Guarantee.{Noninterference, Striking, WiresHaveValues};
ghost use Rattle.language.specs.Finite.{TestsAreExact};
ghost use Rattle.language.specs.Offences.{OffencesCondemn};
ghost use Rattle.language.specs.Leaks.{Leaks};

/// A design that keeps the rules of form and typing under a lattice tells no watcher more than its level allows: two
/// sessions whose lists are equal once the calls that the watcher may not know of are struck give it the same answers.
/// And what one watcher is told, each watcher above it is told.
pub fn noninterference()
    ensures { Noninterference }
{}

/// What is struck from a session's list for a watcher: every read, every refused drive, and every drive of a port whose
/// level, just before, is not at or below the watcher's.
pub fn striking()
    ensures { Striking }
{}

/// On a formed design, the tests of finitely many values pass exactly where the typing rules hold, which speak of all
/// values.
pub fn tests_are_exact()
    ensures { TestsAreExact }
{}

/// A design of which a refusal can show a broken typing rule is not typed.
pub fn offences_condemn()
    ensures { OffencesCondemn }
{}

/// No read of a formed design is refused because a wire has no value.
pub fn wires_have_values()
    ensures { WiresHaveValues }
{}

/// No rule can be spared: of five small designs, each leaks and would pass rules that are weaker in one point, or is
/// accepted and would leak from a machine that does not clear.
pub fn rules_are_needed()
    ensures { Leaks }
{}
