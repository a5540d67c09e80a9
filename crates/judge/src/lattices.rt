//! The lattices that the arguments name, and what is done under one.
use crate::arguments::{Shape, Single};
use crate::failure::Failure;
use clearance::{Table, read_table};
use lattice::{Chain, Lattice, Pair, Reversed, Sets};
use refusal::Refusal;
use std::fs;

/// What is done under a lattice, of whatever kind. A trait, since a closure is not generic.
pub(crate) trait Task {
    fn run<L: Lattice + Drop>(self, lattice: L) -> Result<(), Failure>;
}

/// A task for the lattice turned round.
#[derive(Drop)]
struct Turned<T> {
    task: T,
}

impl<T: Task> Task for Turned<T> {
    fn run<L: Lattice + Drop>(self, of: L) -> Result<(), Failure> {
        let Turned { task } = self;
        task.run(Reversed { of })
    }
}

/// A task for the pair of the lattice and a second one, which is still to be made.
#[derive(Drop)]
struct Paired<'a, T> {
    rt: &'a HostRuntime,
    second: Single<'a>,
    task: T,
}

impl<T: Task + Drop> Task for Paired<'_, T> {
    fn run<L: Lattice + Drop>(self, first: L) -> Result<(), Failure> {
        let Paired { rt, second, task } = self;
        second.run_task(rt, PairedAfter { first, task })
    }
}

/// A task for the pair of a first lattice and the lattice.
#[derive(Drop)]
struct PairedAfter<A, T> {
    first: A,
    task: T,
}

impl<A: Lattice + Drop, T: Task> Task for PairedAfter<A, T> {
    fn run<L: Lattice + Drop>(self, second: L) -> Result<(), Failure> {
        let PairedAfter { first, task } = self;
        task.run(Pair { first, second })
    }
}

// A lattice that is refused is told with the sign of its kind.
fn made<L: Lattice>(lattice: Result<L, Refusal>) -> Result<L, Failure> {
    lattice.map_err(|refusal| Failure::Refused(L::SIGN, refusal))
}

impl Single<'_> {
    fn run_task<T: Task + Drop>(self, rt: &HostRuntime, task: T) -> Result<(), Failure> {
        match self {
            Single::Chain(n) => task.run(made(Chain::new(n))?),
            Single::Sets(owners) => task.run(made(Sets::new(owners))?),
            Single::Table(path) => task.run(made(read_table(&fs::read(rt, path)?))?),
        }
    }
}

impl Shape<'_> {
    /// Makes the lattice and does the task under it.
    pub(crate) fn run_task<T: Task + Drop>(self, rt: &HostRuntime, task: T) -> Result<(), Failure> {
        match self {
            Shape::Single(single) => single.run_task(rt, task),
            Shape::Reversed(single) => single.run_task(rt, Turned { task }),
            Shape::Pair(first, second) => first.run_task(rt, Paired { rt, second, task }),
        }
    }
}
