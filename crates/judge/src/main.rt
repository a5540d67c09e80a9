//! Judges the design on standard input under a lattice, the chain of 2 where none is named, and prints the verdict.
#![tactic(auto)]

mod arguments;
mod explaining;
mod failure;
mod judging;
mod lattices;

use arguments::Shape;
use failure::Failure;
use judging::Judging;
use std::io::Read;
use std::{env, io};

/// One byte more than the largest design file has.
const MOST_BYTES: u64 = 27_437;

const USAGE: &str = "usage: judge [--explain] [KIND | pair KIND KIND | reversed KIND] < DESIGN
       KIND: chain N | sets K | table FILE";

/// The argument that asks for the reason of a refusal.
const EXPLAIN: &str = "--explain";

fn run(rt: &HostRuntime) -> Result<(), Failure> {
    let args: Vec<String> = env::args(rt)?.skip(1).collect(rt.alloc())?;
    let explain = args.iter().any(|arg| arg.as_str() == EXPLAIN);
    let words: Vec<&str> = args
        .iter()
        .map(|arg| arg.as_str())
        .filter(|arg| *arg != EXPLAIN)
        .collect(rt.alloc())?;
    let shape = Shape::parse(&words).ok_or(Failure::WrongArguments)?;
    let mut bytes = Vec::new(rt.alloc());
    rt.stdin().take(MOST_BYTES).read_to_end(&mut bytes)?;
    let bytes = &bytes;
    shape.run_task(rt, Judging { rt, bytes, explain })
}

fn main(rt: HostRuntime) -> io::Result<()> {
    match run(&rt) {
        Ok(()) => Ok(()),
        Err(Failure::WrongArguments) => {
            eprintln!(rt; "{USAGE}")?;
            Err(io::Error::from(io::ErrorKind::InvalidInput))
        }
        Err(Failure::Refused(sign, refusal)) => println!(rt; "{sign} {refusal}"),
        Err(Failure::Io(error)) => Err(error),
    }
}
