//! Reads a clearance table as text, n lines of n digits 0 or 1, and prints what it means, or the refusal.
#![tactic(auto)]

use clearance::read_table;
use lattice::{Lattice, Level};
use std::io;
use std::io::Read;

fn print_row<F: Fn(Level, Level) -> Level>(
    rt: &HostRuntime,
    count: u32,
    a: Level,
    answer: &F,
) -> io::Result<()>
    requires { F.IsAlwaysCallable answer.now }
{
    for b in 0..count {
        let gap = if b == 0 { "" } else { " " };
        let level = answer(a, b);
        print!(rt; "{gap}{level}")?;
    }
    println!(rt; "")
}

fn print_answers<F: Fn(Level, Level) -> Level>(
    rt: &HostRuntime,
    count: u32,
    answer: F,
) -> io::Result<()>
    requires { F.IsAlwaysCallable answer }
{
    for a in 0..count {
        print_row(rt, count, a, &answer)?;
    }
    Ok(())
}

fn print_lattice<L: Lattice>(rt: &HostRuntime, lattice: &L) -> io::Result<()> {
    let sign = L::SIGN;
    let count = lattice.count();
    let lowest = lattice.lowest();
    let highest = lattice.highest();
    println!(rt; "sign {sign}")?;
    println!(rt; "count {count}")?;
    println!(rt; "lowest {lowest}")?;
    println!(rt; "highest {highest}")?;
    println!(rt; "joins")?;
    print_answers(rt, count, |a, b| lattice.join(a, b))?;
    println!(rt; "meets")?;
    print_answers(rt, count, |a, b| lattice.meet(a, b))
}

fn main(rt: HostRuntime) -> io::Result<()> {
    let mut text = Vec::new(rt.alloc());
    rt.stdin().read_to_end(&mut text)?;
    match read_table(&text) {
        Ok(table) => print_lattice(&rt, &table),
        Err(refusal) => println!(rt; "{refusal}"),
    }
}
