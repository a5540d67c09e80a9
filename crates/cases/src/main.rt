//! Stored cases, one to a line, each with its answer.
//! `file HEX` is a file to read, `put AT HEX ..` the last such file with other bytes at some places, `cut LENGTH` its
//! first bytes.
//! `judge LATTICE HEX` is a design to judge.
//! `run HEX CALL ..` is a session on a design under the chain of 2, with calls `drive:V:N`, `clock`, `reset` and
//! `read:W:V`.
#![tactic(auto)]

mod hex;
mod judging;
mod outcome;
mod reading;
mod replaying;

use hex::bytes_of;
use judging::{LatticeName, accepted_under};
use lattice::Chain;
use outcome::print_outcome;
use reading::{changed, print_reading};
use replaying::replay_all;
use std::io;

fn print_changed(rt: &HostRuntime, file: &[u8], changes: &str) -> io::Result<()> {
    let other = changed(rt.alloc(), file, changes)?;
    print_reading(rt, &other)
}

fn print_cut(rt: &HostRuntime, file: &[u8], length: &str) -> io::Result<()> {
    let end = length.parse::<usize>().unwrap_or(0).min(file.len());
    print_reading(rt, &file[..end])
}

fn print_verdict(rt: &HostRuntime, asked: &str) -> io::Result<()> {
    let Some((name, hex)) = asked.split_once(' ') else {
        return println!(rt; "unknown");
    };
    let Ok(name) = name.parse::<LatticeName>() else {
        return println!(rt; "unknown");
    };
    let file = bytes_of(rt.alloc(), hex)?;
    print_outcome(rt, accepted_under(&file, name), "accepted")
}

fn main(rt: HostRuntime) -> io::Result<()> {
    let Ok(lattice) = Chain::new(2) else {
        return Ok(());
    };
    let mut file = Vec::new(rt.alloc());
    for line in rt.lines(rt.alloc()) {
        let line = line?;
        match line.as_str().split_once(' ') {
            Some(("file", hex)) => {
                file = bytes_of(rt.alloc(), hex)?;
                print_reading(&rt, &file)?;
            }
            Some(("put", changes)) => print_changed(&rt, &file, changes)?,
            Some(("cut", length)) => print_cut(&rt, &file, length)?,
            Some(("judge", asked)) => print_verdict(&rt, asked)?,
            Some(("run", session)) => replay_all(&rt, &lattice, session)?,
            _ => {}
        }
    }
    Ok(())
}
