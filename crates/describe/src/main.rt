//! Reads a design on standard input and prints it for an engineer, or the refusal and what it means.
#![tactic(auto)]

use design::read_design;
use listing::{DesignText, Reason};
use std::io;
use std::io::Read;

fn main(rt: HostRuntime) -> io::Result<()> {
    let mut bytes = Vec::new(rt.alloc());
    rt.stdin().read_to_end(&mut bytes)?;
    match read_design(&bytes) {
        Ok(formed) => {
            let file = formed.file();
            print!(rt; "{}", DesignText { file })
        }
        Err(refusal) => {
            println!(rt; "{refusal}")?;
            println!(rt; "{}", Reason { refusal })
        }
    }
}
