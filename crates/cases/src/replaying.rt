//! Replaying a session.
use crate::hex::bytes_of;
use crate::judging::accepted;
use crate::outcome::print_outcome;
use lattice::Chain;
use refusal::Refusal;
use session::Session;
use std::io;
use std::str::FromStr;

#[derive(Clone, Copy)]
enum Call {
    Drive(u32, u32),
    Clock,
    Reset,
    Read(u32, u32),
}

// A word that is no call.
#[derive(Clone, Copy)]
struct UnknownCall;

fn numbers(text: &str) -> Option<(u32, u32)> {
    let (a, b) = text.split_once(':')?;
    Some((a.parse::<u32>().ok()?, b.parse::<u32>().ok()?))
}

impl FromStr for Call {
    type Err = UnknownCall;

    fn from_str(word: &str) -> Result<Call, UnknownCall> {
        if let Some(rest) = word.strip_prefix("drive:") {
            let (variable, value) = numbers(rest).ok_or(UnknownCall)?;
            return Ok(Call::Drive(variable, value));
        }
        if let Some(rest) = word.strip_prefix("read:") {
            let (watcher, variable) = numbers(rest).ok_or(UnknownCall)?;
            return Ok(Call::Read(watcher, variable));
        }
        match word {
            "clock" => Ok(Call::Clock),
            "reset" => Ok(Call::Reset),
            _ => Err(UnknownCall),
        }
    }
}

fn replay(
    rt: &HostRuntime,
    session: &mut Session<'_>,
    lattice: &Chain,
    call: Call,
) -> io::Result<()> {
    let outcome = match call {
        Call::Drive(variable, value) => session.drive(variable, value),
        Call::Clock => {
            session.clock();
            Ok(())
        }
        Call::Reset => {
            session.reset();
            Ok(())
        }
        Call::Read(watcher, variable) => match session.read(lattice, watcher, variable) {
            Ok((value, level)) => return println!(rt; "{value} {level}"),
            Err(refusal) => Err(refusal),
        },
    };
    print_outcome(rt, outcome, "done")
}

/// Replays a session: a design in hexadecimal, then its calls.
pub(crate) fn replay_all(rt: &HostRuntime, lattice: &Chain, line: &str) -> io::Result<()> {
    let mut words = line.split_whitespace();
    let Some(hex) = words.next() else {
        return Ok(());
    };
    let file = bytes_of(rt.alloc(), hex)?;
    let design = match accepted(&file, lattice) {
        Ok(design) => design,
        Err(refusal) => return println!(rt; "{refusal}"),
    };
    let mut session = Session::open(design);
    for word in words {
        match word.parse::<Call>() {
            Ok(call) => replay(rt, &mut session, lattice, call)?,
            Err(_) => println!(rt; "unknown")?,
        }
    }
    let _ = session.close();
    Ok(())
}
