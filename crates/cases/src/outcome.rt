//! How a call ended.
use refusal::Refusal;
use std::io;

/// Prints `done`, or the refusal.
pub(crate) fn print_outcome<T: Drop>(
    rt: &HostRuntime,
    outcome: Result<T, Refusal>,
    done: &str,
) -> io::Result<()> {
    match outcome {
        Ok(_) => println!(rt; "{done}"),
        Err(refusal) => println!(rt; "{refusal}"),
    }
}
