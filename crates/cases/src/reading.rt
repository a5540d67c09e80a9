//! Reading a file, whole, changed or cut.
use crate::hex::bytes_of;
use crate::outcome::print_outcome;
use design::read_design;
use std::alloc::{AllocError, Global};
use std::io;

// Puts the first byte that `hex` spells at a place, if there is such a place.
fn put(heap: Global, file: &mut [u8], place: usize, hex: &str) -> Result<(), AllocError> {
    let bytes = bytes_of(heap, hex)?;
    if let (Some(old), Some(new)) = (file.get_mut(place), bytes.first()) {
        *old = *new;
    }
    Ok(())
}

// A copy of the file with the bytes changed that `changes` names: a place, and then the byte.
pub(crate) fn changed(heap: Global, file: &[u8], changes: &str) -> Result<Vec<u8>, AllocError> {
    let mut copy = file.to_vec(heap)?;
    let mut place = None;
    for word in changes.split_whitespace() {
        match place {
            None => place = word.parse::<usize>().ok(),
            Some(at) => {
                put(heap, &mut copy, at, word)?;
                place = None;
            }
        }
    }
    Ok(copy)
}

pub(crate) fn print_reading(rt: &HostRuntime, file: &[u8]) -> io::Result<()> {
    print_outcome(rt, read_design(file), "formed")
}
