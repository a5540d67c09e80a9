//! Bytes written as hexadecimal digits.
use std::alloc::{AllocError, Global};

fn digit(b: u8) -> Option<u8> {
    match b {
        b'0'..=b'9' => Some(b - b'0'),
        b'a'..=b'f' => Some(b - b'a' + 10),
        _ => None,
    }
}

fn byte_of([high, low]: [u8; 2]) -> Option<u8> {
    Some(digit(high)? << 4 | digit(low)?)
}

// The bytes that pairs of hexadecimal digits spell, up to the first that does not.
pub(crate) fn bytes_of(heap: Global, hex: &str) -> Result<Vec<u8>, AllocError> {
    let (pairs, _) = hex.as_bytes().as_chunks::<2>();
    pairs.iter().map_while(|pair| byte_of(*pair)).collect(heap)
}
