//! Bytes and fields of a part of a file; what lies past the end counts as 0.
ghost use Rattle.std.specs.Prelude.{◌≡◌, drop, slice_index};
ghost use Rattle.records.specs.Bytes.{field_of};

/// One byte, or 0 past the end.
pub fn byte(part: &[u8], at: usize) -> u8
    ensures { result ≡ slice_index part.now at }
{
    part.get(at).copied().unwrap_or(0)
}

/// What is left from `at` on; nothing past the end.
pub fn part_from(part: &[u8], at: usize) -> &[u8]
    ensures { result.now ≡ drop at part.now }
{
    part.get(at..).unwrap_or(&[])
}

/// Four bytes, least first; bytes past the end count as 0.
pub fn field(part: &[u8], at: usize) -> u32
    ensures { result ≡ field_of part.now at }
{
    let part = part_from(part, at);
    u32::from_le_bytes([byte(part, 0), byte(part, 1), byte(part, 2), byte(part, 3)])
}
