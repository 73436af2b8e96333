//! The pieces of a payload.
ghost use Rattle.std.specs.Prelude.{◌≡◌, None, Some, MatchOption, option_copied, option_map};
ghost use Rattle.std.specs.Int.{from_be_bytes, w16};
ghost use Rattle.compose_bundle.specs.Decoded.{split, sized_by_2, sized_by_4};
ghost use Rattle.compose_c.specs.Finds.{text_of};

/// Splits off a big-endian number of two bytes. Returns it and the bytes after it, or `None` if
/// there are too few bytes. O(1).
pub fn split_count(bytes: &[u8]) -> Option<(u16, &[u8])>
    ensures { MatchOption result (split 2 bytes.now ≡ None)
        (λ p. (head : _) × (split 2 bytes.now ≡ Some (head, p.1.now))
        × (p.0 ≡ from_be_bytes w16 head)) }
{
    let (head, rest) = bytes.split_at_checked(2)?;
    Some((u16::from_be_bytes([head[0], head[1]]), rest))
}

/// Splits off a length of two bytes, big-endian, and this number of bytes. Returns these bytes and
/// the bytes after them, or `None` if there are too few bytes. O(1).
pub fn split_by_2(bytes: &[u8]) -> Option<(&[u8], &[u8])>
    ensures { option_map (λ p. (p.0.now, p.1.now)) result ≡ sized_by_2 bytes.now }
{
    let (head, rest) = bytes.split_at_checked(2)?;
    rest.split_at_checked(usize::from(u16::from_be_bytes([head[0], head[1]])))
}

/// Splits off a length of four bytes, big-endian, and this number of bytes. Returns these bytes and
/// the bytes after them, or `None` if there are too few bytes. O(1).
pub fn split_by_4(bytes: &[u8]) -> Option<(&[u8], &[u8])>
    ensures { option_map (λ p. (p.0.now, p.1.now)) result ≡ sized_by_4 bytes.now }
{
    let (head, rest) = bytes.split_at_checked(4)?;
    rest.split_at_checked(u32::from_be_bytes([head[0], head[1], head[2], head[3]]) as usize)
}

/// Returns the bytes as a string, if they are UTF-8. O(bytes).
pub fn text_of(bytes: &[u8]) -> Option<&str>
    ensures { option_copied result ≡ text_of bytes.now }
{
    match str::from_utf8(bytes) {
        Ok(text) => Some(text),
        Err(_) => None,
    }
}
