// Searches over the bytes of a line.
ghost use Rattle.std.specs.Prelude.{◌≡◌, ◌<◌, min, ◌∷◌, length};
ghost use Rattle.std.specs.Option.{option_map};
ghost use Rattle.docks.specs.Pieces.{Cut};
ghost use Rattle.docks.specs.Tables.{lines, is_name_byte, decimal};

// What stands before the first `stop`, and what stands after it.
pub(crate) fn cut(bytes: &[u8], stop: u8) -> Option<(&[u8], &[u8])>
    ensures { Cut stop bytes.now (option_map (λ p. (p.0.now, p.1.now)) result) }
{
    let n = bytes.iter().position(|b| *b == stop)?;
    Some((&bytes[..n], &bytes[n + 1..]))
}

// The first line of a text, and what is left after it.
pub(crate) fn next_line(text: &[u8]) -> (&[u8], &[u8])
    ensures first { 0 < length text.now → lines text.now ≡ result.0.now ∷ lines result.1.now }
    ensures less { 0 < length text.now → length result.1.now < length text.now }
{
    cut(text, b'\n').unwrap_or((text, &[]))
}

// A letter, a digit, '_' or '-'.
pub(crate) fn is_name_byte(b: u8) -> bool
    ensures { result ≡ is_name_byte b }
{
    b.is_ascii_alphanumeric() || b == b'_' || b == b'-'
}

// The number that digits write, or 4294967295 where that is larger.
pub(crate) fn capped_decimal(digits: &[u8]) -> u32
    ensures { result ≡ min (decimal digits.now) 4294967295 }
{
    let mut n = 0u32;
    for b in digits {
        n = n
            .saturating_mul(10)
            .saturating_add(u32::from(b.saturating_sub(b'0')));
    }
    n
}
