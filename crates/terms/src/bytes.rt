// The bytes of an image.
ghost use Rattle.std.specs.Prelude.{◌≡◌};
ghost use Rattle.terms.specs.Bytes.{byte, word};

// The byte at a place, 0 past the end.
pub fn byte_at(bytes: &[u8], k: usize) -> u8
    ensures { result ≡ byte bytes.now k }
{
    bytes.get(k).copied().unwrap_or(0)
}

// Two bytes as a number, the higher first.
pub fn word_at(bytes: &[u8], k: usize) -> u16
    ensures { result ≡ word bytes.now k }
{
    match bytes.get(k..) {
        Some([high, low, ..]) => u16::from_be_bytes([*high, *low]),
        Some([high]) => u16::from_be_bytes([*high, 0]),
        _ => 0,
    }
}
