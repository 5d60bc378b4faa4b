//! The spellings (encodings) of length-encoded integers after a first byte, for the layers above.

ghost use Rattle.std.specs.Prelude.{◌≡◌, ◌∷◌};
ghost use Rattle.wire_buf.specs.Numbers.{le_bytes};

/// Of a number below 65536: its low two bytes.
pub fn three_bytes(n: u64) -> [u8; 3]
    ensures { result ≡ 0xfc ∷ le_bytes 2 n }
{
    let [a, b, ..] = n.to_le_bytes();
    [0xfc, a, b]
}

/// Of a number below 16777216: its low three bytes.
pub fn four_bytes(n: u64) -> [u8; 4]
    ensures { result ≡ 0xfd ∷ le_bytes 3 n }
{
    let [a, b, c, ..] = n.to_le_bytes();
    [0xfd, a, b, c]
}

/// Of any number.
pub fn nine_bytes(n: u64) -> [u8; 9]
    ensures { result ≡ 0xfe ∷ le_bytes 8 n }
{
    let [a, b, c, d, e, f, g, h] = n.to_le_bytes();
    [0xfe, a, b, c, d, e, f, g, h]
}
