//! How many bytes numbers and texts have as they are written.

ghost use Rattle.std.specs.Prelude.{◌≡◌, ◌++◌, ◌-◌, ◌^◌, length, min};
ghost use Rattle.wire_buf.specs.Lenenc.{lenenc_bytes};

/// How many bytes an `int<lenenc>` has: 1, 3, 4 or 9.
///
/// <https://dev.mysql.com/doc/dev/mysql-server/latest/page_protocol_basic_dt_integers.html>
pub fn lenenc_int_len(n: u64) -> u64
    ensures { result ≡ length (lenenc_bytes n) }
{
    if n < 251 {
        1
    } else if n < 65_536 {
        3
    } else if n < 16_777_216 {
        4
    } else {
        9
    }
}

/// How many bytes a `string<lenenc>` has, its length included. A sum past `u64::MAX` stays there.
///
/// <https://dev.mysql.com/doc/dev/mysql-server/latest/page_protocol_basic_dt_strings.html>
pub fn lenenc_str_len(text: &[u8]) -> u64
    ensures { result ≡ min (length (lenenc_bytes (length text.now) ++ text.now)) (2 ^ 64 - 1) }
{
    let len = text.len() as u64;
    lenenc_int_len(len).saturating_add(len)
}
