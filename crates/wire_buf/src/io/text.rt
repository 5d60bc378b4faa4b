//! Texts read from a buffer.

ghost use Rattle.std.specs.Prelude.{◌≡◌};
ghost use Rattle.std.specs.List.{before_first, after_first};
ghost use Rattle.wire_buf.specs.NullText.{is_zero};

use crate::io::ParseBuf;
use crate::zero::first_zero;

impl<'a> ParseBuf<'a> {
    /// Eats a text (a byte string) and the zero that ends it, a `string<NUL>`. Without a zero the
    /// text is everything.
    ///
    /// <https://dev.mysql.com/doc/dev/mysql-server/latest/page_protocol_basic_dt_strings.html>
    pub fn eat_null_str(&mut self) -> &'a [u8]
        ensures text { result.now ≡ before_first is_zero self.old.0.now }
        ensures rest { self.new.0.now ≡ after_first is_zero self.old.0.now }
    {
        match first_zero(self.0) {
            Some(end) => {
                let text = self.eat(end);
                self.skip(1);
                text
            }
            None => self.eat_all(),
        }
    }
}
