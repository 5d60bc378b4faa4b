//! A buffer that is read from its front.

ghost use Rattle.std.specs.Prelude.{◌≡◌, ◌<◌, ◌≤◌, ◌↔◌, [], length, take, drop, IsTrue};
ghost use Rattle.wire_buf.specs.Reading.{TakesIfThere};

mod big_endian;
mod lenenc;
mod little_endian;
mod parse;
mod read;
mod text;

/// Bytes that are read from the front. What is handed out borrows from the payload, and nothing is
/// copied.
///
/// The calls named `eat_..` and `skip` ask that the bytes are there. Each has a form `checked_..`
/// that tests it first.
#[derive(Debug, Clone, Copy, PartialEq, Eq)]
pub struct ParseBuf<'a>(pub &'a [u8]);

impl<'a> ParseBuf<'a> {
    pub fn is_empty(&self) -> bool
        ensures { IsTrue result ↔ (self.now.0.now ≡ []) }
    {
        self.0.is_empty()
    }

    /// How many bytes are left.
    pub fn len(&self) -> usize
        ensures { result ≡ length self.now.0.now }
    {
        self.0.len()
    }

    /// Eats this many bytes.
    pub fn skip(&mut self, count: usize)
        requires { count ≤ length self.old.0.now }
        ensures { self.new.0.now ≡ drop count self.old.0.now }
    {
        self.0 = &self.0[count..];
    }

    /// As `skip`, where the bytes are there.
    pub fn checked_skip(&mut self, count: usize) -> bool
        ensures there { IsTrue result ↔ (count ≤ length self.old.0.now) }
        ensures skipped { IsTrue result → self.new.0.now ≡ drop count self.old.0.now }
        ensures short { length self.old.0.now < count → self.new.0.now ≡ self.old.0.now }
    {
        if self.len() >= count {
            self.skip(count);
            true
        } else {
            false
        }
    }

    /// Hands out this many bytes.
    pub fn eat(&mut self, count: usize) -> &'a [u8]
        requires { count ≤ length self.old.0.now }
        ensures eaten { result.now ≡ take count self.old.0.now }
        ensures rest { self.new.0.now ≡ drop count self.old.0.now }
    {
        let (front, rest) = self.0.split_at(count);
        self.0 = rest;
        front
    }

    /// As `eat`, where the bytes are there.
    pub fn checked_eat(&mut self, count: usize) -> Option<&'a [u8]>
        ensures { TakesIfThere (λ front. front.now) count self.old.0.now result self.new.0.now }
    {
        if self.len() >= count {
            Some(self.eat(count))
        } else {
            None
        }
    }

    /// As `eat`, as a buffer.
    pub fn eat_buf(&mut self, count: usize) -> Self
        requires { count ≤ length self.old.0.now }
        ensures eaten { result.0.now ≡ take count self.old.0.now }
        ensures rest { self.new.0.now ≡ drop count self.old.0.now }
    {
        Self(self.eat(count))
    }

    /// As `eat_buf`, where the bytes are there.
    pub fn checked_eat_buf(&mut self, count: usize) -> Option<Self>
        ensures { TakesIfThere (λ front. front.0.now) count self.old.0.now result self.new.0.now }
    {
        Some(Self(self.checked_eat(count)?))
    }

    /// Hands out everything.
    pub fn eat_all(&mut self) -> &'a [u8]
        ensures eaten { result.now ≡ self.old.0.now }
        ensures rest { self.new.0.now ≡ [] }
    {
        self.eat(self.len())
    }
}
