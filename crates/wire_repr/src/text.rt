//! How texts, which are byte strings, are written.

ghost use Rattle.std.specs.Prelude.{◌≡◌, ℕ, List, ◌++◌, length, Option, Some, Result, Ok, OnOk, IfErr};
ghost use Rattle.wire_buf.specs.declared.error.WireError.{WireError};
ghost use Rattle.wire_buf.specs.declared.error.WireError.TheVariants.{OutOfMemory};
ghost use Rattle.wire_buf.specs.Reading.{HasBytes, Reads, Answers};
ghost use Rattle.wire_repr.specs.Texts.{IsText, Borrows};

use std::alloc::Allocator;
use std::borrow::CowSlice;
use wire_buf::error::WireError;
use wire_buf::io::ParseBuf;

/// How a text is written. One that a user writes has what those of this crate have, `RawBytes` and
/// its law.
///
/// <https://dev.mysql.com/doc/dev/mysql-server/latest/page_protocol_basic_dt_strings.html>
pub trait BytesRepr {
    /// How many bytes of a text are written at most.
    const MAX_LEN: usize;

    /// How many bytes it has, where that is always the same.
    const SIZE: Option<usize>;

    /// What a reader has to know beforehand.
    type Ctx: Drop;

    ghost MAX_LEN: { ℕ };

    ghost SIZE: { Option ℕ };

    /// What is written of a text.
    ghost bytes: { List ℕ → List ℕ };

    /// What may be answered to an input under a context, and how many bytes of it are eaten then.
    ghost reads: { Self.Ctx → List ℕ → Result (List ℕ) WireError → ℕ → Type 0 };

    /// The text comes back where it is read under this context and before these bytes.
    ghost good: { Self.Ctx → List ℕ → List ℕ → Type 0 };

    /// The text that is read back.
    ghost kept: { List ℕ → List ℕ };

    /// Appends the text's bytes. Where memory for them is refused, the buffer is as it was.
    fn serialize<A: Allocator>(text: &[u8], buf: &mut Vec<u8, A>) -> Result<(), WireError>
        ensures ok { OnOk result (buf.new.items ≡ buf.old.items ++ bytes text.now) }
        ensures err { IfErr result (λ error. (error ≡ OutOfMemory)
            × (buf.new.items ≡ buf.old.items)) };

    /// Reads a text from the front of a buffer, which has the bytes that the size asks for. It is
    /// borrowed, and no memory is taken.
    fn deserialize<'de, A: Allocator>(
        ctx: Self::Ctx,
        buf: &mut ParseBuf<'de>,
    ) -> Result<CowSlice<'de, u8, A>, WireError>
        requires { HasBytes SIZE buf.old.0.now }
        ensures { Reads (λ input. Borrows (λ text. text) (reads ctx input)) buf.old.0.now result
            buf.new.0.now };

    ghost comes_back: { (ctx : Self.Ctx) (text rest : List ℕ) → IsText text → good ctx text rest
        → (answer : Result (List ℕ) WireError) (eaten : ℕ)
        → reads ctx (bytes text ++ rest) answer eaten
        → Answers (Ok (kept text), length (bytes text)) answer eaten };

    ghost of_size: { (text : List ℕ) (size : ℕ) → SIZE ≡ Some size
        → length (bytes text) ≡ size };
}
