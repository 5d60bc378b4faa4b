//! Sets of flags come back whatever follows, and texts where their representation says so.

ghost use Rattle.std.specs.Prelude.{◌≡◌, ℕ, List};
ghost use Rattle.std.specs.Cow.{cow_slice_items};
ghost use Rattle.wire_buf.specs.Reading.{Reads, Parses, Through};
ghost use Rattle.wire_repr.specs.Law.{ComesBackFrom};
ghost use Rattle.wire_repr.specs.Texts.{IsBorrowedText};

use crate::flags::RawFlags;
use crate::text::RawBytes;
use bitflags::Flags;
use std::alloc::Global;
use wire_buf::error::WireError;
use wire_buf::io::ParseBuf;
use wire_repr::field_laws::parse_back;
use wire_repr::int::IntRepr;
use wire_repr::text::BytesRepr;
use wire_repr::wire::Wire;

/// Flags, with the bits that no flag names.
pub fn raw_flags<T: Flags, U: IntRepr<Primitive = T::Bits>>(
    alloc: Global,
    buf: &mut ParseBuf<'_>,
) -> Result<RawFlags<T, U>, WireError>
    ensures reads { Reads (Parses U.SIZE (λ input. Through (λ flags. flags.0) (U.reads input)))
        buf.old.0.now result buf.new.0.now }
    ensures back { (bits : T.Bits) → U.is_value bits
        → ComesBackFrom (U.bytes bits) (λ back. back.0 ≡ U.kept bits) ⊥ buf.old.0.now result
        buf.new.0.now }
{
    parse_back(alloc, (), buf)
}

/// Any are good whatever follows, and what their representation keeps of them comes back.
pub fn raw_flags_comes_back<T: Flags, U: IntRepr<Primitive = T::Bits>>(
    _ctx: (),
    _flags: &RawFlags<T, U>,
    _back: &RawFlags<T, U>,
)
    ensures good { (rest : List ℕ) →
        ⟦<RawFlags<T, U> as Wire<'static, Global>>⟧.good _ctx _flags.now rest }
    ensures kept { ⟦<RawFlags<T, U> as Wire<'static, Global>>⟧.kept _flags.now _back.now
        → _back.now.0 ≡ U.kept _flags.now.0 }
{}

/// A text is good where its representation says so. It comes back borrowed: what the
/// representation keeps of it.
pub fn text_comes_back<T: BytesRepr>(_text: &RawBytes<'_, T>, _back: &RawBytes<'_, T>)
    ensures good { (ctx : T.Ctx) (rest : List ℕ) → T.good ctx (cow_slice_items _text.now.0) rest
        → ⟦<RawBytes<'static, T> as Wire<'static, Global>>⟧.good ctx _text.now rest }
    ensures kept { ⟦<RawBytes<'static, T> as Wire<'static, Global>>⟧.kept _text.now _back.now
        → IsBorrowedText _back.now.0 (T.kept (cow_slice_items _text.now.0)) }
{}
