//! When a text comes back, by its representation.

ghost use Rattle.std.specs.Prelude.{◌≡◌, List, ℕ, [], ◌++◌, ◌∷◌, length, take, min, Some, Ok};
ghost use Rattle.std.specs.Cow.{cow_slice_items};
ghost use Rattle.std.specs.List.{before_first};
ghost use Rattle.wire_buf.specs.Lenenc.{IsLenencOrMark, lenenc_bytes};
ghost use Rattle.wire_buf.specs.NullText.{is_zero};
ghost use Rattle.wire_buf.specs.Numbers.{le_bytes};
ghost use Rattle.wire_buf.specs.Reading.{Reads, Parses, Answers, front_at};
ghost use Rattle.wire_buf.specs.Spelling.{IsFixed};
ghost use Rattle.wire_ext.specs.Texts.{u8_max, u32_max};
ghost use Rattle.wire_forms.specs.BareTexts.{padded};
ghost use Rattle.wire_forms.specs.Groups.{ReadsGroups, groups_bytes};
ghost use Rattle.wire_repr.specs.Law.{ComesBackAlone, ComesBackFrom, ReadsFixed};
ghost use Rattle.wire_forms.specs.NullTexts.{ReadsNull};
ghost use Rattle.wire_forms.specs.Spelled.{Leaves, NumberOrEof, TextBehind, text_behind};
ghost use Rattle.wire_repr.specs.Texts.{IsText, IsBorrowedText, Borrows};

use std::alloc::Global;
use wire_buf::error::WireError;
use wire_buf::io::ParseBuf;
use wire_forms::lenenc::LenEnc;
use wire_forms::null::NullBytes;
use wire_forms::prefixed::{U8Bytes, U32Bytes};
use wire_forms::undelimited::{BareBytes, EofBytes, FixedLengthText};
use wire_forms::varlen::VarLen;
use wire_repr::field_laws::parse_back;
use wire_repr::wire::Wire;
use wire_values::text::RawBytes;

/// Any, whole.
pub fn lenenc_text<'a>(
    alloc: Global,
    buf: &mut ParseBuf<'a>,
) -> Result<RawBytes<'a, LenEnc>, WireError>
    ensures reads { Reads (λ input.
        Borrows (λ text. text.0) (Leaves (TextBehind (NumberOrEof IsLenencOrMark 1)) input))
        buf.old.0.now result buf.new.0.now }
    ensures back { (text : List ℕ) → IsText text
        → ComesBackFrom (text_behind lenenc_bytes text) (λ back. IsBorrowedText back.0 text) ⊥
        buf.old.0.now result buf.new.0.now }
{
    parse_back::<'a, RawBytes<'a, LenEnc>, Global>(alloc, (), buf)
}

/// Any is good whatever follows, and comes back whole.
pub fn lenenc_text_comes_back(_ctx: (), _text: &RawBytes<'_, LenEnc>, _back: &RawBytes<'_, LenEnc>)
    ensures good { (rest : List ℕ) →
        ⟦<RawBytes<'static, LenEnc> as Wire<'static, Global>>⟧.good _ctx _text.now rest }
    ensures kept { ⟦<RawBytes<'static, LenEnc> as Wire<'static, Global>>⟧.kept _text.now _back.now
        → IsBorrowedText _back.now.0 (cow_slice_items _text.now.0) }
{}

/// Any, and of one of more than 255 bytes these.
pub fn u8_text<'a>(
    alloc: Global,
    buf: &mut ParseBuf<'a>,
) -> Result<RawBytes<'a, U8Bytes>, WireError>
    ensures reads { Reads (λ input.
        Borrows (λ text. text.0) (Leaves (TextBehind (NumberOrEof (IsFixed 1) 0)) input))
        buf.old.0.now result buf.new.0.now }
    ensures back { (text : List ℕ) → IsText text
        → ComesBackFrom (text_behind (le_bytes 1) (take u8_max text))
        (λ back. IsBorrowedText back.0 (take u8_max text)) ⊥ buf.old.0.now result buf.new.0.now }
{
    parse_back::<'a, RawBytes<'a, U8Bytes>, Global>(alloc, (), buf)
}

/// Any is good whatever follows, and of one of more than 255 bytes these come back.
pub fn u8_text_comes_back(_ctx: (), _text: &RawBytes<'_, U8Bytes>, _back: &RawBytes<'_, U8Bytes>)
    ensures good { (rest : List ℕ) →
        ⟦<RawBytes<'static, U8Bytes> as Wire<'static, Global>>⟧.good _ctx _text.now rest }
    ensures kept { ⟦<RawBytes<'static, U8Bytes> as Wire<'static, Global>>⟧.kept _text.now _back.now
        → IsBorrowedText _back.now.0 (take u8_max (cow_slice_items _text.now.0)) }
{}

/// Any, and of one of more than 4294967295 bytes these.
pub fn u32_text<'a>(
    alloc: Global,
    buf: &mut ParseBuf<'a>,
) -> Result<RawBytes<'a, U32Bytes>, WireError>
    ensures reads { Reads (λ input.
        Borrows (λ text. text.0) (Leaves (TextBehind (NumberOrEof (IsFixed 4) 0)) input))
        buf.old.0.now result buf.new.0.now }
    ensures back { (text : List ℕ) → IsText text
        → ComesBackFrom (text_behind (le_bytes 4) (take u32_max text))
        (λ back. IsBorrowedText back.0 (take u32_max text)) ⊥ buf.old.0.now result buf.new.0.now }
{
    parse_back::<'a, RawBytes<'a, U32Bytes>, Global>(alloc, (), buf)
}

/// Any is good whatever follows, and of one of more than 4294967295 bytes these come back.
pub fn u32_text_comes_back(_ctx: (), _text: &RawBytes<'_, U32Bytes>, _back: &RawBytes<'_, U32Bytes>)
    ensures good { (rest : List ℕ) →
        ⟦<RawBytes<'static, U32Bytes> as Wire<'static, Global>>⟧.good _ctx _text.now rest }
    ensures kept { ⟦<RawBytes<'static, U32Bytes> as Wire<'static, Global>>⟧.kept _text.now _back.now
        → IsBorrowedText _back.now.0 (take u32_max (cow_slice_items _text.now.0)) }
{}

/// Any, and of one of more than 4294967295 bytes these.
pub fn var_len_text<'a>(
    alloc: Global,
    buf: &mut ParseBuf<'a>,
) -> Result<RawBytes<'a, VarLen>, WireError>
    ensures reads { Reads (λ input.
        Borrows (λ text. text.0) (Leaves (TextBehind ReadsGroups) input)) buf.old.0.now result
        buf.new.0.now }
    ensures back { (text : List ℕ) → IsText text
        → ComesBackFrom (text_behind groups_bytes (take u32_max text))
        (λ back. IsBorrowedText back.0 (take u32_max text)) ⊥ buf.old.0.now result buf.new.0.now }
{
    parse_back::<'a, RawBytes<'a, VarLen>, Global>(alloc, (), buf)
}

/// Any is good whatever follows, and of one of more than 4294967295 bytes these come back.
pub fn var_len_text_comes_back(_ctx: (), _text: &RawBytes<'_, VarLen>, _back: &RawBytes<'_, VarLen>)
    ensures good { (rest : List ℕ) →
        ⟦<RawBytes<'static, VarLen> as Wire<'static, Global>>⟧.good _ctx _text.now rest }
    ensures kept { ⟦<RawBytes<'static, VarLen> as Wire<'static, Global>>⟧.kept _text.now _back.now
        → IsBorrowedText _back.now.0 (take u32_max (cow_slice_items _text.now.0)) }
{}

/// Any, up to its first zero.
pub fn null_text<'a>(
    alloc: Global,
    buf: &mut ParseBuf<'a>,
) -> Result<RawBytes<'a, NullBytes>, WireError>
    ensures reads { Reads (λ input. Borrows (λ text. text.0) (Leaves ReadsNull input)) buf.old.0.now
        result buf.new.0.now }
    ensures back { (text : List ℕ) → IsText text
        → ComesBackFrom (before_first is_zero text ++ 0 ∷ [])
        (λ back. IsBorrowedText back.0 (before_first is_zero text)) ⊥ buf.old.0.now result
        buf.new.0.now }
{
    parse_back::<'a, RawBytes<'a, NullBytes>, Global>(alloc, (), buf)
}

/// Any is good whatever follows, and comes back up to its first zero.
pub fn null_text_comes_back(
    _ctx: (),
    _text: &RawBytes<'_, NullBytes>,
    _back: &RawBytes<'_, NullBytes>,
)
    ensures good { (rest : List ℕ) →
        ⟦<RawBytes<'static, NullBytes> as Wire<'static, Global>>⟧.good _ctx _text.now rest }
    ensures kept { ⟦<RawBytes<'static, NullBytes> as Wire<'static, Global>>⟧.kept _text.now
        _back.now
        → IsBorrowedText _back.now.0 (before_first is_zero (cow_slice_items _text.now.0)) }
{}

/// Any, where nothing follows.
pub fn eof_text<'a>(
    alloc: Global,
    buf: &mut ParseBuf<'a>,
) -> Result<RawBytes<'a, EofBytes>, WireError>
    ensures reads { Reads (λ input. Borrows (λ text. text.0) (Answers (Ok input, length input)))
        buf.old.0.now result buf.new.0.now }
    ensures back { (text : List ℕ) → IsText text
        → ComesBackAlone text (λ back. IsBorrowedText back.0 text) buf.old.0.now result
        buf.new.0.now }
{
    parse_back::<'a, RawBytes<'a, EofBytes>, Global>(alloc, (), buf)
}

/// Any is good before nothing, and comes back whole.
pub fn eof_text_comes_back(_ctx: (), _text: &RawBytes<'_, EofBytes>, _back: &RawBytes<'_, EofBytes>)
    ensures good { ⟦<RawBytes<'static, EofBytes> as Wire<'static, Global>>⟧.good _ctx _text.now [] }
    ensures kept { ⟦<RawBytes<'static, EofBytes> as Wire<'static, Global>>⟧.kept _text.now _back.now
        → IsBorrowedText _back.now.0 (cow_slice_items _text.now.0) }
{}

/// Any, where the context is what is written of it; of one of more than `N` bytes these.
pub fn bare_text<'a, const N: usize>(
    alloc: Global,
    count: usize,
    buf: &mut ParseBuf<'a>,
) -> Result<RawBytes<'a, BareBytes<N>>, WireError>
    ensures reads { Reads (λ input. Borrows (λ text. text.0) (Answers (front_at count input)))
        buf.old.0.now result buf.new.0.now }
    ensures back { (text : List ℕ) → IsText text → count ≡ min (length text) N
        → ComesBackFrom (take N text) (λ back. IsBorrowedText back.0 (take N text)) ⊥ buf.old.0.now
        result buf.new.0.now }
{
    parse_back::<'a, RawBytes<'a, BareBytes<N>>, Global>(alloc, count, buf)
}

/// Any is good under the count of what is written of it, and comes back as written.
pub fn bare_text_comes_back<const N: usize>(
    _count: usize,
    _text: &RawBytes<'_, BareBytes<N>>,
    _back: &RawBytes<'_, BareBytes<N>>,
)
    ensures good { _count ≡ min (length (cow_slice_items _text.now.0)) N → (rest : List ℕ) →
        ⟦<RawBytes<'static, BareBytes<N>> as Wire<'static, Global>>⟧.good _count _text.now rest }
    ensures kept { ⟦<RawBytes<'static, BareBytes<N>> as Wire<'static, Global>>⟧.kept _text.now
        _back.now
        → IsBorrowedText _back.now.0 (take N (cow_slice_items _text.now.0)) }
{}

/// Any, with the zeros that fill it up; of one of more than `N` bytes these.
pub fn fixed_length_text<'a, const N: usize>(
    alloc: Global,
    buf: &mut ParseBuf<'a>,
) -> Result<RawBytes<'a, FixedLengthText<N>>, WireError>
    ensures reads { Reads
        (Parses (Some N) (λ input. Borrows (λ text. text.0) (ReadsFixed N (λ bytes. bytes) input)))
        buf.old.0.now result buf.new.0.now }
    ensures back { (text : List ℕ) → IsText text
        → ComesBackFrom (padded N text) (λ back. IsBorrowedText back.0 (padded N text)) ⊥
        buf.old.0.now result buf.new.0.now }
{
    parse_back::<'a, RawBytes<'a, FixedLengthText<N>>, Global>(alloc, (), buf)
}

/// Any is good whatever follows, and comes back with the zeros that fill it up.
pub fn fixed_length_text_comes_back<const N: usize>(
    _ctx: (),
    _text: &RawBytes<'_, FixedLengthText<N>>,
    _back: &RawBytes<'_, FixedLengthText<N>>,
)
    ensures good { (rest : List ℕ) →
        ⟦<RawBytes<'static, FixedLengthText<N>> as Wire<'static, Global>>⟧.good _ctx _text.now
        rest }
    ensures kept { ⟦<RawBytes<'static, FixedLengthText<N>> as Wire<'static, Global>>⟧.kept _text.now
        _back.now
        → IsBorrowedText _back.now.0 (padded N (cow_slice_items _text.now.0)) }
{}
