//! Fields that capabilities decide on.

ghost use Rattle.std.specs.Prelude.{◌≡◌, ◌∷◌, []};
ghost use Rattle.std.specs.Cow.{cow_slice_items};
ghost use Rattle.wire_repr.specs.Texts.{IsText};
ghost use Rattle.wire_field.specs.Rows.{by_side};
ghost use Rattle.wire_buf.specs.Reading.{Through};
ghost use Rattle.mysql_wire_parts.specs.More.{if_more};
ghost use Rattle.wire_const.specs.FlagSets.{capability_flags_bits};
ghost use Rattle.mysql_wire_parts.specs.Optional.{OnIf, bytes_if, field, has, side};

use std::alloc::Global;
use std::marker::PhantomData;
use wire_buf::error::WireError;
use wire_buf::io::ParseBuf;
use wire_buf::proto::{HasSize, MyDeserialize, Varying};
use wire_const::{CapabilityFlags, Flags};
use wire_field::row::Either;
use wire_forms::constant::Skip;
use wire_forms::lenenc::LenEnc;
use wire_repr::wire::Wire;
use wire_values::text::RawBytes;

/// A field that is there, or no bytes.
pub type Optional<T> = Either<T, Skip<0>>;

/// The context of a field that is there under a flag, where these are the capabilities' bits.
pub fn under<C: Drop>(bits: u32, flag: CapabilityFlags, ctx: C) -> Either<C, ()>
    ensures { result ≡ side ctx (has bits (capability_flags_bits flag)) }
{
    if CapabilityFlags::from_bits_retain(bits).contains(flag) {
        Either::Left(ctx)
    } else {
        Either::Right(())
    }
}

/// The value of a field.
pub fn value_of<T>(part: Optional<T>) -> Option<T>
    ensures { field (λ x. x) _ result ≡ part }
{
    match part {
        Either::Left(value) => Some(value),
        Either::Right(_) => None,
    }
}

/// The field of a byte.
pub fn field_of_byte(byte: Option<u8>) -> Optional<u8>
    ensures { by_side (λ byte. byte ∷ []) (λ _. []) result ≡ bytes_if (λ byte. byte ∷ []) byte }
{
    match byte {
        Some(byte) => Either::Left(byte),
        None => Either::Right(Skip),
    }
}

/// A text in hand that may be missing.
pub fn known_text(text: &Option<RawBytes<'_, LenEnc>>)
    ensures { OnIf (λ text. IsText (cow_slice_items text.0)) text.now }
{
    match text {
        Some(text) => Wire::<'_, Global>::known(text),
        None => {}
    }
}

/// A field that is there under a condition, where the payload goes on.
#[derive(Drop)]
pub struct IfMore<T>(pub Optional<T>, pub PhantomData<T>);

impl<T: HasSize> HasSize for IfMore<T> {
    type Size = Varying<T::Size>;
}

impl<'de, T: MyDeserialize<'de, Global>> MyDeserialize<'de, Global> for IfMore<T> {
    type Ctx = Either<T::Ctx, ()>;

    ghost reads = { λ ctx input. Through (λ more. more.0)
        (⟦<Optional<T> as MyDeserialize<'de, Global>>⟧.reads (if_more ctx input) input) };

    fn deserialize(
        alloc: Global,
        ctx: Either<T::Ctx, ()>,
        buf: &mut ParseBuf<'de>,
    ) -> Result<Self, WireError> {
        let part = match buf.0.first() {
            Some(_) => buf.parse::<Optional<T>>(alloc, ctx),
            None => buf.parse::<Optional<T>>(alloc, Either::Right(())),
        };
        match part {
            Ok(part) => Ok(IfMore(part, PhantomData)),
            Err(error) => Err(error),
        }
    }
}
