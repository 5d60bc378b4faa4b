//! The fields of each packet, by MySQL's names.

ghost use Rattle.std.specs.Cow.{cow_slice_items};
ghost use Rattle.std.specs.Prelude.{◌≡◌, List, OnOk};
ghost use Rattle.wire_field.specs.Rows.{by_side};
ghost use Rattle.wire_text.specs.FieldTables.{members_in, row_if};
ghost use Rattle.wire_text.specs.Fields.{Member, Number, Octets, Puts, Words};

mod answers;
mod commands;
mod connection;
mod long_row;
mod packet;
mod row_end;
mod unread;
mod values;

pub use commands::number_of_statement;
pub use long_row::write_text_row;
pub use packet::{show_packet, show_row, write_row};
use std::alloc::{AllocError, Allocator};
pub use unread::{column_bytes, event, other_command, row_bytes, statistics};
pub use values::{binary_row, text_row};
use wire_field::row::Either;
use wire_repr::text::BytesRepr;
use wire_text::fields::{Field, Fields};
use wire_values::text::RawBytes;

/// A packet that has fields.
pub trait Show {
    /// Its fields, by MySQL's names.
    ghost members: { Self → List Member };

    /// Puts its fields.
    fn show<A: Allocator + Copy>(&self, fields: &mut Fields<A>) -> Result<(), AllocError>
        ensures { OnOk result (Puts (members self.now) fields.old fields.new) };
}

// A text, where it is there.
fn words_if<'a, T: BytesRepr>(name: &'a str, text: &'a Option<RawBytes<'_, T>>) -> Field<'a>
    ensures { members_in result
        ≡ row_if (λ text. (name.now, Words (cow_slice_items text.0))) text.now }
{
    match text {
        Some(text) => Field::Text(name, text.0.as_slice()),
        None => Field::Missing,
    }
}

// Bytes, where they are there.
fn bytes_if<'a, T: BytesRepr>(name: &'a str, bytes: &'a Option<RawBytes<'_, T>>) -> Field<'a>
    ensures { members_in result
        ≡ row_if (λ bytes. (name.now, Octets (cow_slice_items bytes.0))) bytes.now }
{
    match bytes {
        Some(bytes) => Field::Bytes(name, bytes.0.as_slice()),
        None => Field::Missing,
    }
}

// A number, where it is there.
fn number_if<'a>(name: &'a str, number: Option<u8>) -> Field<'a>
    ensures { members_in result
        ≡ row_if (λ number. (name.now, Number number)) number }
{
    match number {
        Some(number) => Field::Number(name, number as u64),
        None => Field::Missing,
    }
}

// The bytes of a text in one of two forms.
fn of_side<'a, T: BytesRepr, U: BytesRepr>(
    text: &'a Either<RawBytes<'_, T>, RawBytes<'_, U>>,
) -> &'a [u8]
    ensures { result.now
        ≡ by_side (λ text. cow_slice_items text.0) (λ text. cow_slice_items text.0) text.now }
{
    match text {
        Either::Left(text) => text.0.as_slice(),
        Either::Right(text) => text.0.as_slice(),
    }
}

// Such a text, where it is there.
fn side_if<'a, T: BytesRepr, U: BytesRepr>(
    name: &'a str,
    text: &'a Option<Either<RawBytes<'_, T>, RawBytes<'_, U>>>,
) -> Field<'a>
    ensures { members_in result ≡ row_if (λ text. (
      name.now,
      Words (by_side
          (λ text. cow_slice_items text.0) (λ text. cow_slice_items text.0) text),
    )) text.now }
{
    match text {
        Some(text) => Field::Text(name, of_side(text)),
        None => Field::Missing,
    }
}
