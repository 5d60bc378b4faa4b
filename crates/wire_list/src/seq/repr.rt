//! How it is written how many values a list has.

ghost use Rattle.std.specs.Prelude.{◌≡◌, ℕ, List, [], ◌++◌, length, take, min, Option, None, Result, Ok, OnOk, IfErr, refl};
ghost use Rattle.std.specs.List.{flat_map};
ghost use Rattle.wire_buf.specs.declared.error.WireError.{WireError};
ghost use Rattle.wire_buf.specs.declared.error.WireError.TheVariants.{OutOfMemory};
ghost use Rattle.wire_buf.specs.Numbers.{le_bytes};
ghost use Rattle.wire_buf.specs.Reading.{Reads, Parses, Answers};
ghost use Rattle.wire_values.specs.Elements.{ReadsAll};
ghost use Rattle.wire_list.specs.Counted.{ReadsCounted, count_at};

use std::alloc::Allocator;
use std::borrow::CowSlice;
use wire_buf::error::WireError;
use wire_buf::io::ParseBuf;
use wire_buf::proto::{MyDeserialize, MySerialize};
use wire_repr::int::{LeU32, LeU64};
use wire_values::read::read_all;
use wire_values::write::{write_counted, write_each};

/// How many values a list has, and how that is written.
///
/// As the ids of servers with their transactions, after eight bytes:
/// <https://dev.mysql.com/doc/dev/mysql-server/latest/page_protocol_com_binlog_dump_gtid.html>
pub trait SeqRepr {
    /// How many values are written at most. The others are left out.
    const MAX_LEN: usize;

    /// How many bytes a list has, which is never always the same.
    const SIZE: Option<usize>;

    /// What a reader has to know beforehand.
    type Ctx: Drop;

    ghost MAX_LEN: { ℕ };

    ghost SIZE: { Option ℕ };

    /// The bytes of a count.
    ghost front: { ℕ → List ℕ };

    /// The count that is read, and how many bytes it takes.
    ghost count: { Self.Ctx → List ℕ → Result ℕ WireError × ℕ };

    /// Appends the count and the values. Where memory for them is refused, the buffer is as it was.
    fn serialize<T: MySerialize, A: Allocator>(
        seq: &[T],
        buf: &mut Vec<u8, A>,
    ) -> Result<(), WireError>
        ensures ok { OnOk result (buf.new.items ≡ buf.old.items
            ++ (front (min (length seq.now) MAX_LEN) ++ flat_map T.bytes (take MAX_LEN seq.now))) }
        ensures err { IfErr result (λ error. (error ≡ OutOfMemory)
            × (buf.new.items ≡ buf.old.items)) };

    /// Reads the count alone.
    fn read_count(ctx: Self::Ctx, buf: &mut ParseBuf<'_>) -> Result<usize, WireError>
        ensures { Reads (λ input. Answers (count ctx input)) buf.old.0.now result buf.new.0.now };

    /// Reads the count and then the values, which are owned. Values of a size are read from a block
    /// of their own: where bytes of it are missing, that is `UnexpectedEof`, the count alone is
    /// eaten, and no memory is asked for. Otherwise `OutOfMemory` is memory for them, and the error
    /// of a value is handed on.
    final fn deserialize<'de, T: Clone + MyDeserialize<'de, A, Ctx = ()>, A: Allocator + Copy>(
        alloc: A,
        ctx: Self::Ctx,
        buf: &mut ParseBuf<'de>,
    ) -> Result<CowSlice<'de, T, A>, WireError>
    where
        Self: Sized,
        ensures { Reads (λ input. ReadsCounted (λ items. items) (count ctx input)
            (ReadsAll T.Size.SIZE (Parses T.Size.SIZE (T.reads tt))) input)
            buf.old.0.now result buf.new.0.now }
    {
        let count = Self::read_count(ctx, buf)?;
        let items = read_all(alloc, count, buf)?;
        Ok(CowSlice::Owned(items))
    }

    ghost no_size: { SIZE ≡ None };
}

/// The count stands elsewhere, and is the context.
///
/// As the parameters of a query:
/// <https://dev.mysql.com/doc/dev/mysql-server/latest/page_protocol_com_query.html>
#[derive(Clone, Copy, Debug, PartialEq, Eq, PartialOrd, Ord, Hash)]
pub struct Unknown;

impl SeqRepr for Unknown {
    const MAX_LEN: usize = usize::MAX;

    const SIZE: Option<usize> = None;

    type Ctx = usize;

    ghost MAX_LEN = { 0xffff_ffff_ffff_ffff };

    ghost SIZE = { None };

    ghost front = { λ _. [] };

    ghost count = { λ number _. (Ok number, 0) };

    fn serialize<T: MySerialize, A: Allocator>(
        seq: &[T],
        buf: &mut Vec<u8, A>,
    ) -> Result<(), WireError> {
        write_each(seq, buf)
    }

    fn read_count(ctx: usize, _: &mut ParseBuf<'_>) -> Result<usize, WireError> {
        Ok(ctx)
    }

    ghost no_size = { refl };
}

/// The count is four bytes, the least significant first, and stands before the values.
impl SeqRepr for LeU32 {
    const MAX_LEN: usize = 4_294_967_295;

    const SIZE: Option<usize> = None;

    type Ctx = ();

    ghost MAX_LEN = { 4294967295 };

    ghost SIZE = { None };

    ghost front = { le_bytes 4 };

    ghost count = { λ _. count_at 4 };

    fn serialize<T: MySerialize, A: Allocator>(
        seq: &[T],
        buf: &mut Vec<u8, A>,
    ) -> Result<(), WireError> {
        let len = std::cmp::min(seq.len(), 4_294_967_295);
        write_counted(&(len as u32).to_le_bytes(), &seq[..len], buf)
    }

    fn read_count(_: (), buf: &mut ParseBuf<'_>) -> Result<usize, WireError> {
        match buf.checked_eat_u32_le() {
            Some(count) => Ok(count as usize),
            None => Err(WireError::UnexpectedEof),
        }
    }

    ghost no_size = { refl };
}

/// The count is eight bytes, the least significant first, and stands before the values.
impl SeqRepr for LeU64 {
    const MAX_LEN: usize = usize::MAX;

    const SIZE: Option<usize> = None;

    type Ctx = ();

    ghost MAX_LEN = { 0xffff_ffff_ffff_ffff };

    ghost SIZE = { None };

    ghost front = { le_bytes 8 };

    ghost count = { λ _. count_at 8 };

    fn serialize<T: MySerialize, A: Allocator>(
        seq: &[T],
        buf: &mut Vec<u8, A>,
    ) -> Result<(), WireError> {
        write_counted(&(seq.len() as u64).to_le_bytes(), seq, buf)
    }

    fn read_count(_: (), buf: &mut ParseBuf<'_>) -> Result<usize, WireError> {
        match buf.checked_eat_u64_le() {
            Some(count) => Ok(count as usize),
            None => Err(WireError::UnexpectedEof),
        }
    }

    ghost no_size = { refl };
}
