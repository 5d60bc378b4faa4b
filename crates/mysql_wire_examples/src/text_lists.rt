//! Lists of texts, lent or read: one text more, a copy, and a list that owns its texts' list.

ghost use Rattle.std.specs.Prelude.{◌≡◌, Ok, OnOk, IfOk, IfErr};
ghost use Rattle.std.specs.Cow.{cow_slice_items};
ghost use Rattle.mysql_wire.specs.RawTexts.{IsOwned, IsNotOwned};
ghost use Rattle.mysql_wire.specs.Reading.{Reads};
ghost use Rattle.mysql_wire_examples.specs.TextLists.{GainsText, texts_of};
ghost use Rattle.mysql_wire.specs.WireError.TheVariants.{OutOfMemory};

use mysql_wire::io::{ParseBuf, WireError};
use mysql_wire::misc::raw::bytes::{LenEnc, RawBytes};
use mysql_wire::misc::raw::int::LeU32;
use mysql_wire::misc::raw::seq::Seq;
use mysql_wire::proto::MyDeserialize;
use std::alloc::Global;

/// Texts after their lengths, and four bytes of their number in front.
pub type Texts<'a> = Seq<'a, RawBytes<'a, LenEnc>, LeU32>;

/// Puts a text after the others.
pub fn push_text<'a>(alloc: Global, list: &mut Texts<'a>, text: &'a [u8]) -> Result<(), WireError>
    ensures ok { OnOk result (GainsText list.old.0 text.now list.new.0) }
    ensures err { IfErr result (λ error. (error ≡ OutOfMemory)
        × (cow_slice_items list.new.0 ≡ cow_slice_items list.old.0)) }
{
    list.push(alloc, RawBytes::from(text))
}

/// Reads a list of texts, and puts one after them.
pub fn read_and_push<'a>(
    alloc: Global,
    buf: &mut ParseBuf<'a>,
    text: &'a [u8],
) -> Result<Texts<'a>, WireError>
    ensures { IfOk result (λ list. (read : _)
        × Reads (⟦<Texts<'static> as MyDeserialize<'static, Global>>⟧.reads tt) buf.old.0.now (Ok read)
        buf.new.0.now × GainsText read.0 text.now list.0) }
{
    let mut list: Texts<'a> = buf.parse(alloc, ())?;
    push_text(alloc, &mut list, text)?;
    Ok(list)
}

/// The same texts, in a list of its own where the first has one.
pub fn copy_texts<'a>(alloc: Global, list: &Texts<'a>) -> Result<Texts<'a>, WireError>
    ensures ok { IfOk result (λ copy. texts_of copy.0 ≡ texts_of list.now.0) }
    ensures err { IfErr result (λ error. (error ≡ OutOfMemory) × IsOwned list.now.0) }
{
    list.clone(alloc)
}

/// The same texts, in a list that is owned.
pub fn own_texts<'a>(alloc: Global, list: Texts<'a>) -> Result<Texts<'a>, WireError>
    ensures ok { IfOk result (λ owned. IsOwned owned.0
        × (texts_of owned.0 ≡ texts_of list.entry.0)) }
    ensures err { IfErr result (λ error. (error ≡ OutOfMemory) × IsNotOwned list.entry.0) }
{
    list.into_owned(alloc)
}
