//! `COM_CHANGE_USER`.

ghost use Rattle.std.specs.Prelude.{◌≡◌, ◌<◌, ◌^◌, ◌∷◌, ◌++◌, [], Some, true};
ghost use Rattle.std.proofs.Common.{subst};
ghost use Rattle.std.specs.Cow.{cow_slice_items};
ghost use Rattle.wire_const.specs.FlagSets.{capability_flags_bits};
ghost use Rattle.wire_buf.specs.Numbers.{le_bytes};
ghost use Rattle.wire_repr.specs.Texts.{IsText, IsBorrowedText};
ghost use Rattle.wire_buf.specs.Reading.{Parses, Through};
ghost use Rattle.mysql_wire_utility.specs.Changes.{attrs_bytes, change_fields, name_bytes, set_bytes, user_bytes};
ghost use Rattle.mysql_wire_parts.specs.InOrder.{packet, both, const_u8, lenenc_text, number, text_bytes, u8_cut, u8_text};
ghost use Rattle.mysql_wire_parts.specs.More.{more, there_if};
ghost use Rattle.mysql_wire_parts.specs.NullTexts.{clean, null_text};
ghost use Rattle.mysql_wire_parts.specs.Optional.{BothIf, IsThere, OnIf, has, kept_field, side};

use mysql_wire_parts::by_ref::{ByRef, ByRefIf};
use mysql_wire_parts::optional::{IfMore, known_text, under, value_of};
use std::alloc::{Allocator, Global};
use wire_buf::error::WireError;
use wire_buf::io::ParseBuf;
use wire_buf::proto::{HasSize, MyDeserialize, MySerialize, Varying};
use wire_const::{CapabilityFlags, Flags};
use wire_field::row::{Both, Either};
use wire_forms::constant::ConstU8;
use wire_forms::lenenc::LenEnc;
use wire_forms::null::NullBytes;
use wire_forms::prefixed::U8Bytes;
use wire_repr::wire::Wire;
use wire_values::text::RawBytes;

// The payload's fields, in order.
type Fields<'a> = Both<User<'a>, More<'a>>;

type User<'a> = Both<ConstU8<(), 0x11>, Both<RawBytes<'a, NullBytes>, Answer<'a>>>;

type Answer<'a> = Both<RawBytes<'a, U8Bytes>, RawBytes<'a, NullBytes>>;

type More<'a> = Both<IfMore<u16>, Plugin<'a>>;

type Plugin<'a> = Both<IfMore<RawBytes<'a, NullBytes>>, IfMore<RawBytes<'a, LenEnc>>>;

/// `COM_CHANGE_USER`: another user goes on with the connection, whose session begins anew. The
/// context are the capabilities of the connection.
///
/// After the name of the database the payload may end before each field.
///
/// <https://dev.mysql.com/doc/dev/mysql-server/latest/page_protocol_com_change_user.html>
#[derive(Drop, Debug, PartialEq, Eq)]
pub struct ComChangeUser<'a> {
    pub user: RawBytes<'a, NullBytes>,
    pub auth_plugin_data: RawBytes<'a, U8Bytes>,
    pub database: RawBytes<'a, NullBytes>,
    /// The number of a collation.
    pub character_set: Option<u16>,
    /// There under `CLIENT_PLUGIN_AUTH`, where the payload goes on.
    pub auth_plugin_name: Option<RawBytes<'a, NullBytes>>,
    /// Keys and values in turn, each after its length, there under `CLIENT_CONNECT_ATTRS`, where
    /// the payload goes on.
    pub connect_attrs: Option<RawBytes<'a, LenEnc>>,
}

// A command of its fields.
fn of_fields<'a>(fields: Fields<'a>) -> ComChangeUser<'a>
    ensures { change_fields result ≡ fields.entry }
{
    let Both(Both(_, Both(user, Both(auth_plugin_data, database))), more) = fields;
    let Both(IfMore(set, _), Both(IfMore(name, _), IfMore(attrs, _))) = more;
    ComChangeUser {
        user,
        auth_plugin_data,
        database,
        character_set: value_of(set),
        auth_plugin_name: value_of(name),
        connect_attrs: value_of(attrs),
    }
}

// A collation's number in hand is one.
fn known_set(set: &Option<u16>)
    ensures { OnIf (λ set. set < 2 ^ 16) set.now }
{
    match set {
        Some(set) => {
            let _set = *set;
        }
        None => {}
    }
}

impl MySerialize for ComChangeUser<'_> {
    ghost bytes = { λ command. user_bytes command
        ++ (set_bytes command ++ (name_bytes command ++ attrs_bytes command)) };

    fn serialize<A: Allocator>(&self, buf: &mut Vec<u8, A>) -> Result<(), WireError> {
        let answer = Both(ByRef(&self.auth_plugin_data), ByRef(&self.database));
        let user = Both(ByRef(&self.user), answer);
        let plugin = Both(
            ByRefIf(&self.auth_plugin_name),
            ByRefIf(&self.connect_attrs),
        );
        let more = Both(ByRefIf(&self.character_set), plugin);
        Both(Both(ConstU8::<(), 0x11>::new(), user), more).serialize(buf)
    }
}

impl HasSize for ComChangeUser<'_> {
    type Size = Varying;
}

impl<'de> MyDeserialize<'de, Global> for ComChangeUser<'de> {
    type Ctx = CapabilityFlags;

    ghost reads = { λ ctx input. Through
        change_fields
        (⟦<Fields<'de> as MyDeserialize<'de, Global>>⟧.reads (
          (tt, (tt, (tt, tt))),
          (
            side tt true,
            (
              side tt (has (capability_flags_bits ctx) 0x80000),
              side tt (has (capability_flags_bits ctx) 0x100000),
            ),
          ),
        ) input) };

    // A call: few connections have one, and what reads packets of any kind stays small.
    #[inline(never)]
    fn deserialize(
        alloc: Global,
        capabilities: CapabilityFlags,
        buf: &mut ParseBuf<'de>,
    ) -> Result<Self, WireError> {
        let bits = capabilities.bits();
        let name = under(bits, CapabilityFlags::CLIENT_PLUGIN_AUTH, ());
        let attrs = under(bits, CapabilityFlags::CLIENT_CONNECT_ATTRS, ());
        let user = ((), ((), ((), ())));
        let more = (Either::Left(()), (name, attrs));
        match Fields::deserialize(alloc, (user, more), buf) {
            Ok(fields) => Ok(of_fields(fields)),
            Err(error) => Err(error),
        }
    }
}

impl<'de> Wire<'de, Global> for ComChangeUser<'de> {
    ghost is_value = { λ command. record {
      character_set : OnIf (λ set. set < 2 ^ 16) command.character_set;
      connect_attrs : OnIf (λ attrs. IsText (cow_slice_items attrs.0)) command.connect_attrs;
    } };

    // Each field is there just where its flag is set and the payload goes on.
    ghost good = { λ ctx command rest. record {
      character_set : IsThere (there_if true (set_bytes command
          ++ ((name_bytes command ++ attrs_bytes command) ++ rest))) command.character_set;
      auth_plugin_name : IsThere (there_if (has (capability_flags_bits ctx) 0x80000)
          (name_bytes command ++ (attrs_bytes command ++ rest))) command.auth_plugin_name;
      connect_attrs : IsThere (there_if (has (capability_flags_bits ctx) 0x100000)
          (attrs_bytes command ++ rest)) command.connect_attrs;
    } };

    ghost kept = { λ command back. record {
      user : IsBorrowedText back.user.0 (clean command.user.0);
      auth_plugin_data : IsBorrowedText back.auth_plugin_data.0 (u8_cut command.auth_plugin_data.0);
      database : IsBorrowedText back.database.0 (clean command.database.0);
      character_set : BothIf (λ set back. back ≡ set) command.character_set back.character_set;
      auth_plugin_name : BothIf (λ name back. IsBorrowedText back.0 (clean name.0))
          command.auth_plugin_name back.auth_plugin_name;
      connect_attrs : BothIf (λ attrs back. IsBorrowedText back.0 (cow_slice_items attrs.0))
          command.connect_attrs back.connect_attrs;
    } };

    ghost takes_memory = { ⊥ };

    fn known(&self) {
        known_set(&self.character_set);
        known_text(&self.connect_attrs);
    }

    ghost comes_back = { λ ctx command rest answer eaten value good read.
        packet (⟦<Fields<'de> as MyDeserialize<'de, Global>>⟧.reads (
          (tt, (tt, (tt, tt))),
          (
            side tt true,
            (
              side tt (has (capability_flags_bits ctx) 0x80000),
              side tt (has (capability_flags_bits ctx) 0x100000),
            ),
          ),
        )) _ _
        (λ back came. record {
          user = came.0.1.0;
          auth_plugin_data = came.0.1.1.0;
          database = came.0.1.1.1;
          character_set = kept_field (λ set field. field ≡ set) _ (λ set. set)
              (λ set back. back ≡ set) command.character_set back.character_set
              (λ set back same. same) came.1.0;
          auth_plugin_name = kept_field (λ name field. IsBorrowedText field.0 (clean name.0)) _
              (λ name. name) (λ name back. IsBorrowedText back.0 (clean name.0))
              command.auth_plugin_name back.auth_plugin_name (λ name back same. same) came.1.1.0;
          connect_attrs = kept_field
              (λ attrs field. IsBorrowedText field.0 (cow_slice_items attrs.0)) _
              (λ attrs. attrs) (λ attrs back. IsBorrowedText back.0 (cow_slice_items attrs.0))
              command.connect_attrs back.connect_attrs (λ attrs back same. same) came.1.1.1;
        })
        (both (both const_u8 (both (null_text (λ text. text.0) (cow_slice_items command.user.0))
        (both (u8_text (λ text. text.0) (cow_slice_items command.auth_plugin_data.0))
        (null_text (λ text. text.0) (cow_slice_items command.database.0)))))
        (both (more (λ more. more.0) (λ ctx. Parses (Some 2)
        (⟦<u16 as MyDeserialize<'de, Global>>⟧.reads ctx)) tt true
        command.character_set (λ set field. field ≡ set) (λ set. le_bytes 2 set)
        good.character_set (λ set is. number (λ n. n) 2 set
        (subst (OnIf (λ set. set < 2 ^ 16)) is value.character_set)))
        (both (more (λ more. more.0)
        (⟦<RawBytes<'de, NullBytes> as MyDeserialize<'de, Global>>⟧.reads) tt
        (has (capability_flags_bits ctx) 0x80000) command.auth_plugin_name
        (λ name field. IsBorrowedText field.0 (clean name.0)) (λ name. clean name.0 ++ 0 ∷ [])
        good.auth_plugin_name
        (λ name is. null_text (λ text. text.0) (cow_slice_items name.0)))
        (more (λ more. more.0)
        (⟦<RawBytes<'de, LenEnc> as MyDeserialize<'de, Global>>⟧.reads) tt
        (has (capability_flags_bits ctx) 0x100000) command.connect_attrs
        (λ attrs field. IsBorrowedText field.0 (cow_slice_items attrs.0))
        (λ attrs. text_bytes attrs.0) good.connect_attrs
        (λ attrs is. lenenc_text (λ text. text.0) (cow_slice_items attrs.0)
        (subst (OnIf (λ attrs. IsText (cow_slice_items attrs.0))) is value.connect_attrs))))))
        answer eaten read };

    ghost of_size = { λ command size _ stated. Prim.cc };
}
