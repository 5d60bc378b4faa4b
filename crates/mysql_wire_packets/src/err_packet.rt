//! The `ERR_Packet`.

ghost use Rattle.std.specs.Prelude.{◌≡◌, ◌<◌, ◌^◌, ◌∷◌, ◌++◌, [], length};
ghost use Rattle.std.proofs.Common.{subst};
ghost use Rattle.std.specs.Cow.{cow_slice_items};
ghost use Rattle.wire_const.specs.FlagSets.{capability_flags_bits};
ghost use Rattle.wire_buf.specs.Numbers.{le_bytes};
ghost use Rattle.wire_repr.specs.Texts.{IsText, IsBorrowedText};
ghost use Rattle.wire_buf.specs.Reading.{Through};
ghost use Rattle.mysql_wire_parts.specs.InOrder.{packet, both, const_u8, number, array, eof_text};
ghost use Rattle.mysql_wire_parts.specs.Optional.{BothIf, IsThere, OnIf, bytes_if, field, has, kept_field, optional, side};

use mysql_wire_parts::by_ref::ByRef;
use mysql_wire_parts::optional::{Optional, under};
use std::alloc::{Allocator, Global};
use wire_buf::error::WireError;
use wire_buf::io::ParseBuf;
use wire_buf::proto::{HasSize, MyDeserialize, MySerialize, Varying};
use wire_const::{CapabilityFlags, Flags};
use wire_field::row::{Both, Either};
use wire_forms::constant::{ConstU8, Skip};
use wire_forms::undelimited::EofBytes;
use wire_repr::wire::Wire;
use wire_values::text::RawBytes;

// The payload's fields, in order.
type Fields<'a> = Both<ConstU8<(), 0xff>, Both<u16, Message<'a>>>;

type Message<'a> = Both<Optional<State>, RawBytes<'a, EofBytes>>;

type State = Both<ConstU8<(), b'#'>, [u8; 5]>;

/// A command failed, or the connection is refused. The context are the capabilities that are in
/// force: under `CLIENT_PROTOCOL_41` there is a state. Before the client has answered the handshake
/// none are in force.
///
/// <https://dev.mysql.com/doc/dev/mysql-server/latest/page_protocol_basic_err_packet.html>
#[derive(Drop, Debug, PartialEq, Eq)]
pub struct ErrPacket<'a> {
    pub error_code: u16,
    /// The `SQLSTATE`, as `HY000`.
    pub sql_state: Option<[u8; 5]>,
    /// Words for people, up to the end of the payload.
    pub error_message: RawBytes<'a, EofBytes>,
}

// The field of a state.
fn field_of(state: Option<[u8; 5]>) -> Optional<State>
    ensures { result ≡ field (λ state. (_, state)) _ state }
{
    match state {
        Some(state) => Either::Left(Both(ConstU8::new(), state)),
        None => Either::Right(Skip),
    }
}

// The state of a field.
fn state_of(part: Optional<State>) -> Option<[u8; 5]>
    ensures { part ≡ field (λ state. (_, state)) _ result }
{
    match part {
        Either::Left(both) => {
            let state = both.1;
            Some(state)
        }
        Either::Right(_) => None,
    }
}

// A state in hand has its length.
fn known_state(state: &Option<[u8; 5]>)
    ensures { OnIf (λ state. length state ≡ 5) state.now }
{
    match state {
        Some(state) => <[u8; 5] as Wire<'_, Global>>::known(state),
        None => {}
    }
}

impl MySerialize for ErrPacket<'_> {
    ghost bytes = { λ err. 0xff ∷ (le_bytes 2 err.error_code
        ++ (bytes_if (λ state. 0x23 ∷ state) err.sql_state
        ++ cow_slice_items err.error_message.0)) };

    fn serialize<A: Allocator>(&self, buf: &mut Vec<u8, A>) -> Result<(), WireError> {
        let message = Both(field_of(self.sql_state), ByRef(&self.error_message));
        Both(ConstU8::<(), 0xff>::new(), Both(self.error_code, message)).serialize(buf)
    }
}

impl HasSize for ErrPacket<'_> {
    type Size = Varying;
}

impl<'de> MyDeserialize<'de, Global> for ErrPacket<'de> {
    type Ctx = CapabilityFlags;

    ghost reads = { λ ctx input. Through
        (λ err. (
          _,
          (
            err.error_code,
            (
              field (λ state. (_, state)) _ err.sql_state,
              err.error_message,
            ),
          ),
        ))
        (⟦<Fields<'de> as MyDeserialize<'de, Global>>⟧.reads
        (tt, (tt, (side (tt, tt) (has (capability_flags_bits ctx) 0x200), tt))) input) };

    fn deserialize(
        alloc: Global,
        capabilities: CapabilityFlags,
        buf: &mut ParseBuf<'de>,
    ) -> Result<Self, WireError> {
        let state = under(
            capabilities.bits(),
            CapabilityFlags::CLIENT_PROTOCOL_41,
            ((), ()),
        );
        match buf.parse::<Fields<'de>>(alloc, ((), ((), (state, ())))) {
            Ok(Both(_, Both(error_code, Both(state, error_message)))) => Ok(ErrPacket {
                error_code,
                sql_state: state_of(state),
                error_message,
            }),
            Err(error) => Err(error),
        }
    }
}

// The message takes all the rest, so it comes back where nothing stands after it.
impl<'de> Wire<'de, Global> for ErrPacket<'de> {
    ghost is_value = { λ err. (err.error_code < 2 ^ 16)
        × OnIf (λ state. length state ≡ 5) err.sql_state
        × IsText (cow_slice_items err.error_message.0) };

    ghost good = { λ ctx err rest. IsThere (has (capability_flags_bits ctx) 0x200) err.sql_state
        × (rest ≡ []) };

    ghost kept = { λ err back. (back.error_code ≡ err.error_code)
        × BothIf (λ state back. back ≡ state) err.sql_state back.sql_state
        × IsBorrowedText back.error_message.0 (cow_slice_items err.error_message.0) };

    ghost takes_memory = { ⊥ };

    fn known(&self) {
        let _code = self.error_code;
        known_state(&self.sql_state);
        self.error_message.known();
    }

    ghost comes_back = { λ ctx err rest answer eaten value good read.
        packet (⟦<Fields<'de> as MyDeserialize<'de, Global>>⟧.reads
        (tt, (tt, (side (tt, tt) (has (capability_flags_bits ctx) 0x200), tt)))) _ _
        (λ back came. let message = came.1.1 in (
          came.1.0,
          kept_field _ _ (λ state. (_, state)) (λ state back. back ≡ state) err.sql_state
              back.sql_state (λ state back came. came.1) message.0,
          message.1,
        ))
        (both const_u8 (both (number (λ n. n) 2 err.error_code value.0)
        (both (optional (⟦<State as MyDeserialize<'de, Global>>⟧.reads) (tt, tt)
        (has (capability_flags_bits ctx) 0x200) err.sql_state
        (λ state back. Unit {0} × (back.1 ≡ state)) (λ state. 0x23 ∷ state) good.0
        (λ state is. both const_u8 (array 5 state
        (subst (OnIf (λ state. length state ≡ 5)) is value.1))))
        (eof_text (λ text. text.0) (cow_slice_items err.error_message.0) good.1))))
        answer eaten read };

    ghost of_size = { λ err size _ stated. Prim.cc };
}
