//! The constants that are plain numbers, and the traits of the types.

use mysql_wire::constants::{DEFAULT_MAX_ALLOWED_PACKET, MAX_PAYLOAD_LEN, MIN_COMPRESS_LENGTH};
use std::error::Error;
use std::fmt::Debug;
use std::hash::Hash;
use std::marker::PhantomData;
use wire_const::{
    CapabilityFlags, ColumnFlags, ColumnType, Command, CursorType, Flags, Flags2, GeometryType,
    ItemResult, MariadbBulkIndicator, MariadbCapabilities, SessionStateType, SqlMode, StatusFlags,
    StmtBulkExecuteFlags, StmtExecuteParamFlags, StmtExecuteParamsFlags, UTF8_GENERAL_CI,
    UTF8MB4_GENERAL_CI, UnknownCapabilityFlags, UnknownColumnFlags, UnknownColumnType,
    UnknownCursorType, UnknownFlags2, UnknownGeometryType, UnknownItemResultType,
    UnknownMariadbBulkIndicator, UnknownMariadbCapabilityFlags, UnknownSessionStateType,
    UnknownSqlMode, UnknownStatusFlags, UnknownStmtBulkExecuteParamsFlags,
    UnknownStmtExecuteParamFlags, UnknownStmtExecuteParamsFlags,
};

#[test]
fn lengths_and_collations(rt: HostRuntime) {
    let mut all = MAX_PAYLOAD_LEN == 16_777_215;
    all &= DEFAULT_MAX_ALLOWED_PACKET == 4_194_304;
    all &= MIN_COMPRESS_LENGTH == 50;
    all &= UTF8_GENERAL_CI == 33;
    all &= UTF8MB4_GENERAL_CI == 45;
    assert!(rt; all);
}

// A type that stands in one of these has its traits: with one that has not, this doesn't compile.
pub struct IsSet<T: Copy + Debug + Eq + Hash + Default + Flags>(PhantomData<T>);

pub struct IsHashed<T: Copy + Debug + Eq + Hash>(PhantomData<T>);

pub struct IsCompared<T: Copy + Debug + Eq>(PhantomData<T>);

pub struct IsError<T: Copy + Eq + Error>(PhantomData<T>);

pub struct IsHashedError<T: Copy + Eq + Hash + Error>(PhantomData<T>);

pub struct OfConstants(
    IsSet<StatusFlags>,
    IsSet<CapabilityFlags>,
    IsSet<MariadbCapabilities>,
    IsSet<CursorType>,
    IsSet<StmtExecuteParamsFlags>,
    IsSet<StmtExecuteParamFlags>,
    IsSet<StmtBulkExecuteFlags>,
    IsSet<ColumnFlags>,
    IsSet<Flags2>,
    IsSet<SqlMode>,
    IsHashedError<UnknownStatusFlags>,
    IsHashedError<UnknownCapabilityFlags>,
    IsHashedError<UnknownMariadbCapabilityFlags>,
    IsHashedError<UnknownCursorType>,
    IsHashedError<UnknownStmtExecuteParamsFlags>,
    IsHashedError<UnknownStmtExecuteParamFlags>,
    IsHashedError<UnknownStmtBulkExecuteParamsFlags>,
    IsHashedError<UnknownColumnFlags>,
    IsHashedError<UnknownFlags2>,
    IsHashedError<UnknownSqlMode>,
    IsHashed<GeometryType>,
    IsHashed<ColumnType>,
    IsHashed<ItemResult>,
    IsCompared<Command>,
    IsCompared<MariadbBulkIndicator>,
    IsCompared<SessionStateType>,
    IsError<UnknownMariadbBulkIndicator>,
    IsError<UnknownSessionStateType>,
    IsError<UnknownGeometryType>,
    IsHashedError<UnknownColumnType>,
    IsHashedError<UnknownItemResultType>,
);
