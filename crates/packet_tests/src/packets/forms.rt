// Forms that stand at no place of a session.

use crate::packets::comes_back;
use mysql_wire::constants::{CapabilityFlags, Flags, MariadbCapabilities};
use mysql_wire::misc::raw::{Either, RawBytes, RawFlags};
use mysql_wire_packets::ok_packet::{InfoForm, OkForm};
use mysql_wire_queries::column_count::ColumnCount;
use std::alloc::Global;
use test_support::fixture::Heap;

// What an update of one row says, up to the end of the payload: no server's answer is read so.
pub fn is_ok_to_the_end(heap: &Heap, alloc: Global) -> bool {
    let ok = OkForm::<0x00> {
        affected_rows: 1,
        last_insert_id: 0,
        status_flags: RawFlags::new(2),
        warnings: 0,
        info: Some(Either::Right(RawBytes::from(
            b"\x28Rows matched: 1  Changed: 1  Warnings: 0".as_slice(),
        ))),
        session_state: None,
    };
    let payload: &[u8] = b"\0\x01\0\x02\0\0\0\x28Rows matched: 1  Changed: 1  Warnings: 0";
    comes_back(heap, alloc, InfoForm::ToTheEnd, ok, payload)
}

// A count whose definitions do not follow: where an answer is read, its first byte begins an OK.
pub fn is_count_alone(heap: &Heap, alloc: Global) -> bool {
    let count = ColumnCount {
        metadata_follows: Some(0),
        column_count: 3,
        mariadb_metadata_follows: None,
    };
    let capabilities = (
        CapabilityFlags::CLIENT_OPTIONAL_RESULTSET_METADATA,
        MariadbCapabilities::empty(),
    );
    comes_back(heap, alloc, capabilities, count, b"\0\x03")
}
