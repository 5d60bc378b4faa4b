//! Of packets what no row of `recording_tests` shows.

mod forms;
mod values;

use forms::{is_count_alone, is_ok_to_the_end};
use mysql_wire::proto::{MyDeserialize, MySerialize};
use refusing_allocator::Refusing;
use std::alloc::Global;
use std::test::Fail;
use test_support::facts::all_hold;
use test_support::fields::{gives, is_written};
use test_support::fixture::Heap;
use values::are_refused;

/// Whether a packet is written as a payload, whichever request for memory is refused, and read from
/// it. It is handed over, so that one function lets go those of all types.
pub fn comes_back<'de, T, C>(
    heap: &Heap,
    alloc: Global,
    ctx: C,
    packet: T,
    payload: &'de [u8],
) -> bool
where
    T: Drop + PartialEq + MySerialize + MyDeserialize<'de, Global, Ctx = C>,
{
    let is_written = is_written(heap, &packet, payload);
    is_written & gives::<T, C, Global>(alloc, ctx, payload, &packet, 0)
}

#[test]
fn forms_and_values_are_read(rt: HostRuntime) -> Result<(), Fail> {
    let alloc = rt.alloc();
    let heap = Refusing::new(alloc, 0);
    all_hold(&[
        is_ok_to_the_end(&heap, alloc),
        is_count_alone(&heap, alloc),
        are_refused(alloc),
    ])
}
