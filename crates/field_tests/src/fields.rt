//! Fields of each kind, over one allocator that refuses: that it is one is proved once.

use crate::constants::all_constants;
use crate::lists::are_lists;
use crate::named::are_named;
use crate::numbers::are_each;
use crate::own_constants::are_read;
use crate::rows::are_rows;
use crate::texts::all_texts;
use refusing_allocator::Refusing;
use std::alloc::Allocator;
use std::test::Fail;
use test_support::facts::all_hold;
use test_support::fixture::Heap;
use test_support::texts::letters;

fn are_fields<A: Allocator + Copy>(heap: &Heap, alloc: A, letters: &[u8]) -> [bool; 7] {
    [
        all_constants(heap, alloc),
        are_named(heap, alloc),
        are_each(heap, alloc),
        are_read(heap, alloc),
        are_rows(heap, alloc),
        all_texts(heap, alloc, letters),
        are_lists(heap, alloc),
    ]
}

#[test]
fn fields_are_written_and_read_and_others_refused(rt: HostRuntime) -> Result<(), Fail> {
    let letters = letters(rt.alloc());
    let heap = &Refusing::new(rt.alloc(), 0);
    all_hold(&are_fields(heap, heap, letters.as_slice()))
}
