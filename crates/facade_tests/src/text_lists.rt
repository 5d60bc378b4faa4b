//! Lists of texts, and maps of fields as they were read, run.

use mysql_wire::io::{ParseBuf, WireError};
use mysql_wire::misc::raw::bytes::{EofBytes, LenEnc, RawBytes};
use mysql_wire::misc::raw::int::{LeU32, RawInt};
use mysql_wire::misc::raw::seq::Seq;
use mysql_wire_examples::keyed::{note_schema, note_statement, parameters_of, times_of};
use mysql_wire_examples::text_lists::{Texts, copy_texts, own_texts, push_text, read_and_push};
use std::alloc::Global;
use std::borrow::CowSlice;
use std::collections::{BTreeMap, HashMap};
use std::test::Fail;
use test_support::facts::{all_hold, same};

fn are(list: &[RawBytes<'_, LenEnc>], texts: &[&[u8]]) -> bool {
    let mut all = list.len() == texts.len();
    for i in 0..list.len().min(texts.len()) {
        all &= same(list[i].as_bytes(), texts[i]);
    }
    all
}

// Whether a list that was made has these texts.
fn is_list(made: Result<Texts<'_>, WireError>, texts: &[&[u8]]) -> bool {
    match made {
        Ok(list) => are(list.as_slice(), texts),
        Err(_) => false,
    }
}

// Whether the copy of a list that is lent has this text, and is lent too.
fn is_lent(alloc: Global, list: &Texts<'_>, text: &[u8]) -> bool {
    match copy_texts(alloc, list) {
        Ok(copy) => are(copy.as_slice(), &[text]) & matches!(copy.0, CowSlice::Borrowed(_)),
        Err(_) => false,
    }
}

// Whether a list that is lent has one text more, and its copies are the same.
fn is_pushed<'a>(alloc: Global, one: &'a [RawBytes<'a, LenEnc>]) -> bool {
    let wanted: &[&[u8]] = &[b"a", b"bc"];
    let mut list: Texts<'a> = Seq::new(CowSlice::Borrowed(one));
    let mut all = is_lent(alloc, &list, b"a");
    all &= push_text(alloc, &mut list, b"bc").is_ok() & are(list.as_slice(), wanted);
    all &= is_list(copy_texts(alloc, &list), wanted);
    all & is_list(own_texts(alloc, list), wanted)
}

fn is_read_and_pushed(alloc: Global) -> bool {
    let mut buf = ParseBuf(b"\x01\0\0\0\x02ab\xff");
    is_list(read_and_push(alloc, &mut buf, b"c"), &[b"ab", b"c"]) & (buf.len() == 1)
}

fn are_statements(alloc: Global) -> bool {
    let mut statements = HashMap::new(alloc);
    let mut all = note_statement(&mut statements, RawInt::<LeU32>::new(7), 2).is_ok();
    all &= note_statement(&mut statements, RawInt::new(8), 3).is_ok();
    all &= note_statement(&mut statements, RawInt::new(7), 4).is_ok();
    all &= parameters_of(&statements, RawInt::new(7)) == Some(4);
    all &= parameters_of(&statements, RawInt::new(8)) == Some(3);
    all & parameters_of(&statements, RawInt::new(9)).is_none()
}

// A name that is owned is that of the same bytes that are lent.
fn are_schemas(alloc: Global, owned: &RawBytes<'_, EofBytes>) -> bool {
    let mut schemas = BTreeMap::new(alloc);
    let mut all = note_schema(&mut schemas, RawBytes::from(b"ab".as_slice()), 1).is_ok();
    all &= note_schema(&mut schemas, RawBytes::from(b"b".as_slice()), 2).is_ok();
    all &= times_of(&schemas, owned) == Some(1);
    all & times_of(&schemas, &RawBytes::from(b"a".as_slice())).is_none()
}

#[test]
fn texts_are_pushed_and_copied(rt: HostRuntime) -> Result<(), Fail> {
    let one = [RawBytes::from(b"a".as_slice())];
    all_hold(&[is_pushed(rt.alloc(), &one), is_read_and_pushed(rt.alloc())])
}

#[test]
fn fields_are_keys(rt: HostRuntime) -> Result<(), Fail> {
    let owned = RawBytes::from(Vec::from_slice(rt.alloc(), b"ab")?);
    all_hold(&[are_statements(rt.alloc()), are_schemas(rt.alloc(), &owned)])
}
