//! Generated streams: each run is compared with the reference reading of the whole stream.

use std::alloc::Global;
use std::test::Fail;
use test_support::answers::Answer;
use test_support::case::Case;
use test_support::facts::{all_hold, no_row};
use test_support::generated::{Draws, Stream, pieces_of};
use test_support::reference::low_byte;

// Whether a stream is delivered as its reading says, cut at drawn places.
fn drawn_agrees(alloc: Global, draws: &mut Draws, case: &Case) -> bool {
    match pieces_of(alloc, draws, case.stream) {
        Ok(pieces) => case.agrees(alloc, b"", pieces.as_slice(), 0),
        Err(_) => false,
    }
}

// How the generated stream of this seed stops, if it agrees.
fn generated_agrees(alloc: Global, seed: u64) -> Option<Answer> {
    let mut draws = Draws::new(seed);
    let first_id = low_byte(draws.one_of(&[0, 0, 1, 253, 255]));
    let Ok(stream) = Stream::damaged(alloc, &mut draws, first_id) else {
        return None;
    };
    let limit = stream.limit(&mut draws);
    let Ok(case) = Case::new(alloc, first_id, limit, stream.bytes.as_slice()) else {
        return None;
    };
    drawn_agrees(alloc, &mut draws, &case).then_some(case.reading.answer)
}

#[test]
fn generated_streams_agree(rt: HostRuntime) -> Result<(), Fail> {
    let (mut whole, mut too_large, mut out_of_sync) = (0u64, 0u64, 0u64);
    let mut wrong = None;
    for seed in 0..2000usize {
        match generated_agrees(rt.alloc(), seed as u64) {
            Some(Answer::TooLarge) => too_large = too_large.wrapping_add(1),
            Some(Answer::OutOfSync) => out_of_sync = out_of_sync.wrapping_add(1),
            Some(_) => whole = whole.wrapping_add(1),
            None => wrong = Some(seed),
        }
    }
    no_row(wrong)?;
    // Each end comes often.
    all_hold(&[whole > 200, too_large > 200, out_of_sync > 200])
}
