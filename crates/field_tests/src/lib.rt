//! Tests of what packets are made of: buffers and streams; numbers, texts and constants as fields,
//! fields in a row, and lists; and the numbers of constants. What is made of such fields elsewhere,
//! `packet_tests` and `recording_tests` test.
#![tactic(auto)]

#[cfg(test)]
mod at;
#[cfg(test)]
mod calls;
#[cfg(test)]
mod const_traits;
#[cfg(test)]
mod constants;
#[cfg(test)]
mod enums;
#[cfg(test)]
mod fields;
#[cfg(test)]
mod flag_sets;
#[cfg(test)]
mod io;
#[cfg(test)]
mod lists;
#[cfg(test)]
mod memory;
#[cfg(test)]
mod named;
#[cfg(test)]
mod null;
#[cfg(test)]
mod numbers;
#[cfg(test)]
mod own_constants;
#[cfg(test)]
mod rows;
#[cfg(test)]
mod texts;
#[cfg(test)]
mod traits;
