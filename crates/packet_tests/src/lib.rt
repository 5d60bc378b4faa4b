//! Tests of packets: framing, chunks, the codec, limits, lending, delivery, every cutting, generated
//! streams, packets over readers and writers, and spans beside a codec. Worked examples, the cases of
//! the Rust crate's own tests, the facade's paths, the connection phase, and of packets' types what no
//! row of `recording_tests` shows.
#![tactic(auto)]

#[cfg(test)]
mod answers;
#[cfg(test)]
mod cases;
#[cfg(test)]
mod chunks;
#[cfg(test)]
mod codec;
#[cfg(test)]
mod connection_phase;
#[cfg(test)]
mod copies;
#[cfg(test)]
mod delivery;
#[cfg(test)]
mod ends;
#[cfg(test)]
mod examples;
#[cfg(test)]
mod fragmentation;
#[cfg(test)]
mod framed;
#[cfg(test)]
mod framing;
#[cfg(test)]
mod generated;
#[cfg(test)]
mod limits;
#[cfg(test)]
mod order;
#[cfg(test)]
mod packets;
#[cfg(test)]
mod paths;
#[cfg(test)]
mod reader;
#[cfg(test)]
mod relays;
#[cfg(test)]
mod skips;
#[cfg(test)]
mod spans;
#[cfg(test)]
mod taken;
#[cfg(test)]
mod writer;
