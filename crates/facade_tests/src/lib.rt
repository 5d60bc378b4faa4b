//! What the crates above the layers do: the callers of `mysql_wire_examples`, run, and the program's
//! commands over bytes in memory. And memory: every call of the layers under refused memory, what it
//! leaves then and how it goes on (`test_support` has the calls), how much calls ask for, and an
//! answer counted by a session, with each request refused.
#![tactic(auto)]

#[cfg(test)]
mod both_ends;
#[cfg(test)]
mod budget;
#[cfg(test)]
mod callers;
#[cfg(test)]
mod commands;
#[cfg(test)]
mod counted;
#[cfg(test)]
mod field_callers;
#[cfg(test)]
mod in_place;
#[cfg(test)]
mod long_packet;
#[cfg(test)]
mod measured;
#[cfg(test)]
mod memory;
#[cfg(test)]
mod own_fields;
#[cfg(test)]
mod recorded;
#[cfg(test)]
mod session;
#[cfg(test)]
mod sockets;
#[cfg(test)]
mod text_lists;
#[cfg(test)]
mod values;
