//! Worked octets.

mod apdus;
mod bodies;
pub(crate) mod datagrams;
