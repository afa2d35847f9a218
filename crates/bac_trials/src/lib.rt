//! Tests of the lower crates: public calls of `bac_wire`, `bac_pdu`, `bac_tsm` and `bac_device`, on worked examples and
//! on damaged octets. No other crate uses this one.
#![tactic(auto)]

#[cfg(test)]
mod tests;
