//! Examples of callers: functions that call the libraries, each proved with a contract for its own caller. No other
//! crate uses this one.
#![tactic(auto)]

mod client;
mod device;
mod links;
mod pdu;
mod run;
mod wire;
