//! Tests of the upper crates, `bac_text` to `bac_tools`: texts, scripts, runs, links and words, over links in memory
//! and over sockets. No other crate uses this one.
#![tactic(auto)]

#[cfg(test)]
mod tests;
