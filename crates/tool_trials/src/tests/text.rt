//! Readers and writers that fail. Peers are in tests/program/rows.

mod checked;
