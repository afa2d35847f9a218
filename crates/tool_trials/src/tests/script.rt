//! Scripts run over memory: readers and writers that fail, and texts of outcomes and values.

mod failing;
mod texts;
