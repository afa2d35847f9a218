//! The end of a tool.
/// The end of a tool that met no fault.
#[derive(Clone, Copy, Debug, PartialEq, Eq)]
pub enum Exit {
    /// A value was read, a write was made, or a device was found.
    Good,
    /// The request ended in another way, or no device was found.
    Bad,
}
