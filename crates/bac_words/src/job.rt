//! What the words of a command line ask for.
use bac_device::DeviceInfo;
use bac_text::{Call, Search};

/// The task of the program.
#[derive(Drop)]
pub enum Job {
    /// Runs a script: `bactrace`. It has no socket.
    Trace,
    /// Makes many requests over one socket: `bacrun`.
    Run(Batch),
    /// Uses a tool over a socket.
    Use(Tool),
}

/// A tool that has a socket.
#[derive(Drop)]
pub enum Tool {
    /// Reads a property: `bacrp`.
    Read(Call),
    /// Writes a property: `bacwp`.
    Write(Call),
    /// Searches for devices: `bacwi`.
    WhoIs(Search),
    /// Plays a device: `bacdev`.
    Device(Serve),
}

/// Many requests, each a line of the input.
#[derive(Drop)]
pub struct Batch {
    /// Milliseconds until a request is sent again or given up, at least 1.
    pub timeout: u32,
    /// How often a request is sent again.
    pub retries: u8,
    /// The port that requests are sent from; 0 is any.
    pub port: u16,
    /// How many requests are open at most, at least 1.
    pub window: u32,
}

/// A device to be run.
#[derive(Drop)]
pub struct Serve {
    /// The device's instance and name.
    pub info: DeviceInfo,
    /// The port that the device listens at; 0 is any.
    pub port: u16,
    /// The number of datagrams after which the device ends, at least 1.
    pub count: u32,
}
