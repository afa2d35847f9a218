//! Calls of the client, and whole runs: a ReadProperty request for the present value of analog-input 5, and a device's
//! answers to it.

mod calls;
mod notebook;
mod runs;

use crate::tests::{BODY, CONTROLLER, READ_PROPERTY};
use bac_tsm::{Client, SubmitFault};

const VALUE: &[u8] = b"\x0c\x00\x00\x00\x05\x19\x55\x3e\x44\x42\x90\x99\x9a\x3f";

fn read(client: &mut Client) -> Result<u64, SubmitFault> {
    client.submit(CONTROLLER, READ_PROPERTY, &BODY)
}

/// The answer to the first read.
const ANSWER: &[u8] =
    b"\x81\x0a\x00\x17\x01\x00\x30\x01\x0c\x0c\x00\x00\x00\x05\x19\x55\x3e\x44\x42\x90\x99\x9a\x3f";
