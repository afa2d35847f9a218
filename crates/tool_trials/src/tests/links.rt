//! Tools over links in memory and over sockets.
ghost use Rattle.std.specs.Prelude.{◌≡◌, false};

mod devices;
mod errors;
mod failing;
mod offers;
mod requests;
mod sockets;
mod watching;

use crate::tests::{CONTROLLER, I_AM, OTHER, VALUE, WHO_IS, is_text};
use arrayvec::ArrayVec;
use bac_device::{Device, DeviceInfo, demo};
use bac_links::{
    Exit, Link, LinkFault, MemoryLink, Step, ToolFault, run_read, run_whois, run_write, serve,
};
use bac_pdu::{Peer, WhoIs};
use bac_print::Checked;
use bac_text::{Call, Search};
use std::alloc::Global;
use std::io::Write;
use std::process::Abort;
use std::test::Fail;

/// A request for the present value of analog-input 5: the body, and its datagram.
const BODY: &[u8] = b"\x0c\x00\x00\x00\x05\x19\x55";

const ASK: &[u8] = b"\x81\x0a\x00\x11\x01\x04\x00\x05\x01\x0c\x0c\x00\x00\x00\x05\x19\x55";

/// Returns a call to CONTROLLER with this body.
fn call_of(timeout: u32, retries: u8, body: &[u8]) -> Call {
    let mut kept = ArrayVec::new();
    let _ = kept.try_extend_from_slice(body);
    Call {
        to: CONTROLLER,
        timeout,
        retries,
        port: 0,
        body: kept,
    }
}

/// A search for all devices, sent to CONTROLLER.
const SEARCH: Search = Search {
    to: CONTROLLER,
    timeout: 3_000,
    port: 0,
    who: WhoIs::All,
};

/// The task of a tool.
#[derive(Clone, Copy)]
enum Job<'a> {
    Read(&'a Call),
    Write(&'a Call),
    Search(&'a Search),
}

type Got = Result<Exit, ToolFault>;

/// The number of replies that a device sent.
type Served = Result<u32, ToolFault>;

/// The result of a test, if the link can be made.
type Is = Result<bool, LinkFault>;

/// Runs the job over this link and writer. A timeout of 0 is refused.
fn run_job<L: Link, W: Write + Drop>(job: Job<'_>, link: &mut L, writer: W) -> Got
    requires { L.has_failed link.old ≡ false }
{
    let mut writer = Checked::new(writer);
    match job {
        Job::Read(call) if call.timeout > 0 => run_read(call, link, &mut writer),
        Job::Write(call) if call.timeout > 0 => run_write(call, link, &mut writer),
        Job::Search(search) if search.timeout > 0 => run_whois(search, link, &mut writer),
        _ => Err(ToolFault::TurnsSpent),
    }
}

/// Returns the demonstration device 1234.
fn small_device() -> Option<Device> {
    Some(demo(DeviceInfo::new(1_234, "Small device")?))
}

/// The end of a tool over a link in memory: its answer, the text that it prints, and its sends with their times.
type End<'a> = (Got, &'a str, &'a [(u64, &'a [u8])]);

/// Returns whether the job has this end over these steps, if the send with this number fails.
fn ends(alloc: Global, job: Job<'_>, steps: &[Step<'_>], fail: Option<u32>, end: End<'_>) -> bool {
    let Ok(mut link) = MemoryLink::new(alloc, steps, fail) else {
        return false;
    };
    let mut room = [0xff; 96];
    let got = run_job(job, &mut link, room.as_mut_slice());
    got == end.0 && is_text(&room, end.1) && has_sent(&link, CONTROLLER, end.2)
}

/// Returns the steps of a link that is silent until all turns are spent.
pub(crate) fn quiet<H: Abort + AllocGlobal>(rt: &H) -> Vec<Step<'static>> {
    vec![in rt.alloc(); Step::Quiet(0); 65_536].expect(rt, "memory")
}

/// Returns whether exactly these datagrams were sent to the peer at these times.
fn has_sent(link: &MemoryLink, to: Peer, sent: &[(u64, &[u8])]) -> bool {
    for (n, (time, datagram)) in sent.iter().enumerate() {
        if link.sent(n) != Some((*time, to, *datagram)) {
            return false;
        }
    }
    link.sent(sent.len()).is_none()
}
