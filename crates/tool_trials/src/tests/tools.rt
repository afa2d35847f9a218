//! From words to the printed text and the status, over links in memory.
ghost use Rattle.std.specs.Prelude.{◌≡◌, [], map, IfOk};
ghost use Rattle.bac_links.specs.Memory.{account_of, scene_of_step};

use super::*;
use crate::tests::links::quiet;
use bac_links::{Link, LinkFault, MemoryLink, OnRefusal, Step, ToolFault};
use bac_tools::{Binding, Network, Report, RunFault, TraceFault, run_program};
use std::alloc::Global;
use std::cell::Cell;
use std::io::{self, ErrorKind};
use std::{env, fmt};

/// Gives links with these steps if the socket has this port at every address and treats a refused reply in this way.
/// Counts the requests for a socket.
#[derive(Clone, Copy)]
struct Rehearsal<'a, 'c> {
    alloc: Global,
    steps: &'a [Step<'a>],
    at: (u16, OnRefusal),
    asked: &'c Cell<u32>,
}

impl Network for Rehearsal<'_, '_> {
    type Socket = MemoryLink;

    type NoSocket = LinkFault;

    ghost gives = { λ network binding socket.
        IfOk socket (λ link. ⟦<MemoryLink as Link>⟧.seen link ≡ account_of (map scene_of_step network.steps.now) []) };

    fn bind(self, binding: Binding) -> Result<MemoryLink, LinkFault> {
        self.asked.set(self.asked.get().saturating_add(1));
        let (port, refused) = self.at;
        let any = Peer {
            ip: 0,
            ..CONTROLLER
        };
        if binding.at != (Peer { port, ..any }) || binding.refused != refused {
            return Err(LinkFault);
        }
        MemoryLink::new(self.alloc, self.steps, None)
    }
}

/// Returns whether the program, called with these words over this network and a script, prints this text and ends with
/// this status and fault.
fn runs(
    typed: io::Result<env::Args>,
    network: Rehearsal<'_, '_>,
    (text, status, fault): (&str, u8, &str),
) -> bool {
    let alloc = network.alloc;
    let (mut room, mut errors) = ([0xff; 96], [0xff; 96]);
    let (writer, told) = (room.as_mut_slice(), errors.as_mut_slice());
    let report = run_program(alloc, typed, network, SCRIPT, writer, told)
        .ran
        .report;
    is_text(&room, text) && report.status == status && is_told(alloc, &report, &errors, fault)
}

/// Returns the words of the line.
fn words_typed(alloc: Global, line: &str) -> io::Result<env::Args> {
    let mut typed = Vec::new(alloc);
    for word in line.split(' ') {
        typed.push(String::from_str(alloc, word)?)?;
    }
    Ok(typed.into_iter())
}

/// Returns whether the report has the fault with this text and its line was printed, or has no fault if there is no
/// text.
fn is_told(alloc: Global, report: &Report, errors: &[u8; 96], text: &str) -> bool {
    let Some(fault) = &report.fault else {
        return text.is_empty() && is_text(errors, "");
    };
    is_shown(alloc, fault, text)
        && matches!(format!(in alloc; "bactool: {text}\n"), Ok(line) if is_text(errors, line.as_str()))
}

/// Returns whether this value is displayed as this text.
pub(crate) fn is_shown<T: fmt::Display>(alloc: Global, it: &T, text: &str) -> bool {
    matches!(format!(in alloc; "{it}"), Ok(said) if said.as_str() == text)
}

const READ: &str = "/usr/bin/bacrp 1234 0 5 85 --mac 127.0.0.1";

const READ_AT_9: &str = "bactool bacrp 1234 0 5 85 --mac 127.0.0.1 --port 9";

const READ_NOWHERE: &str = "bactool bacrp 1234 0 5 85 --mac 1.2.3";

const WRITE: &str = "bactool bacwp 1234 1 1 85 16 -1 4 41a00000 --mac 127.0.0.1 --apdu-timeout 10";

const SEARCH: &str = "bactool bacwi --mac 127.0.0.1";

const SERVE: &str = "bactool bacdev 1234 --count 2";

const RUN: &str = "bacrun --apdu-timeout 10 --apdu-retries 0";

const RUN_AT_9: &str = "bactool bacrun --port 9";

/// The beginning of a journal that the room holds.
const FRONT: &str = "client 10 0 0\nread 127.0.0.1:47808 0 5 85\n\
    # send 0 127.0.0.1:47808 810a001101040005010c0c0000000";

const TRACE: &str = "bactool bactrace";

const SCRIPT: &[u8] = b"read 127.0.0.1:47808 0 5 85\ntick x\n";

const SENT: &str = "send 0 127.0.0.1:47808 810a001101040005010c0c000000051955\n";

const CLIENT: (u16, OnRefusal) = (0, OnRefusal::Fails);

const MANY: (u16, OnRefusal) = (0, OnRefusal::IsLost);

const DEVICE: (u16, OnRefusal) = (47_808, OnRefusal::IsLost);

const UNBOUND: (&str, u8, &str) = ("", 3, "bind failed");

/// The words of a line, and the port of the socket that they ask for; the printed text, the status and the fault.
type Row<'a> = (&'a str, (u16, OnRefusal), (&'a str, u8, &'a str));

/// Command lines over a network that answers a read. Only many requests go on if one is refused.
static ANSWERED: [Row<'static>; 8] = [
    (READ, CLIENT, ("4290999a\n", 0, "")),
    (WRITE, CLIENT, ("timeout\n", 1, "")),
    (READ_AT_9, CLIENT, UNBOUND),
    (READ_NOWHERE, CLIENT, ("", 2, "bad mac")),
    (RUN, MANY, (FRONT, 3, "writing failed")),
    (RUN, CLIENT, UNBOUND),
    (RUN_AT_9, MANY, UNBOUND),
    (TRACE, CLIENT, (SENT, 2, "line 2: bad line")),
];

/// Command lines over a network in which a device introduces itself.
static FOUND: [Row<'static>; 2] = [
    (SEARCH, CLIENT, ("1234 127.0.0.1:47808 1476 3 260\n", 0, "")),
    (SEARCH, (0, OnRefusal::IsLost), UNBOUND),
];

/// Command lines over a network that sends requests to a device. Only a device continues if a reply is refused.
static ASKED: [Row<'static>; 3] = [
    (SERVE, DEVICE, ("", 0, "")),
    (SEARCH, DEVICE, UNBOUND),
    (SERVE, (47_808, OnRefusal::Fails), UNBOUND),
];

/// Checks that the lines have these ends over a network with these steps. One socket is asked for, or none for a script
/// or without a job.
fn all_run<'a, H: Abort + AllocGlobal>(rt: &H, steps: &'a [Step<'a>], rows: &[Row<'_>]) {
    for (line, at, end) in rows {
        let (alloc, at) = (rt.alloc(), *at);
        let asked = &Cell::new(0);
        let network = Rehearsal {
            alloc,
            steps,
            at,
            asked,
        };
        assert!(rt; runs(words_typed(alloc, line), network, *end), "{line}");
        let has_socket = *line != TRACE && *line != READ_NOWHERE;
        assert!(rt; asked.get() == u32::from(has_socket), "{line}");
    }
}

#[test]
fn words_are_run(rt: HostRuntime) {
    all_run(&rt, &[Step::Packet(5, CONTROLLER, VALUE)], &ANSWERED);
    all_run(&rt, &[Step::Packet(5, CONTROLLER, I_AM)], &FOUND);
    let asked = [
        Step::Packet(0, OTHER, WHO_IS),
        Step::Packet(0, OTHER, b"\x00"),
    ];
    all_run(&rt, &asked, &ASKED);
    let broken = [(
        READ_AT_9,
        (9, OnRefusal::Fails),
        ("", 3, "receiving failed"),
    )];
    all_run(&rt, &[Step::Broken], &broken);
    let spent = [(READ, CLIENT, ("", 3, "turns spent"))];
    all_run(&rt, quiet(&rt).as_slice(), &spent);
}

/// Returns whether the program has this end if reading its words fails with an error of this kind, and asks for no
/// socket.
fn is_told_unread(alloc: Global, kind: ErrorKind, end: (&str, u8, &str)) -> bool {
    let asked = &Cell::new(0);
    let network = Rehearsal {
        alloc,
        steps: &[],
        at: CLIENT,
        asked,
    };
    runs(Err(io::Error::from(kind)), network, end) && asked.get() == 0
}

#[test]
fn words_that_could_not_be_had_are_told(rt: HostRuntime) {
    let alloc = rt.alloc();
    let lacking = ("", 4, "out of memory");
    assert!(&rt; is_told_unread(alloc, ErrorKind::OutOfMemory, lacking));
    let no_text = ("", 2, "words that are not UTF-8");
    assert!(&rt; is_told_unread(alloc, ErrorKind::InvalidData, no_text));
}

/// The text of each fault of a tool.
static SHOWN: [(ToolFault, &str); 4] = [
    (ToolFault::SendFailed, "sending failed"),
    (ToolFault::ReceiveFailed, "receiving failed"),
    (ToolFault::TurnsSpent, "turns spent"),
    (ToolFault::WriteFailed, "writing failed"),
];

#[test]
fn faults_are_shown(rt: HostRuntime) {
    let alloc = rt.alloc();
    for (fault, text) in &SHOWN {
        assert!(&rt; is_shown(alloc, fault, text), "{text}");
        assert!(&rt; is_shown(alloc, &RunFault::Link(*fault), text), "{text}");
    }
    let bad = RunFault::Script(TraceFault::BadLine(2));
    assert!(&rt; is_shown(alloc, &bad, "line 2: bad line"));
    assert!(&rt; !is_shown(alloc, &bad, "line 3: bad line"));
    assert!(&rt; is_shown(alloc, &LinkFault, "bind failed"));
}
