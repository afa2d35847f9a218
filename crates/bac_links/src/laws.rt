//! Laws of the definitions that the contracts cite, and of the public types. Each function has an empty body, and its
//! clauses are the laws.

ghost use Rattle.std.specs.{List.flat_map, Option.option_to_list, Prelude.[]};
ghost use Rattle.std.specs.Prelude.{Err, IfOk, length, List, Ok, Result, suc, ℕ, ⊤, ◌*◌, ◌++◌, ◌+◌, ◌∷◌, ◌≡◌, ◌≢◌, ◌≤◌};
ghost use Rattle.{bac_wire.specs.{EqualsBy, MakesCopies}, bac_pdu.specs.{longest_body, station}};
ghost use Rattle.bac_device.specs.{DeviceState, replies_to, Write as Change, Device.{Holds, points_of}};
ghost use Rattle.{bac_device.specs.Turns.AreDefined, bac_text.specs.declared.jobs.{Call.Call, Search.Search}};
ghost use Rattle.bac_links.specs.{Account, AllSent, ArePrompt, AreTold, arrivals_in, AskAlike, Checked, Entry};
ghost use Rattle.bac_links.specs.{events_of, Exit as ExitValue, IsAccepted, LogsHistory, longest_datagram, OneText};
ghost use Rattle.bac_links.specs.{PlaysItsScenes, Purpose, replies_of, Searched, sends_of_call, sent_at, sent_in};
ghost use Rattle.bac_links.specs.{Serves, Tells, ToolFault as Fault, waits_in, who_is_to};

use crate::call::Purpose as Aim;
use crate::datagram::DATAGRAM_OCTETS;
use crate::exit::Exit;
use crate::fault::ToolFault;
use crate::history::CallNote;
use crate::link::{Link, LinkFault};
use crate::memory::{MemoryLink, Step};
use crate::socket::Socket;
use crate::udp::{OnRefusal, UdpLink};
use std::alloc::Allocator;
use std::io::Write;

/// However a server ends, and whatever its link is, the device keeps its identity and its points.
pub fn a_server_keeps_its_points<L: Link>()
    ensures { (count : ℕ) (before after : DeviceState) (seen left : Account L.Origin) (result : Result ℕ Fault)
        → Serves count before after seen left result
        → (after.info ≡ before.info) × (points_of after ≡ points_of before) }
{}

/// The replies of a server are those of the definition, after any writes that the device held before. However the
/// server ends, the device then holds these writes and those that it accepted.
pub fn a_server_replies_as_defined<L: Link>()
    ensures { (count : ℕ) (before after : DeviceState) (seen left : Account L.Origin) (result : Result ℕ Fault)
        (gained : List Entry) (writes : List Change)
        → Serves count before after seen left result → left.history ≡ seen.history ++ gained → Holds before writes
        → AreDefined before writes (arrivals_in gained) (replies_of before (arrivals_in gained)) after }
{}

/// The sends of a server are, in order, the replies of the definition to the datagrams that it received, after any
/// writes that the device held before. If a send failed, the last reply is missing.
pub fn a_server_sends_its_replies<L: Link>()
    ensures { (count : ℕ) (before after : DeviceState) (seen left : Account L.Origin) (result : Result ℕ Fault)
        (gained : List Entry) (writes : List Change)
        → Serves count before after seen left result → left.history ≡ seen.history ++ gained → Holds before writes
        → AllSent (flat_map option_to_list (replies_to before.info (points_of before) writes (arrivals_in gained)))
        (sent_in gained) result }
{}

/// No server receives more datagrams than its count, and a server that ends with an answer received that many. (A
/// server that received as many ends with a fault if its last reply could not be sent.) The answer is the number of
/// replies that were sent.
pub fn a_server_hears_as_many<L: Link>()
    ensures { (count : ℕ) (before after : DeviceState) (seen left : Account L.Origin) (result : Result ℕ Fault)
        (gained : List Entry) → Serves count before after seen left result → left.history ≡ seen.history ++ gained
        → (length (arrivals_in gained) ≤ count) × IfOk result (λ replies. (length (arrivals_in gained) ≡ count)
        × (replies ≡ length (sent_in gained))) }
{}

/// No call waits for ever. Take any clock that shows the link's times. If by this clock no turn takes longer than
/// `longest`, the call ends, its last wait included, within the timeout and `longest` for each time that the request is
/// sent (clause 5.4.4). This says nothing of a clock that stands still: then the turns are spent.
#[tactic(auto, using(crate::proofs::told_in_time))]
pub fn a_call_ends_in_time<L: Link, W: Write>()
    ensures { (purpose : Purpose) (call : Call) (before after : Checked W) (seen left : Account L.Origin)
        (result : Result ExitValue Fault) (gained : List Entry) (time_behind : ℕ → ℕ) (longest : ℕ)
        → Tells purpose call W.contents before after seen left result → left.history ≡ seen.history ++ gained
        → AreTold time_behind 0 gained → ArePrompt time_behind longest (waits_in gained)
        → time_behind (waits_in gained) ≤ time_behind 0 + suc call.retries * (call.timeout + longest) }
{}

/// The look-ahead accepts exactly one request among the events of a call, the one of the call. So the laws of accepted
/// requests hold for it. Its body is short enough: `as_slice` says so for each body in the code.
pub fn a_call_is_accepted<L: Link, W: Write>()
    ensures { (purpose : Purpose) (call : Call) (before after : Checked W) (seen left : Account L.Origin)
        (result : Result ExitValue Fault) (gained : List Entry) → length call.body.items ≤ longest_body
        → Tells purpose call W.contents before after seen left result → left.history ≡ seen.history ++ gained
        → IsAccepted purpose call (events_of purpose call gained) }
{}

/// The sends of a call, and their events, are those of its one request by the look-ahead, among the events of its whole
/// history. If a send failed, the last one is missing.
#[tactic(auto, using(crate::proofs::told_sent))]
pub fn a_call_sends_as_the_look_ahead_says<L: Link, W: Write>()
    ensures { (purpose : Purpose) (call : Call) (before after : Checked W) (seen left : Account L.Origin)
        (result : Result ExitValue Fault) (gained : List Entry)
        → Tells purpose call W.contents before after seen left result → left.history ≡ seen.history ++ gained
        → AllSent (sends_of_call purpose call gained) (sent_at purpose call gained) result }
{}

/// A search sends its Who-Is, once, and nothing else; if that failed, nothing.
#[tactic(auto, using(crate::proofs::one_sent))]
pub fn a_search_sends_one_who_is<L: Link, W: Write>()
    ensures { (search : Search) (before after : Checked W) (seen left : Account L.Origin)
        (result : Result ExitValue Fault) (gained : List Entry)
        → Searched search W.contents before after seen left result → left.history ≡ seen.history ++ gained
        → AllSent ((station search.to, who_is_to search) ∷ []) (sent_in gained) result }
{}

/// No call ends with an exit over a link that it did not use: the history gained something.
pub fn no_call_ends_unasked<L: Link, W: Write>()
    ensures { (purpose : Purpose) (call : Call) (before after : Checked W) (seen : Account L.Origin) (exit : ExitValue)
        → Tells purpose call W.contents before after seen seen (Ok exit) → ⊥ }
{}

/// A call is a function of its purpose and of the answers of its link. Take two calls with one purpose, over any two
/// links and with any two writers. As far as they were answered alike, they asked alike; then their next questions are
/// the same, or both are over. If neither writer failed, they ended alike and printed the same line; a writer that
/// failed took the beginning of that line.
pub fn a_call_is_a_function<K: Link, L: Link, V: Write, W: Write>()
    ensures { (purpose : Purpose) (call : Call) (before after : Checked V) (other_before other_after : Checked W)
        → AskAlike K.Origin L.Origin (Tells purpose call V.contents before after)
        (Tells purpose call W.contents other_before other_after) (λ result. ⊥)
        (λ result other. result ≢ Err Fault.WriteFailed → other ≢ Err Fault.WriteFailed → result ≡ other)
        (OneText V.contents before after W.contents other_before other_after) }
{}

/// A search is a function of its settings and of the answers of its link, in the same sense as a call. It stops before
/// the other only if its writer failed, and then it printed the beginning of the other's text.
pub fn a_search_is_a_function<K: Link, L: Link, V: Write, W: Write>()
    ensures { (search : Search) (before after : Checked V) (other_before other_after : Checked W)
        → AskAlike K.Origin L.Origin (Searched search V.contents before after)
        (Searched search W.contents other_before other_after)
        (λ result. result ≡ Err Fault.WriteFailed) (λ result other. result ≡ other)
        (OneText V.contents before after W.contents other_before other_after) }
{}

/// A server is a function of its count, of the device before, and of the answers of its link. Take two servers with one
/// count, over any two links and over devices in the same state. As far as they were answered alike, they asked and
/// sent alike; then their next moves are the same, or both are over with the same answer, and the devices are in the
/// same state.
pub fn a_server_is_a_function<K: Link, L: Link>()
    ensures { (count : ℕ) (before after other_after : DeviceState)
        → AskAlike K.Origin L.Origin (Serves count before after) (Serves count before other_after) (λ result. ⊥)
        (λ result other. (result ≡ other) × (after ≡ other_after)) (λ result other. ⊤) }
{}

/// A link in memory always answers as its steps say: each wait plays the next step, or is silent once there is none,
/// and each time is that of the last step.
#[tactic(auto, using(crate::proofs::played_so))]
pub fn a_memory_link_plays_its_steps<A: Allocator + Copy>(link: &MemoryLink<A>)
    ensures { PlaysItsScenes (⟦<MemoryLink<A> as Link>⟧.seen link.now) }
{}

/// After the calls that the socket had made before, the log of a link over a socket has the calls for the entries of
/// the history, one after another, and no others. (`∥ ∥₁`: the log can be divided in this way.)
pub fn a_socket_logs_the_history<S: Socket + Drop>(link: &UdpLink<S>)
    ensures { ∥ LogsHistory (⟦<UdpLink<S> as Link>⟧.seen link.now) (S.log link.now.socket) ∥₁ }
{}

/// The limit in the code is the limit in the definitions.
pub fn limits()
    ensures datagram { DATAGRAM_OCTETS ≡ longest_datagram }
{}

/// A clone equals its original, and allocates no memory.
pub fn clones<'a>()
    ensures purpose { MakesCopies ⟦<Aim as Clone>⟧.is_clone ⟦<Aim as Clone>⟧.is_infallible }
    ensures exit { MakesCopies ⟦<Exit as Clone>⟧.is_clone ⟦<Exit as Clone>⟧.is_infallible }
    ensures fault { MakesCopies ⟦<ToolFault as Clone>⟧.is_clone ⟦<ToolFault as Clone>⟧.is_infallible }
    ensures link_fault { MakesCopies ⟦<LinkFault as Clone>⟧.is_clone ⟦<LinkFault as Clone>⟧.is_infallible }
    ensures refused { MakesCopies ⟦<OnRefusal as Clone>⟧.is_clone ⟦<OnRefusal as Clone>⟧.is_infallible }
    ensures step { MakesCopies ⟦<Step<'a> as Clone>⟧.is_clone ⟦<Step<'a> as Clone>⟧.is_infallible }
    ensures note { MakesCopies ⟦<CallNote<'a> as Clone>⟧.is_clone ⟦<CallNote<'a> as Clone>⟧.is_infallible }
{}

/// `==` compares exits, faults, and the two treatments of a refused datagram.
pub fn equals()
    ensures exit { EqualsBy (λ exit. exit) ⟦<Exit as PartialEq>⟧.eq }
    ensures fault { EqualsBy (λ fault. fault) ⟦<ToolFault as PartialEq>⟧.eq }
    ensures link_fault { EqualsBy (λ link_fault. link_fault) ⟦<LinkFault as PartialEq>⟧.eq }
    ensures refused { EqualsBy (λ refused. refused) ⟦<OnRefusal as PartialEq>⟧.eq }
{}
