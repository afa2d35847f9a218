//! Laws of the definitions that the contracts cite. Each function has an empty body, and its clauses are the laws. The
//! laws at the end are about `clone` and `==`.

ghost use Rattle.std.specs.{List.AllByRecursion, Prelude.{[], Bool, false, IfSome, length, List, Option, Result, ℕ}};
ghost use Rattle.std.specs.Prelude.{None, Some, true, ◌++◌, ◌+◌, ◌<◌, ◌^◌, ◌↔◌, ◌∷◌, ◌≡◌};
ghost use Rattle.bac_wire.specs.{enumerated, EqualsBy, MakesCopies, Datum.IsDatum};
ghost use Rattle.bac_pdu.specs.{ack_end, ack_front, ack_octets, ack_of, ack_parameters, ack_seen, apdu_of, carried};
ghost use Rattle.bac_pdu.specs.{Carries, Delivery, error_octets, error_of, front_count, i_am_octets, Introduction};
ghost use Rattle.bac_pdu.specs.{introduction, introduction_of, introduction_values, IsAckBody, IsErrorBody, IsIAmBody};
ghost use Rattle.bac_pdu.specs.{IsLaidOut, IsOutcome, IsParameter, IsPriority, IsReadBody, IsRoutable, IsWhoIsBody};
ghost use Rattle.bac_pdu.specs.{IsWritable, IsWriteBody, laid_out, longest_body, Message, message, network_address};
ghost use Rattle.bac_pdu.specs.{NetworkAddress, Order, order, order_parameters, Range, read_octets, read_of, ReadAck};
ghost use Rattle.bac_pdu.specs.{ReadFault, Reference, reference, reference_parameters, RejectReason, Station, station};
ghost use Rattle.bac_pdu.specs.{everyone, header_at, plain_header};
ghost use Rattle.bac_pdu.specs.{Takes, who_is_octets, who_is_of, WhoIs, wrapped, write_octets, write_of, WriteFault};
ghost use Rattle.bac_pdu.specs.declared.discovery.WhoIs.TheVariants.{All};

use crate::apdu::{Apdu, LONGEST_BODY, Part};
use crate::datagram::Carried;
use crate::discovery::{DEVICE, IAm, WhoIs};
use crate::peer::Peer;
use crate::property::{Ack, ReadRequest, WriteRequest};
use crate::reject::RejectReason;
use crate::route::{ADDRESS_OCTETS, Route};
use crate::service::{I_AM, READ_PROPERTY, WHO_IS, WRITE_PROPERTY};

/// The function that reads each kind of octets finds exactly what the standard says, so octets have at most one meaning
/// of each kind.
pub fn in_words()
    ensures carried { (from : Station) (datagram : List ℕ) (delivery : Delivery)
        → (carried from datagram ≡ Some delivery) ↔ Carries from datagram delivery }
    ensures apdu { (octets : List ℕ) (message : Message) → (apdu_of octets ≡ Some message) ↔ IsLaidOut octets message }
    ensures read { (body : List ℕ) (outcome : Result Reference RejectReason)
        → (read_of body ≡ outcome) ↔ IsOutcome IsReadBody ReadFault body outcome }
    ensures write { (body : List ℕ) (outcome : Result Order RejectReason)
        → (write_of body ≡ outcome) ↔ IsOutcome IsWriteBody WriteFault body outcome }
    ensures ack { (body : List ℕ) (answer : ReadAck) → (ack_of body ≡ Some answer) ↔ IsAckBody body answer }
    ensures who_is { (body : List ℕ) (who : WhoIs) → (who_is_of body ≡ Some who) ↔ IsWhoIsBody body who }
    ensures i_am { (body : List ℕ) (introduction : Introduction)
        → (introduction_of body ≡ Some introduction) ↔ IsIAmBody body introduction }
    ensures error { (body : List ℕ) (x : ℕ × ℕ) → (error_of body ≡ Some x) ↔ IsErrorBody body x }
{}

/// Written octets are read back: a datagram for a station without a route, an APDU, and the body of each service.
pub fn come_back()
    ensures taken { (from : Station) (expect : Bool) (apdu datagram : List ℕ)
        → Takes None expect apdu datagram → carried from datagram
        ≡ Some (record { peer = record from { route = None }; broadcast = false; apdu = apdu }) }
    ensures apdu { (message : Message) → IsWritable message → apdu_of (laid_out message) ≡ Some message }
    ensures read { (r : Reference) → AllByRecursion IsParameter (reference_parameters r)
        → read_of (read_octets r) ≡ Ok r }
    ensures write { (o : Order) → AllByRecursion IsParameter (order_parameters o)
        → IfSome o.priority IsPriority → write_of (write_octets o) ≡ Ok o }
    ensures ack { (a : ReadAck) → AllByRecursion IsParameter (ack_parameters a) → ack_of (ack_octets a) ≡ Some a }
    ensures all { who_is_of (who_is_octets All) ≡ Some All }
    ensures limits { (low high : ℕ) → low < 2 ^ 32 → high < 2 ^ 32
        → who_is_of (who_is_octets (Range low high)) ≡ Some (Range low high) }
    ensures i_am { (i : Introduction) → i.device.kind ≡ 8
        → AllByRecursion IsDatum (introduction_values i) → introduction_of (i_am_octets i) ≡ Some i }
    ensures error { (class code : ℕ) (rest : List ℕ)
        → AllByRecursion IsDatum (enumerated class ∷ enumerated code ∷ [])
        → error_of (error_octets class code ++ rest) ≡ Some (class, code) }
{}

/// The headers around an APDU make a datagram in the standard's words, of this length, that carries no other APDU to
/// the station. An answer is written in three parts.
pub fn wrapped_round()
    ensures words { (to : Option NetworkAddress) (expect : Bool) (apdu : List ℕ) → IfSome to IsRoutable
        → length (wrapped to expect apdu) < 65536 → Takes to expect apdu (wrapped to expect apdu) }
    ensures one { (to : Option NetworkAddress) (expect : Bool) (datagram a b : List ℕ)
        → Takes to expect a datagram → Takes to expect b datagram → a ≡ b }
    ensures length { (to : Option NetworkAddress) (expect : Bool) (apdu : List ℕ)
        → length (wrapped to expect apdu) ≡ front_count to + length apdu }
    ensures parts { (a : ReadAck) → ack_octets a ≡ (ack_front a.reference ++ a.value) ++ ack_end }
{}

/// A header for all stations of a network names that network and no address, and is read back. A datagram for all
/// networks is accepted by each station as a broadcast. A datagram for one network is ignored by stations; only its
/// router passes it on.
pub fn goes_across()
    ensures words { (network : ℕ) (apdu : List ℕ) → network < 65536
        → length (wrapped (Some (everyone network)) false apdu) < 65536
        → Takes (Some (everyone network)) false apdu (wrapped (Some (everyone network)) false apdu) }
    ensures read_back { (network : ℕ) (apdu : List ℕ) → network < 65536
        → header_at (plain_header (Some (everyone network)) false ++ apdu)
        ≡ Some (record { destination = Some (everyone network); source = None }, apdu) }
    ensures for_all { (from : Station) (apdu datagram : List ℕ)
        → Takes (Some (everyone 65535)) false apdu datagram → carried from datagram
        ≡ Some (record { peer = record from { route = None }; broadcast = true; apdu = apdu }) }
    ensures for_one { (from : Station) (network : ℕ) (apdu datagram : List ℕ) → network < 65535
        → Takes (Some (everyone network)) false apdu datagram → carried from datagram ≡ None }
{}

/// The numbers in the code: of the services and of the object type of devices, as in the standard (clause 21), and the
/// octets of the longest address.
pub fn numbers()
    ensures read_property { READ_PROPERTY ≡ 12 }
    ensures write_property { WRITE_PROPERTY ≡ 15 }
    ensures i_am { I_AM ≡ 0 }
    ensures who_is { WHO_IS ≡ 8 }
    ensures device { DEVICE ≡ 8 }
    ensures address { ADDRESS_OCTETS ≡ 7 }
{}

/// The limit in the code is the limit in the definitions.
pub fn limits()
    ensures body { LONGEST_BODY ≡ longest_body }
{}

/// A clone equals its original, and allocates no memory.
pub fn clones()
    ensures peer { MakesCopies ⟦<Peer as Clone>⟧.is_clone ⟦<Peer as Clone>⟧.is_infallible }
    ensures route { MakesCopies ⟦<Route as Clone>⟧.is_clone ⟦<Route as Clone>⟧.is_infallible }
    ensures carried { MakesCopies ⟦<Carried<'static> as Clone>⟧.is_clone ⟦<Carried<'static> as Clone>⟧.is_infallible }
    ensures part { MakesCopies ⟦<Part as Clone>⟧.is_clone ⟦<Part as Clone>⟧.is_infallible }
    ensures apdu { MakesCopies ⟦<Apdu<'static> as Clone>⟧.is_clone ⟦<Apdu<'static> as Clone>⟧.is_infallible }
    ensures who { MakesCopies ⟦<WhoIs as Clone>⟧.is_clone ⟦<WhoIs as Clone>⟧.is_infallible }
    ensures i_am { MakesCopies ⟦<IAm as Clone>⟧.is_clone ⟦<IAm as Clone>⟧.is_infallible }
    ensures read { MakesCopies ⟦<ReadRequest as Clone>⟧.is_clone ⟦<ReadRequest as Clone>⟧.is_infallible }
    ensures ack { MakesCopies ⟦<Ack<'static> as Clone>⟧.is_clone ⟦<Ack<'static> as Clone>⟧.is_infallible }
    ensures write { MakesCopies ⟦<WriteRequest<'static> as Clone>⟧.is_clone
        ⟦<WriteRequest<'static> as Clone>⟧.is_infallible }
    ensures reason { MakesCopies ⟦<RejectReason as Clone>⟧.is_clone ⟦<RejectReason as Clone>⟧.is_infallible }
{}

/// `==` compares all values and all borrowed octets, wherever these lie in memory.
pub fn equals()
    ensures peer { EqualsBy station ⟦<Peer as PartialEq>⟧.eq }
    ensures route { EqualsBy network_address ⟦<Route as PartialEq>⟧.eq }
    ensures part { EqualsBy (λ part. part) ⟦<Part as PartialEq>⟧.eq }
    ensures apdu { EqualsBy message ⟦<Apdu<'static> as PartialEq>⟧.eq }
    ensures who { EqualsBy (λ who. who) ⟦<WhoIs as PartialEq>⟧.eq }
    ensures i_am { EqualsBy introduction ⟦<IAm as PartialEq>⟧.eq }
    ensures read { EqualsBy reference ⟦<ReadRequest as PartialEq>⟧.eq }
    ensures ack { EqualsBy ack_seen ⟦<Ack<'static> as PartialEq>⟧.eq }
    ensures write { EqualsBy order ⟦<WriteRequest<'static> as PartialEq>⟧.eq }
    ensures reason { EqualsBy (λ reason. reason) ⟦<RejectReason as PartialEq>⟧.eq }
{}
