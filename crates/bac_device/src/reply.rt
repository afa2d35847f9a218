//! The reply to a datagram.

ghost use Rattle.std.specs.Prelude.{[], IfNone, IfOk, IfSome, length, List, OnErr, OnOk, option_map, ◌*◌, ◌+◌, ◌<◌};
ghost use Rattle.std.specs.Prelude.{◌≡◌, ◌≤◌};
ghost use Rattle.bac_pdu.specs.{error, laid_out, reference, reject, station, Failure.error_octets};
ghost use Rattle.{bac_pdu.specs.Reject.reason_number, bac_wire.specs.{frame_room, identifier, result_seen}};
ghost use Rattle.bac_device.specs.{device_after, error_class, error_code, Holds, points_of, read_property, ReplyFits};
ghost use Rattle.bac_device.specs.{Write, Inner.{IsSoundProperty, property_seen, reply_apdu, write_in_apdu}};
ghost use Rattle.bac_device.specs.Inner.{write_in_body, Reply.{ordered_write, whole_reply}};
ghost use Rattle.bac_device.specs.Reply as spec;

use crate::device::Device;
use crate::failure::Failure;
use crate::info::DeviceInfo;
use crate::numbers::{MAX_APDU, NO_SEGMENTATION, VENDOR};
use crate::property::{Property, append_region};
use bac_pdu::{
    Apdu, I_AM, IAm, Part, Peer, READ_PROPERTY, ReadRequest, RejectReason, WHO_IS, WRITE_PROPERTY,
    announced, begin_ack, end_ack, open_datagram, read_apdu, read_read, read_whois, read_write,
    wrap_within, write_apdu, write_error, write_iam,
};
use bac_wire::{Frame, Full, ObjectId, Work};

// The abort reason if a message would need segments (clause 18.10).
const SEGMENTATION_NOT_SUPPORTED: u8 = 4;

// A confirmed request.
#[derive(Clone, Copy)]
struct ConfirmedRequest<'a> {
    part: Option<Part>,
    code: u8,
    id: u8,
    service: u8,
    body: &'a [u8],
}

impl Device {
    /// Replies to a datagram from this peer: writes the reply's datagram into the frame, and returns its receiver.
    /// Returns None, and empties the frame, if the device is silent. A write that the datagram orders is made if the
    /// device accepts it.
    ///
    /// There is a reply to a Who-Is that asks for the device, and to a confirmed request that was not sent to all. A
    /// reply longer than the requester announced becomes an Abort. An I-Am has fifteen octets. At most two tags are
    /// read for each octet of the datagram.
    #[tactic(auto, using(crate::proofs::reply_held, crate::proofs::after_held))]
    pub fn answer(
        &mut self,
        from: Peer,
        datagram: &[u8],
        frame: &mut Frame,
        work: &mut Work,
    ) -> Option<Peer>
        ensures standing { option_map (λ peer. (station peer, frame.new)) result
            ≡ spec.reply_of self.old (station from) datagram.now }
        ensures written { self.new
            ≡ spec.with_write self.old (spec.write_in_datagram self.old (station from) datagram.now) }
        ensures reply { (writes : List Write) → Holds self.old writes
            → option_map (λ peer. (station peer, frame.new)) result
            ≡ spec.reply_to self.old.info (points_of self.old) writes (station from) datagram.now }
        ensures after { (writes : List Write) → Holds self.old writes
            → self.new ≡ device_after self.old.info (points_of self.old)
            (spec.writes_after self.old.info (points_of self.old) writes (station from) datagram.now) }
        ensures fits { IfSome result (λ peer. ReplyFits (station from) datagram.now (station peer, frame.new)) }
        ensures silent { IfNone result (frame.new ≡ []) }
        ensures walked_once { work.new.tags ≤ work.old.tags + 2 * length datagram.now }
    {
        frame.clear();
        self.answer_into(from, datagram, frame, work)
    }

    // Replies to a datagram as `answer_into` says, in a frame that is empty at first.
    #[tactic(auto, using(bac_pdu::proofs::DatagramLaws::carried_no_longer), unfolding(crate::specs::reply_of, crate::specs::write_in_datagram, crate::specs::Inner::reply_apdu, crate::specs::Inner::write_in_apdu))]
    fn answer_into(
        &mut self,
        from: Peer,
        datagram: &[u8],
        frame: &mut Frame,
        work: &mut Work,
    ) -> Option<Peer>
        requires { frame.old ≡ [] }
        ensures reply { option_map (λ peer. (station peer, frame.new)) result
            ≡ spec.reply_of self.old (station from) datagram.now }
        ensures silent { IfNone result (frame.new ≡ []) }
        ensures after { self.new
            ≡ spec.with_write self.old (spec.write_in_datagram self.old (station from) datagram.now) }
        ensures walked_once { work.new.tags ≤ work.old.tags + 2 * length datagram.now }
    {
        let carried = open_datagram(from, datagram)?;
        self.reply(carried.broadcast, carried.apdu, frame, work)?;
        match wrap_within(carried.peer, false, frame) {
            Ok(()) => Some(carried.peer),
            // The greatest announced size fits a frame after any header.
            Err(Full) => unreachable!(),
        }
    }

    // Appends the reply to the octets of an APDU to an empty frame; an accepted write is made. `None` if there is no
    // reply.
    #[tactic(auto, using(crate::proofs::request_write, bac_pdu::proofs::DatagramLaws::confirmed_no_longer), unfolding(crate::specs::Inner::reply_apdu, crate::specs::Inner::write_in_apdu))]
    fn reply(
        &mut self,
        broadcast: bool,
        apdu: &[u8],
        frame: &mut Frame,
        work: &mut Work,
    ) -> Option<()>
        requires { frame.old ≡ [] }
        ensures reply { option_map (λ _. frame.new) result ≡ reply_apdu self.old broadcast apdu.now }
        ensures silent { IfNone result (frame.new ≡ []) }
        ensures few { length frame.new ≤ 1476 }
        ensures after { self.new ≡ spec.with_write self.old (write_in_apdu self.old broadcast apdu.now) }
        ensures walked_once { work.new.tags ≤ work.old.tags + 2 * length apdu.now }
    {
        match read_apdu(apdu)? {
            Apdu::Confirmed {
                part,
                code,
                id,
                service,
                body,
            } if !broadcast => {
                let request = ConfirmedRequest {
                    part,
                    code,
                    id,
                    service,
                    body,
                };
                self.fitting_reply(&request, frame, work);
                Some(())
            }
            Apdu::Unconfirmed {
                service: WHO_IS,
                body,
            } => introduce(self.info(), body, frame),
            _ => None,
        }
    }

    // Appends the reply to a request, of at most the octets that its code announces, to an empty frame.
    fn fitting_reply(&mut self, request: &ConfirmedRequest<'_>, frame: &mut Frame, work: &mut Work)
        requires { frame.old ≡ [] }
        ensures reply { frame.new
            ≡ laid_out (spec.fitting request.now.code request.now.id (whole_reply self.old request.now)) }
        ensures few { length frame.new ≤ 1476 }
        ensures after { self.new ≡ spec.with_write self.old (ordered_write self.old request.now) }
        ensures walked_once { work.new.tags ≤ work.old.tags + 2 * length request.now.body.now }
    {
        match self.full_reply(request, frame, work) {
            Ok(()) if frame.len() <= usize::from(announced(request.code)) => {}
            _ => make_abort(request.id, frame),
        }
    }

    // Appends the whole reply to a request to an empty frame; an accepted write is made.
    #[tactic(auto, unfolding(crate::specs::full_reply, crate::specs::Inner::write_in_request))]
    fn full_reply(
        &mut self,
        request: &ConfirmedRequest<'_>,
        frame: &mut Frame,
        work: &mut Work,
    ) -> Result<(), Full>
        requires { frame.old ≡ [] }
        ensures ok { OnOk result (frame.new ≡ laid_out (whole_reply self.old request.now)) }
        ensures full { OnErr result (frame_room < length (laid_out (whole_reply self.old request.now))) }
        ensures after { self.new ≡ spec.with_write self.old (ordered_write self.old request.now) }
        ensures walked_once { work.new.tags ≤ work.old.tags + 2 * length request.now.body.now }
    {
        let ConfirmedRequest { id, body, .. } = *request;
        if request.part.is_some() {
            make_abort(id, frame);
            return Ok(());
        }
        match request.service {
            READ_PROPERTY => self.read_reply(id, body, frame),
            WRITE_PROPERTY => self.write_reply(id, body, frame, work),
            _ => append_reject(id, RejectReason::UnknownService, frame),
        }
    }

    // Appends the reply to a ReadProperty with this body to an empty frame.
    #[tactic(auto, unfolding(crate::specs::read_reply))]
    fn read_reply(&self, id: u8, body: &[u8], frame: &mut Frame) -> Result<(), Full>
        requires { frame.old ≡ [] }
        ensures ok { OnOk result (frame.new ≡ laid_out (spec.read_reply self.now id body.now)) }
        ensures full { OnErr result (frame_room < length (laid_out (spec.read_reply self.now id body.now))) }
    {
        let request = match read_read(body) {
            Ok(request) => request,
            Err(reason) => return append_reject(id, reason, frame),
        };
        match self.read_property(&request) {
            Ok(property) => self.ack(id, &request, &property, frame),
            Err(failure) => append_error(id, READ_PROPERTY, failure, frame),
        }
    }

    // Appends the reply to a WriteProperty with this body to an empty frame; an accepted write is made.
    #[tactic(auto, unfolding(crate::specs::write_reply, crate::specs::Inner::write_in_body))]
    fn write_reply(
        &mut self,
        id: u8,
        body: &[u8],
        frame: &mut Frame,
        work: &mut Work,
    ) -> Result<(), Full>
        requires { frame.old ≡ [] }
        ensures ok { OnOk result (frame.new ≡ laid_out (spec.write_reply self.old id body.now)) }
        ensures full { OnErr result (frame_room < length (laid_out (spec.write_reply self.old id body.now))) }
        ensures after { self.new ≡ spec.with_write self.old (write_in_body self.old body.now) }
        ensures walked_once { work.new.tags ≤ work.old.tags + 2 * length body.now }
    {
        let request = match read_write(body, work) {
            Ok(request) => request,
            Err(reason) => return append_reject(id, reason, frame),
        };
        match self.accepted_write(&request) {
            Ok(write) => {
                self.put(&write);
                write_apdu(
                    frame,
                    &Apdu::SimpleAck {
                        id,
                        service: WRITE_PROPERTY,
                    },
                )
            }
            Err(failure) => append_error(id, WRITE_PROPERTY, failure, frame),
        }
    }

    // Returns the property, or the element of it, that a request asks for.
    #[tactic(auto, unfolding(crate::specs::read_property))]
    fn read_property(&self, request: &ReadRequest) -> Result<Property<'_>, Failure>
        ensures value { result_seen property_seen result ≡ read_property self.now (reference request.now) }
        ensures sound { IfOk result IsSoundProperty }
    {
        let property = self.property(request.object, request.property)?;
        property.element(request.index)
    }

    // Appends the ReadProperty-ACK with these values to an empty frame.
    fn ack(
        &self,
        id: u8,
        request: &ReadRequest,
        property: &Property<'_>,
        frame: &mut Frame,
    ) -> Result<(), Full>
        requires sound { IsSoundProperty property.now }
        requires empty { frame.old ≡ [] }
        ensures ok { OnOk result
            (frame.new ≡ laid_out (spec.ack self.now id (reference request.now) (property_seen property.now))) }
        ensures full { OnErr result
            (frame_room < length
            (laid_out (spec.ack self.now id (reference request.now) (property_seen property.now)))) }
    {
        let replied = ReadRequest {
            object: self.object_in_reply(request.object),
            property: request.property,
            index: request.index,
        };
        // The body is written after it.
        write_apdu(
            frame,
            &Apdu::ComplexAck {
                part: None,
                id,
                service: READ_PROPERTY,
                body: &[],
            },
        )?;
        begin_ack(frame, &replied)?;
        append_region(frame, property)?;
        end_ack(frame)
    }

    // Returns the object in a reply: for the device, its own instance.
    fn object_in_reply(&self, object: ObjectId) -> ObjectId
        ensures { identifier result ≡ spec.object_in_reply self.now.info (identifier object) }
    {
        let info = self.info();
        if info.is_object(object) {
            info.object()
        } else {
            object
        }
    }
}

// Appends the I-Am to an empty frame, if the body of a Who-Is asks for the device. Otherwise `None`.
#[tactic(auto, using(crate::proofs::length_i_am), unfolding(crate::specs::who_is_reply))]
fn introduce(info: &DeviceInfo, body: &[u8], frame: &mut Frame) -> Option<()>
    requires { frame.old ≡ [] }
    ensures value { option_map (λ _. frame.new) result ≡ option_map laid_out (spec.who_is_reply info.now body.now) }
    ensures silent { IfNone result (frame.new ≡ []) }
    ensures few { length frame.new ≤ 15 }
{
    if !read_whois(body)?.asks(info.instance()) {
        return None;
    }
    i_am(info, frame).ok()
}

// Appends the device's I-Am to an empty frame.
fn i_am(info: &DeviceInfo, frame: &mut Frame) -> Result<(), Full>
    requires { frame.old ≡ [] }
    ensures ok { OnOk result (frame.new ≡ laid_out (spec.i_am info.now)) }
    ensures full { OnErr result (frame_room < length (laid_out (spec.i_am info.now))) }
{
    let i_am = IAm {
        device: info.object(),
        max_apdu: MAX_APDU,
        segmentation: NO_SEGMENTATION,
        vendor: VENDOR,
    };
    // The body is written after it.
    write_apdu(
        frame,
        &Apdu::Unconfirmed {
            service: I_AM,
            body: &[],
        },
    )?;
    write_iam(frame, &i_am)
}

// Appends a Reject to an empty frame.
fn append_reject(id: u8, reason: RejectReason, frame: &mut Frame) -> Result<(), Full>
    requires { frame.old ≡ [] }
    ensures ok { OnOk result (frame.new ≡ laid_out (reject id (reason_number reason))) }
    ensures full { OnErr result (frame_room < length (laid_out (reject id (reason_number reason)))) }
{
    write_apdu(
        frame,
        &Apdu::Reject {
            id,
            reason: reason.number(),
        },
    )
}

// Appends an Error to an empty frame.
fn append_error(id: u8, service: u8, failure: Failure, frame: &mut Frame) -> Result<(), Full>
    requires { frame.old ≡ [] }
    ensures ok { OnOk result
        (frame.new ≡ laid_out (error id service (error_octets (error_class failure) (error_code failure)))) }
    ensures full { OnErr result
        (frame_room < length (laid_out (error id service (error_octets (error_class failure) (error_code failure))))) }
{
    // The body is written after it.
    write_apdu(
        frame,
        &Apdu::Error {
            id,
            service,
            body: &[],
        },
    )?;
    write_error(frame, failure.class(), failure.code())
}

// Clears the frame and writes the Abort for a message that would need segments.
fn make_abort(id: u8, frame: &mut Frame)
    ensures { frame.new ≡ laid_out (spec.refused id) }
{
    frame.clear();
    write_apdu(
        frame,
        &Apdu::Abort {
            server: true,
            id,
            reason: SEGMENTATION_NOT_SUPPORTED,
        },
    )
    .unwrap();
}
