//! The service bodies of requests.
ghost use Rattle.std.specs.Prelude.{IfOk, IfSome, length, ◌≡◌, ◌≤◌};
ghost use Rattle.bac_pdu.specs.{IsPriority, longest_body, read_octets, reference};
ghost use Rattle.{bac_wire.specs.{identifier, result_seen}, bac_text.specs.{body_of, words_behind}};

use crate::pairs::{PairFault, read_pairs};
use crate::words::WordSource;
use bac_pdu::{LONGEST_BODY, ReadRequest, WriteRequest, write_read, write_write};
use bac_wire::{Frame, ObjectId};

/// Room for one service body, which is used again for the next.
#[derive(Drop)]
pub struct BodyRoom {
    values: Frame,
    body: Frame,
}

impl BodyRoom {
    /// Returns empty room.
    pub fn new() -> Self {
        BodyRoom {
            values: Frame::new(),
            body: Frame::new(),
        }
    }

    /// Returns the body of the ReadProperty request (clause 15.5). There is always room for it.
    pub fn body_of_read(&mut self, request: &ReadRequest) -> &[u8]
        ensures body { result.now ≡ read_octets (reference request.now) }
        ensures short { length result.now ≤ longest_body }
    {
        self.body.clear();
        let _ = write_read(&mut self.body, request);
        self.body.as_slice()
    }

    /// Returns the body of the WriteProperty request that gives a property the values of the words (clause 15.9). All
    /// words are read, or those up to the first bad pair.
    ///
    /// # Errors
    ///
    /// `Bad` with the number of the first pair whose words are not a tag and a value of that type, or whose value is
    /// missing, or with 1 if there is no word; otherwise `TooLong` if the body would have more than `LONGEST_BODY`
    /// octets.
    pub fn body_of_write<'a, S: WordSource<'a>>(
        &mut self,
        object: ObjectId,
        property: u32,
        index: Option<u32>,
        priority: Option<u8>,
        words: &mut S,
    ) -> Result<&[u8], PairFault>
        requires { IfSome priority IsPriority }
        ensures body { result_seen (λ body. body.now) result ≡
            body_of (identifier object) property index priority (S.left words.old) }
        ensures short { IfOk result (λ body. length body.now ≤ longest_body) }
        ensures left { S.left words.new ≡ words_behind result (S.left words.old) }
    {
        read_pairs(words, &mut self.values)?;
        let request = WriteRequest {
            object,
            property,
            index,
            value: self.values.as_slice(),
            priority,
        };
        self.body.clear();
        write_write(&mut self.body, &request).map_err(|_| PairFault::TooLong)?;
        if self.body.len() > LONGEST_BODY {
            return Err(PairFault::TooLong);
        }
        Ok(self.body.as_slice())
    }
}
