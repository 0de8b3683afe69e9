// The fields that both kinds of status messages have, asked and told.
ghost use Rattle.std.specs.Prelude.{◌≡◌, length, SomeIff};
ghost use Rattle.messages.specs.Wire.{meant, get_status, respond_status, status};
ghost use Rattle.messages.specs.Trips.{WholeStatus};
ghost use Rattle.messages.specs.Fields.{status_at};

use crate::fields::{as_tag, first_u64};
use crate::message::Message;
use base::{IDENTITY_BYTES, TAG_BYTES};

// The count is the largest that is taken or the one that is told, and the other number the nonce
// or the stored version.
#[derive(Clone, Copy)]
pub(crate) struct Status {
    pub(crate) version: u64,
    pub(crate) identity: [u8; IDENTITY_BYTES],
    pub(crate) count: u32,
    pub(crate) other: u64,
    pub(crate) tag: [u8; TAG_BYTES],
}

impl Status {
    // The fields, one after the other, if the bytes are as many.
    pub(crate) fn parse(rest: &[u8]) -> Option<Status>
        ensures { SomeIff result (length rest.now ≡ 40) (status_at rest.now) }
    {
        let (version, rest) = first_u64(rest)?;
        let (identity, rest) = rest.split_first_chunk::<IDENTITY_BYTES>()?;
        let (count, rest) = rest.split_first_chunk::<4>()?;
        let (other, rest) = first_u64(rest)?;
        let tag = as_tag(rest)?;
        Some(Status {
            version,
            identity: *identity,
            count: u32::from_be_bytes(*count),
            other,
            tag,
        })
    }

    // The fields as those of a request for the status. The two kinds name two of them each in their own way, so each has its function.
    pub(crate) fn into_get_status<'a>(self) -> Message<'a>
        ensures { meant result ≡ get_status self.version self.identity self.count self.other self.tag }
    {
        let Status {
            version,
            identity,
            count: limit,
            other: nonce,
            tag,
        } = self;
        Message::GetStatus {
            version,
            identity,
            limit,
            nonce,
            tag,
        }
    }

    // The fields as those of a status.
    pub(crate) fn into_respond_status<'a>(self) -> Message<'a>
        ensures { meant result ≡ respond_status self.version self.identity self.count self.other self.tag }
    {
        let Status {
            version,
            identity,
            count,
            other: stored,
            tag,
        } = self;
        Message::RespondStatus {
            version,
            identity,
            count,
            stored,
            tag,
        }
    }

    // Writes the fields, one after the other, over bytes that are as many.
    #[tactic(auto, using(crate::proofs::Words::word_bytes, crate::proofs::Words::half_bytes))]
    pub(crate) fn write(self, rest: &mut [u8])
        requires { length rest.old ≡ 40 }
        ensures fields { rest.new ≡ status self.version self.identity self.count self.other self.tag }
        ensures whole { WholeStatus self.version self.identity self.count self.other self.tag }
    {
        let Status {
            version,
            identity,
            count,
            other,
            tag,
        } = self;
        let (place, rest) = rest.split_first_chunk_mut::<8>().unwrap();
        *place = version.to_be_bytes();
        let (place, rest) = rest.split_first_chunk_mut::<IDENTITY_BYTES>().unwrap();
        *place = identity;
        let (place, rest) = rest.split_first_chunk_mut::<4>().unwrap();
        *place = count.to_be_bytes();
        let (place, rest) = rest.split_first_chunk_mut::<8>().unwrap();
        *place = other.to_be_bytes();
        rest.copy_from_slice(&tag);
    }
}
