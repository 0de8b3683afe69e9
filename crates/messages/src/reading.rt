// Reading a message.
ghost use Rattle.std.specs.Prelude.{◌≡◌, ◌+◌, length, Some, SomeIff};
ghost use Rattle.std.specs.Option.{option_map};
ghost use Rattle.messages.specs.Kinds.{about};
ghost use Rattle.messages.specs.Wire.{meant, said_by};
ghost use Rattle.messages.specs.Codec.{told, reading_as, reading};
ghost use Rattle.messages.specs.Trips.{WritesBack, RoundTrips};

use crate::fields::{as_tag, first_u64};
use crate::kind::{End, Kind};
use crate::message::Message;
use crate::status::Status;
use base::{Case, Fault, Layer, ROW_BYTES};

// What a message of a kind says by the bytes after its first, if they are as many as its kind has.
fn parse(kind: Kind, rest: &[u8]) -> Option<Message>
    ensures { SomeIff (option_map meant result)
        (length rest.now + 1 ≡ (about kind).bytes)
        (said_by kind rest.now) }
{
    match kind {
        Kind::GetStatus => Some(Status::parse(rest)?.into_get_status()),
        Kind::RespondStatus => Some(Status::parse(rest)?.into_respond_status()),
        Kind::Update => Some(Message::Update { tag: as_tag(rest)? }),
        Kind::Reset => Some(Message::Reset { tag: as_tag(rest)? }),
        Kind::Row => Some(Message::Row {
            row: rest.as_array::<ROW_BYTES>()?,
        }),
        Kind::Close => {
            let (version, rest) = first_u64(rest)?;
            Some(Message::Close {
                version,
                tag: as_tag(rest)?,
            })
        }
        Kind::UpdateConfirm => Some(Message::UpdateConfirm { tag: as_tag(rest)? }),
        Kind::UpdateFail => Some(Message::UpdateFail { tag: as_tag(rest)? }),
        Kind::ResetConfirm => Some(Message::ResetConfirm { tag: as_tag(rest)? }),
        Kind::Abort => match rest {
            [] => Some(Message::Abort),
            _ => None,
        },
    }
}

// Reads a message of a kind at an end, by the bytes after its first.
fn read_as(end: End, kind: Kind, rest: &[u8]) -> Result<Message, Fault>
    ensures { told result ≡ reading_as end (Some kind) rest.now }
{
    if end != kind.reader() {
        return Err(Fault::new(Case::WrongEnd, end.layer()));
    }
    parse(kind, rest).ok_or(Fault::new(Case::BadLength, Layer::Common))
}

/// Reads a message at an end. Refused as `Empty` is a message of no byte, as `NoKind` one whose first
/// byte is no kind, as `WrongEnd` one for the other end, and as `BadLength` one that is too short or
/// too long for its kind, tried in this order.
#[tactic(auto, using(crate::proofs::Trips::round_trips))]
pub fn read(end: End, message: &[u8]) -> Result<Message, Fault>
    ensures answer { told result ≡ reading end message.now }
    ensures back { WritesBack (told result) message.now }
    ensures trips { RoundTrips }
{
    let [first, rest @ ..] = message else {
        return Err(Fault::new(Case::Empty, Layer::Common));
    };
    let kind = Kind::try_from(*first).map_err(|case| Fault::new(case, Layer::Common))?;
    read_as(end, kind, rest)
}
