// Writing a message.
ghost use Rattle.std.specs.Prelude.{◌≡◌, ◌+◌, ◌≤◌, ◌++◌, length};
ghost use Rattle.base.specs.Numbers.{big_endian};
ghost use Rattle.base.specs.Work.{after};
ghost use Rattle.messages.specs.Kinds.{about};
ghost use Rattle.messages.specs.Wire.{meant, kind_of, fields_of};
ghost use Rattle.messages.specs.Codec.{writing, written};
ghost use Rattle.messages.specs.Trips.{WholeClose, Whole, ReadsBack};

use crate::message::Message;
use crate::status::Status;
use base::{Case, Fault, Layer, TAG_BYTES};

// Writes the fields of a closing over bytes that are as many.
#[tactic(auto, using(crate::proofs::Words::word_bytes))]
fn put_close(version: u64, tag: [u8; TAG_BYTES], rest: &mut [u8])
    requires { length rest.old ≡ 16 }
    ensures fields { rest.new ≡ big_endian 8 version ++ tag }
    ensures whole { WholeClose version tag }
{
    let (front, rest) = rest.split_first_chunk_mut::<8>().unwrap();
    *front = version.to_be_bytes();
    rest.copy_from_slice(&tag);
}

// Writes what follows a message's first byte.
fn put_fields(message: &Message, rest: &mut [u8])
    requires { length rest.old + 1 ≡ (about (kind_of (meant message.now))).bytes }
    ensures fields { rest.new ≡ fields_of (meant message.now) }
    ensures whole { Whole (meant message.now) }
{
    match *message {
        Message::GetStatus {
            version,
            identity,
            limit: count,
            nonce: other,
            tag,
        }
        | Message::RespondStatus {
            version,
            identity,
            count,
            stored: other,
            tag,
        } => Status {
            version,
            identity,
            count,
            other,
            tag,
        }
        .write(rest),
        Message::Row { row } => rest.copy_from_slice(row),
        Message::Close { version, tag } => put_close(version, tag, rest),
        Message::Update { tag }
        | Message::Reset { tag }
        | Message::UpdateConfirm { tag }
        | Message::UpdateFail { tag }
        | Message::ResetConfirm { tag } => rest.copy_from_slice(&tag),
        Message::Abort => {}
    }
}

// Writes a message at the front of an area that has room for it.
fn put_message(message: &Message, area: &mut [u8])
    requires { (about (kind_of (meant message.now))).bytes ≤ length area.old }
    ensures area { area.new ≡ written (meant message.now) area.old }
    ensures whole { Whole (meant message.now) }
{
    let kind = message.kind();
    area[0] = u8::from(kind);
    put_fields(message, &mut area[1..kind.length()]);
}

/// Writes a message at the front of an area, and answers its length; every byte after it stays.
/// Refused as `ShortArea` is an area that is shorter than the message; it stays as it is.
#[tactic(auto, using(crate::proofs::Trips::reads_back))]
pub fn write(message: &Message, area: &mut [u8]) -> Result<usize, Fault>
    ensures answer { result ≡ writing (meant message.now) (length area.old) }
    ensures area { area.new ≡ after result (written (meant message.now) area.old) area.old }
    ensures back { ReadsBack (meant message.now) result area.new }
{
    let length = message.kind().length();
    if area.len() < length {
        return Err(Fault::new(Case::ShortArea, Layer::Common));
    }
    put_message(message, area);
    Ok(length)
}
