// A message, taken apart.
ghost use Rattle.std.specs.Prelude.{◌≡◌};
ghost use Rattle.messages.specs.Wire.{meant, kind_of};

use crate::kind::Kind;
use base::{IDENTITY_BYTES, ROW_BYTES, TAG_BYTES};

/// A message and its fields. A row is lent by the bytes that it was read from.
#[derive(Clone, Copy, Debug, PartialEq, Eq)]
pub enum Message<'a> {
    /// Asks a terminal for its status. It names the version and the identity that are expected, the
    /// largest count that is taken, and the server's nonce.
    GetStatus {
        version: u64,
        identity: [u8; IDENTITY_BYTES],
        limit: u32,
        nonce: u64,
        tag: [u8; TAG_BYTES],
    },
    /// Tells the running version, the identity, the count and the stored version.
    RespondStatus {
        version: u64,
        identity: [u8; IDENTITY_BYTES],
        count: u32,
        stored: u64,
        tag: [u8; TAG_BYTES],
    },
    /// Begins an update: the rows of an image follow.
    Update {
        tag: [u8; TAG_BYTES],
    },
    /// Has the terminal start anew.
    Reset {
        tag: [u8; TAG_BYTES],
    },
    /// One row of an image.
    Row {
        row: &'a [u8; ROW_BYTES],
    },
    /// Ends an update, and names the version that was uploaded.
    Close {
        version: u64,
        tag: [u8; TAG_BYTES],
    },
    /// The update was made.
    UpdateConfirm {
        tag: [u8; TAG_BYTES],
    },
    /// The update was not made.
    UpdateFail {
        tag: [u8; TAG_BYTES],
    },
    /// The terminal has started anew.
    ResetConfirm {
        tag: [u8; TAG_BYTES],
    },
    /// The terminal has broken the session off.
    Abort,
}

impl<'a> Message<'a> {
    /// The kind of this message.
    pub fn kind(&self) -> Kind
        ensures { result ≡ kind_of (meant self.now) }
    {
        match self {
            Message::GetStatus { .. } => Kind::GetStatus,
            Message::RespondStatus { .. } => Kind::RespondStatus,
            Message::Update { .. } => Kind::Update,
            Message::Reset { .. } => Kind::Reset,
            Message::Row { .. } => Kind::Row,
            Message::Close { .. } => Kind::Close,
            Message::UpdateConfirm { .. } => Kind::UpdateConfirm,
            Message::UpdateFail { .. } => Kind::UpdateFail,
            Message::ResetConfirm { .. } => Kind::ResetConfirm,
            Message::Abort => Kind::Abort,
        }
    }
}
