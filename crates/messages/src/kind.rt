// The kinds of messages.
ghost use Rattle.std.specs.Prelude.{◌≡◌};
ghost use Rattle.std.specs.Option.{ok_or};
ghost use Rattle.base.specs.declared.Case.TheVariants.{NoKind};
ghost use Rattle.messages.specs.Entry.{whole_kind, EntryLaws};
ghost use Rattle.messages.specs.Kinds.{about, kind_by, layer_of};

use base::{Case, Layer};

/// The end that reads a message.
#[derive(Clone, Copy, Debug, PartialEq, Eq)]
pub enum End {
    Terminal,
    Server,
}

/// What a message is for.
#[derive(Clone, Copy, Debug, PartialEq, Eq)]
pub enum Kind {
    GetStatus = 1,
    RespondStatus = 2,
    Update = 3,
    Reset = 4,
    Row = 5,
    Close = 6,
    UpdateConfirm = 7,
    UpdateFail = 8,
    ResetConfirm = 9,
    Abort = 10,
}

impl End {
    /// The layer of the refusals that are this end's own.
    // A method and no `From`: an end has a layer, and is none.
    pub fn layer(self) -> Layer
        ensures { result ≡ layer_of self }
    {
        match self {
            End::Terminal => Layer::Terminal,
            End::Server => Layer::Server,
        }
    }
}

/// The first byte of a message of a kind.
impl From<Kind> for u8 {
    ghost from_gives = { λ kind number. number ≡ (about kind).number };

    fn from(kind: Kind) -> u8 {
        kind as u8
    }
}

/// The kind with a number. Refused as `NoKind` is a number that no kind has.
impl TryFrom<u8> for Kind {
    type Error = Case;

    ghost try_from_gives = { λ number kind. kind ≡ ok_or (kind_by number) NoKind };

    fn try_from(number: u8) -> Result<Kind, Case> {
        match number {
            1 => Ok(Kind::GetStatus),
            2 => Ok(Kind::RespondStatus),
            3 => Ok(Kind::Update),
            4 => Ok(Kind::Reset),
            5 => Ok(Kind::Row),
            6 => Ok(Kind::Close),
            7 => Ok(Kind::UpdateConfirm),
            8 => Ok(Kind::UpdateFail),
            9 => Ok(Kind::ResetConfirm),
            10 => Ok(Kind::Abort),
            _ => Err(Case::NoKind),
        }
    }
}

impl Kind {
    /// The kind of a message that has its kind's length. Refused as `Empty` is a message of no byte,
    /// as `NoKind` one whose first byte is no kind, and as `BadLength` one that is too short or too
    /// long for its kind, tried in this order.
    #[tactic(auto, using(crate::proofs::Naming::entry_laws))]
    pub fn of_message(message: &[u8]) -> Result<Kind, Case>
        ensures answer { result ≡ whole_kind message.now }
        ensures laws { EntryLaws }
    {
        let [first, ..] = message else {
            return Err(Case::Empty);
        };
        let kind = Kind::try_from(*first)?;
        if message.len() != kind.length() {
            return Err(Case::BadLength);
        }
        Ok(kind)
    }

    /// The bytes of a message of this kind, the first among them.
    pub fn length(self) -> usize
        ensures { result ≡ (about self).bytes }
    {
        match self {
            Kind::GetStatus | Kind::RespondStatus => 41,
            Kind::Update | Kind::Reset => 9,
            Kind::Row => 65,
            Kind::Close => 17,
            Kind::UpdateConfirm | Kind::UpdateFail | Kind::ResetConfirm => 9,
            Kind::Abort => 1,
        }
    }

    /// The end that reads messages of this kind.
    pub fn reader(self) -> End
        ensures { result ≡ (about self).reader }
    {
        match self {
            Kind::GetStatus | Kind::Update | Kind::Reset | Kind::Row | Kind::Close => End::Terminal,
            Kind::RespondStatus
            | Kind::UpdateConfirm
            | Kind::UpdateFail
            | Kind::ResetConfirm
            | Kind::Abort => End::Server,
        }
    }
}
