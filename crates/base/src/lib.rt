// What every crate above shares: faults, numbers in bytes, the working area.
#![tactic(auto)]

ghost use Rattle.std.specs.Prelude.{◌≡◌};
ghost use Rattle.base.specs.Faults.{number as number_of, layer_number, fault_at, fault, row_number};
ghost use Rattle.base.specs.Numbers.{leading};

mod scratch;

pub use scratch::{Scratch, WORK_BYTES, clear};

/// The row that a user is told where a fault is about no row.
pub const NOWHERE: u16 = 65535;

/// The bytes of a row.
pub const ROW_BYTES: usize = 64;

/// The bytes of a key.
pub const KEY_BYTES: usize = 16;

/// The bytes of a tag.
pub const TAG_BYTES: usize = 8;

/// The bytes of an identity.
pub const IDENTITY_BYTES: usize = 12;

/// Why a call was refused. Faults of the input come first, then faults of the state.
#[derive(Clone, Copy, Debug, PartialEq, Eq)]
pub enum Case {
    Empty = 1,
    NoKind = 2,
    WrongEnd = 3,
    BadLength = 4,
    ShortArea = 5,
    BadShape = 6,
    NoRow = 7,
    TooLong = 8,
    PowerOff = 21,
    PowerCut = 22,
    NoImage = 23,
    OutOfTurn = 24,
    BadTag = 25,
    CountFull = 26,
    NotOurs = 27,
    Aborted = 28,
    NotListed = 29,
}

/// Where a call was refused. `Common` are taggers, identities and messages.
#[derive(Clone, Copy, PartialEq, Eq, Debug)]
pub enum Layer {
    Common = 0,
    Memory = 1,
    Loader = 2,
    Terminal = 3,
    Server = 4,
}

/// A refusal: why, where, and the row whose reading, writing or blanking was refused, if it is about one.
#[derive(Clone, Copy, PartialEq, Eq, Debug)]
pub struct Fault {
    pub case: Case,
    pub layer: Layer,
    pub row: Option<u16>,
}

/// The number that a user is told. No two cases have one number.
impl From<Case> for u8 {
    ghost from_gives = { λ case n. n ≡ number_of case };

    fn from(case: Case) -> u8
        ensures number { result ≡ number_of case }
        ensures own { (other : Case) → result ≡ number_of other → case ≡ other }
    {
        case as u8
    }
}

/// The number that a user is told.
impl From<Layer> for u8 {
    ghost from_gives = { λ layer n. n ≡ layer_number layer };

    fn from(layer: Layer) -> u8 {
        layer as u8
    }
}

impl Fault {
    /// A fault that is about no row.
    pub fn new(case: Case, layer: Layer) -> Fault
        ensures { result ≡ fault case layer }
    {
        Fault {
            case,
            layer,
            row: None,
        }
    }

    /// A fault about a row.
    pub fn at(case: Case, layer: Layer, row: u16) -> Fault
        ensures { result ≡ fault_at case layer row }
    {
        Fault {
            case,
            layer,
            row: Some(row),
        }
    }

    /// The row that a user is told: `NOWHERE` where the fault is about none.
    pub fn row_number(self) -> u16
        ensures { result ≡ row_number self.row }
    {
        self.row.unwrap_or(NOWHERE)
    }
}

/// The number in a row's first eight bytes, highest byte first.
pub fn leading_number(row: &[u8; ROW_BYTES]) -> u64
    ensures { result ≡ leading 8 row.now }
{
    let [a, b, c, d, e, f, g, h, ..] = *row;
    u64::from_be_bytes([a, b, c, d, e, f, g, h])
}
