// The rows of a part's table: a rewriting part's are what they mean, a flash part's have a mark.
ghost use Rattle.std.specs.Prelude.{◌≡◌};
ghost use Rattle.memory.specs.Model.{Row, written, blank as blank_row, spoilt, kind_of, shown_of};
ghost use Rattle.cells.specs.Cells.{plain_means, flash_means, marked, all_blank, written_mark, spoilt_mark};

use base::ROW_BYTES;
use memory::RowKind;

/// A row of a part's table, which is written, blanked and spoilt in its place.
pub trait Cell: Sized {
    // What the row means.
    ghost means: { Self → Row };

    /// A blank row.
    fn new() -> Self
        ensures { means result ≡ blank_row };

    /// Takes 64 bytes.
    fn write(&mut self, bytes: &[u8; ROW_BYTES])
        ensures { means self.new ≡ written bytes.now };

    /// Becomes blank.
    fn blank(&mut self)
        ensures { means self.new ≡ blank_row };

    /// Becomes spoilt.
    fn spoil(&mut self)
        ensures { means self.new ≡ spoilt };

    /// Fills the area with what the row reads as, and answers its kind.
    fn show(&self, area: &mut [u8; ROW_BYTES]) -> RowKind
        ensures answer { result ≡ kind_of (means self.now) }
        ensures area { area.new ≡ shown_of (means self.now) };

    /// The row's kind.
    fn kind(&self) -> RowKind
        ensures { result ≡ kind_of (means self.now) };
}

/// A row of the rewriting part.
#[derive(Clone, Copy, Debug, PartialEq, Eq)]
pub enum PlainRow {
    Written([u8; ROW_BYTES]),
    Blank,
    Spoilt,
}

/// A row of the flash part.
// Its mark is no enum: it is a byte of the memory, which may hold any value, and all but two mean spoilt.
#[derive(Clone, Copy, Debug, PartialEq, Eq)]
pub struct FlashRow {
    mark: u8,
    bytes: [u8; ROW_BYTES],
}

// The mark of a blank flash row.
const BLANK_MARK: u8 = 255;

// The mark of a written flash row.
const WRITTEN_MARK: u8 = 15;

// The mark that a cut leaves. Every mark that is neither of the others means spoilt.
const SPOILT_MARK: u8 = 0;

// What the bytes of a blank flash row are.
const BLANK_BYTE: u8 = 255;

// What a row that is not written reads as.
const NO_BYTES: [u8; ROW_BYTES] = [0; ROW_BYTES];

impl Cell for PlainRow {
    ghost means = { plain_means };

    fn new() -> PlainRow {
        PlainRow::Blank
    }

    fn write(&mut self, bytes: &[u8; ROW_BYTES]) {
        *self = PlainRow::Written(*bytes);
    }

    fn blank(&mut self) {
        *self = PlainRow::Blank;
    }

    fn spoil(&mut self) {
        *self = PlainRow::Spoilt;
    }

    fn show(&self, area: &mut [u8; ROW_BYTES]) -> RowKind {
        *area = match self {
            PlainRow::Written(bytes) => *bytes,
            PlainRow::Blank | PlainRow::Spoilt => NO_BYTES,
        };
        self.kind()
    }

    fn kind(&self) -> RowKind {
        match self {
            PlainRow::Written(_) => RowKind::Written,
            PlainRow::Blank => RowKind::Blank,
            PlainRow::Spoilt => RowKind::Spoilt,
        }
    }
}

impl Cell for FlashRow {
    ghost means = { flash_means };

    fn new() -> FlashRow
        ensures means { flash_means result ≡ blank_row }
        ensures held { result ≡ all_blank }
    {
        FlashRow {
            mark: BLANK_MARK,
            bytes: [BLANK_BYTE; ROW_BYTES],
        }
    }

    fn write(&mut self, bytes: &[u8; ROW_BYTES])
        ensures means { flash_means self.new ≡ written bytes.now }
        ensures held { self.new ≡ marked written_mark bytes.now }
    {
        self.mark = WRITTEN_MARK;
        self.bytes = *bytes;
    }

    fn blank(&mut self)
        ensures means { flash_means self.new ≡ blank_row }
        ensures held { self.new ≡ all_blank }
    {
        *self = FlashRow::new();
    }

    fn spoil(&mut self)
        ensures means { flash_means self.new ≡ spoilt }
        ensures held { self.new ≡ marked spoilt_mark self.old.bytes }
    {
        self.mark = SPOILT_MARK;
    }

    fn show(&self, area: &mut [u8; ROW_BYTES]) -> RowKind {
        let kind = self.kind();
        *area = match kind {
            RowKind::Written => self.bytes,
            RowKind::Blank | RowKind::Spoilt => NO_BYTES,
        };
        kind
    }

    fn kind(&self) -> RowKind {
        match self.mark {
            BLANK_MARK => RowKind::Blank,
            WRITTEN_MARK => RowKind::Written,
            _ => RowKind::Spoilt,
        }
    }
}
