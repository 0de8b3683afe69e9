// Which of two images a terminal runs.
#![tactic(auto)]

ghost use Rattle.std.specs.Prelude.{◌≡◌, ◌*◌, ◌<◌, ◌≤◌, length};
ghost use Rattle.loader.specs.Image.{slot_number, first_row, add16, sum_bytes, whole_by, looking, choosing, loading};
ghost use Rattle.loader.specs.Laws.{SumLaws, StandingLaws};

use base::{Case, Fault, Layer, ROW_BYTES, leading_number};
use memory::{RowKind, Rows};

/// The rows of the smallest slot.
pub const MIN_SLOT_ROWS: u16 = 2;

/// The rows of the largest slot.
pub const MAX_SLOT_ROWS: u16 = 64;

/// What the words of a whole image add up to.
pub const WHOLE_SUM: u16 = 65535;

/// One of the two slots of a memory.
#[derive(Clone, Copy, Debug, PartialEq, Eq)]
pub enum Slot {
    First = 1,
    Second = 2,
}

/// The number that a user is told.
impl From<Slot> for u8 {
    ghost from_gives = { λ slot n. n ≡ slot_number slot };

    fn from(slot: Slot) -> u8 {
        slot as u8
    }
}

/// A whole image: the slot that it is in, and its version.
#[derive(Clone, Copy, Debug, PartialEq, Eq)]
pub struct Image {
    pub slot: Slot,
    pub version: u64,
}

/// Adds a word to a running sum, a carry out of the sixteen bits being added back in.
pub fn add_word(sum: u16, word: u16) -> u16
    ensures { result ≡ add16 sum word }
{
    let (low, carry) = sum.overflowing_add(word);
    low + u16::from(carry)
}

/// Adds the words of a row, highest byte first, to a running sum.
#[tactic(auto, using(crate::proofs::Sums::words_sum, crate::proofs::Adding::sum_laws))]
pub fn add_row(start: u16, row: &[u8; ROW_BYTES]) -> u16
    ensures sum { result ≡ sum_bytes start row.now }
    ensures laws { SumLaws }
{
    let (words, _) = row.as_chunks::<2>();
    words
        .iter()
        .map(|word| u16::from_be_bytes(*word))
        .fold(start, add_word)
}

// Whether written rows with this version and this sum are a whole image.
fn is_whole(version: u64, sum: u16) -> bool
    ensures { result ≡ whole_by version sum }
{
    version != 0 && sum == WHOLE_SUM
}

// The two slots of a memory that has room for them.
#[derive(Drop)]
struct Slots<'a, R: Rows> {
    rows: &'a R,
    slot_rows: u16,
    ghost some: { 0 < slot_rows },
    ghost small: { 2 * slot_rows < 65536 },
    ghost within: { 2 * slot_rows ≤ length (R.held rows.now).rows },
}

impl<R: Rows> Slots<'_, R> {
    // The row that a slot begins at.
    fn first_row(&self, slot: Slot) -> u16
        ensures value { result ≡ first_row self.now.slot_rows slot }
        ensures within { result ≤ self.now.slot_rows }
    {
        match slot {
            Slot::First => 0,
            Slot::Second => self.slot_rows,
        }
    }

    // The image in a slot, if it is whole: read row by row, up to the first that is not written. Its version is in the first
    // row, which is read in the same turn as the others, and is 0, which no image has, before that.
    fn look(&self, slot: Slot) -> Result<Option<Image>, Fault>
        ensures { result ≡ looking (R.held self.now.rows.now) self.now.slot_rows slot }
    {
        let first = self.first_row(slot);
        let mut area = [0; ROW_BYTES];
        let mut sum = 0;
        let mut version = 0;
        for row in first..first + self.slot_rows {
            let RowKind::Written = self.rows.read(row, &mut area)? else {
                return Ok(None);
            };
            if row == first {
                version = leading_number(&area);
            }
            sum = add_row(sum, &area);
        }
        Ok(is_whole(version, sum).then_some(Image { slot, version }))
    }

    // The image to run: the second slot's only where the first has none.
    fn choose(&self) -> Result<Image, Fault>
        ensures { result ≡ choosing (R.held self.now.rows.now) self.now.slot_rows }
    {
        match self.look(Slot::First)? {
            Some(image) => Ok(image),
            None => self
                .look(Slot::Second)?
                .ok_or_else(|| Fault::new(Case::NoImage, Layer::Loader)),
        }
    }
}

/// The image to run: its slot and its version. The first slot is the first `slot_rows` rows, the
/// second the `slot_rows` after them. Refused as `BadShape` are a slot of fewer than 2 or more than
/// 64 rows and a memory that has no room for two, as `NoImage` one with no whole image.
#[tactic(auto, using(crate::proofs::Choosing::standing_laws), unfolding(crate::specs::Image::loading))]
pub fn load<R: Rows>(rows: &R, slot_rows: u16) -> Result<Image, Fault>
    ensures answer { result ≡ loading (R.held rows.now) slot_rows }
    ensures laws { StandingLaws }
{
    if !(MIN_SLOT_ROWS..=MAX_SLOT_ROWS).contains(&slot_rows) || 2 * slot_rows > rows.size() {
        return Err(Fault::new(Case::BadShape, Layer::Loader));
    }
    Slots { rows, slot_rows }.choose()
}
