// Tags: eight bytes that a key and a text have in common.
#![tactic(auto)]

ghost use Rattle.std.specs.Prelude.{◌≡◌, ℕ, ◌+◌, ◌-◌, ◌≤◌, List, ◌++◌, length, OnOk};
ghost use Rattle.base.specs.Work.{zeros, after, work_bytes};
ghost use Rattle.tagging.specs.Tags.{tag_answer, tag_first, tag_from, tag_bytes, text_bytes, Room};

mod sip;

use base::{Case, Fault, KEY_BYTES, Layer, TAG_BYTES, WORK_BYTES};
pub use sip::SipHash;

/// The longest text that has a tag.
pub const TEXT_BYTES: usize = 128;

/// Whether a text can be tagged into an area of `out` bytes with `work` working bytes.
pub fn admit(text: usize, out: usize, work: usize) -> Result<(), Fault>
    ensures answer { result ≡ tag_answer text out work }
    ensures room { OnOk result (Room text out work) }
{
    if work < WORK_BYTES || out < TAG_BYTES {
        return Err(Fault::new(Case::ShortArea, Layer::Common));
    }
    if text > TEXT_BYTES {
        return Err(Fault::new(Case::TooLong, Layer::Common));
    }
    Ok(())
}

/// Writes the tag of a text into the eight bytes of an area from a place on; every other byte stays.
// A place beside a whole lent area, and no part of it, since what is promised is what the whole then holds.
#[tactic(auto, using(crate::proofs::Places::part_length, crate::proofs::Places::part_put))]
pub fn tag_from<T: Tagger>(
    tagger: &T,
    key: &[u8; KEY_BYTES],
    text: &[u8],
    area: &mut [u8],
    place: usize,
    work: &mut [u8],
) -> Result<(), Fault>
    ensures answer { result ≡ tag_answer (length text.now) (length area.old - place) (length work.old) }
    ensures area { area.new ≡ after result (tag_from place (T.Tagger.tag_of tagger.now key.now text.now) area.old) area.old }
    ensures clean { work.new ≡ zeros (length work.old) }
{
    let start = place.min(area.len());
    tagger.tag(key, text, &mut area[start..], work)
}

/// A function from a key and a text to a tag.
pub trait Tagger {
    ghost tag_of: { Self → List ℕ → List ℕ → List ℕ };

    /// Writes the tag to the first eight bytes of `out`, which may be a part of a larger area.
    // Four parameters and no struct: key, text, `out` and `work` are lent apart, by different owners, and C hands the same four.
    fn tag(
        &self,
        key: &[u8; KEY_BYTES],
        text: &[u8],
        out: &mut [u8],
        work: &mut [u8],
    ) -> Result<(), Fault>
        ensures answer { result ≡ tag_answer (length text.now) (length out.old) (length work.old) }
        ensures out { out.new ≡ after result (tag_first (tag_of self.now key.now text.now) out.old) out.old }
        ensures clean { work.new ≡ zeros (length work.old) };

    ghost eight: { (t : Self) (key text : List ℕ) → length (tag_of t key text) ≡ tag_bytes };
}
