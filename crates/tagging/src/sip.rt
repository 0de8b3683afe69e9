// SipHash-2-4.
ghost use Rattle.std.specs.Prelude.{◌≡◌, ℕ, ◌+◌, ◌-◌, ◌*◌, ◌/◌, ◌%◌, ◌^◌, ◌<◌, ◌≤◌, [], ◌∷◌, ◌++◌, length, take, drop, fold, refl, OnOk};
ghost use Rattle.std.specs.Int.{w64, from_le_bytes};
ghost use Rattle.base.specs.Work.{zeros, after};
ghost use Rattle.tagging.specs.Examples.{SipExample};
ghost use Rattle.tagging.specs.Sip.{first_half, second_half, sip_round, started, absorbed, absorbs, finished, filling, sip_hash, sip_tag};
ghost use Rattle.tagging.specs.Tags.{tag_answer, tag_first};
ghost use Rattle.tagging.specs.Words.{low_first};

use super::{Tagger, admit};
use base::{Fault, KEY_BYTES, Scratch, TAG_BYTES};

const WORD_BYTES: usize = 8;

// The four words that a text is absorbed into.
#[derive(Clone, Copy)]
pub(crate) struct State {
    v0: u64,
    v1: u64,
    v2: u64,
    v3: u64,
}

impl State {
    // The key's two words on the four constants.
    fn new(key: &[u8; KEY_BYTES]) -> State
        ensures { result ≡ started key.now }
    {
        let [k0, k1] = key_words(key);
        State {
            v0: k0 ^ 0x736f6d6570736575,
            v1: k1 ^ 0x646f72616e646f6d,
            v2: k0 ^ 0x6c7967656e657261,
            v3: k1 ^ 0x7465646279746573,
        }
    }

    fn first_half(self) -> State
        ensures { result ≡ first_half self }
    {
        let v0 = self.v0.wrapping_add(self.v1);
        let v2 = self.v2.wrapping_add(self.v3);
        State {
            v0: v0.rotate_left(32),
            v1: self.v1.rotate_left(13) ^ v0,
            v2,
            v3: self.v3.rotate_left(16) ^ v2,
        }
    }

    fn second_half(self) -> State
        ensures { result ≡ second_half self }
    {
        let v2 = self.v2.wrapping_add(self.v1);
        let v0 = self.v0.wrapping_add(self.v3);
        State {
            v0,
            v1: self.v1.rotate_left(17) ^ v2,
            v2: v2.rotate_left(32),
            v3: self.v3.rotate_left(21) ^ v0,
        }
    }

    #[tactic(auto, unfolding(crate::specs::Sip::sip_round))]
    fn round(self) -> State
        ensures { result ≡ sip_round self }
    {
        self.first_half().second_half()
    }

    // Takes one word of the text in.
    #[tactic(auto, unfolding(crate::specs::Sip::absorbed))]
    fn absorb(self, m: u64) -> State
        ensures { result ≡ absorbed self m }
    {
        let v3 = self.v3 ^ m;
        let s = State { v3, ..self }.round().round();
        let v0 = s.v0 ^ m;
        State { v0, ..s }
    }

    // Takes words in, one after the other.
    fn absorb_all(self, words: &[[u8; WORD_BYTES]]) -> State
        ensures { result ≡ fold (λ s word. absorbed s (from_le_bytes w64 word)) self words.now }
    {
        words
            .iter()
            .fold(self, |s, word| s.absorb(u64::from_le_bytes(*word)))
    }

    #[tactic(auto, unfolding(crate::specs::Sip::finished))]
    fn finish(self) -> u64
        ensures { result ≡ finished self }
    {
        let v2 = self.v2 ^ 0xff;
        let s = State { v2, ..self }.round().round().round().round();
        s.v0 ^ s.v1 ^ s.v2 ^ s.v3
    }
}

// The two words of a key.
fn key_words(key: &[u8; KEY_BYTES]) -> [u64; 2]
    ensures { result ≡ low_first (take 8 key.now) ∷ low_first (take 8 (drop 8 key.now)) ∷ [] }
{
    let (words, _) = key.as_chunks();
    [u64::from_le_bytes(words[0]), u64::from_le_bytes(words[1])]
}

// A word out of what is left of a text of `size` bytes, zeros, and the size modulo 256. It is made by shifts: bytes that are
// copied into an array and read back as a word cost 3 of 36 nanoseconds for a text of 41 bytes.
fn filled(rest: &[u8], size: usize) -> u64
    requires { length rest.now < 8 }
    ensures { result ≡ low_first (rest.now ++ filling size (length rest.now)) }
{
    let number = rest
        .iter()
        .rev()
        .fold(0, |n, byte| n << 8 | u64::from(*byte));
    number | (size as u64) << 56
}

// The hash of a text. Its last word is made first, which leaves less to do behind the whole ones.
#[tactic(auto, using(crate::proofs::Absorbing::hash_is))]
fn hash(key: &[u8; KEY_BYTES], text: &[u8]) -> u64
    ensures { result ≡ sip_hash key.now text.now }
{
    let (words, rest) = text.as_chunks();
    let last = filled(rest, text.len());
    State::new(key).absorb_all(words).absorb(last).finish()
}

// The eight bytes of the hash.
fn tag_bytes(key: &[u8; KEY_BYTES], text: &[u8]) -> [u8; TAG_BYTES]
    ensures tag { result ≡ sip_tag key.now text.now }
    ensures example { SipExample }
{
    hash(key, text).to_le_bytes()
}

/// SipHash-2-4: the tag is the hash, its lowest byte first. It needs no working bytes, and clears them as any tagger.
#[derive(Clone, Copy)]
pub struct SipHash;

impl Tagger for SipHash {
    ghost tag_of = { λ _ key text. sip_tag key text };

    ghost eight = { unfold sip_tag in λ t key text. refl };

    fn tag(
        &self,
        key: &[u8; KEY_BYTES],
        text: &[u8],
        out: &mut [u8],
        work: &mut [u8],
    ) -> Result<(), Fault>
        ensures answer { result ≡ tag_answer (length text.now) (length out.old) (length work.old) }
        ensures out { out.new ≡ after result (tag_first (sip_tag key.now text.now) out.old) out.old }
        ensures clean { work.new ≡ zeros (length work.old) }
        ensures example { OnOk result SipExample }
    {
        let guard = Scratch(work);
        admit(text.len(), out.len(), guard.0.len())?;
        out[..TAG_BYTES].copy_from_slice(&tag_bytes(key, text));
        Ok(())
    }
}
