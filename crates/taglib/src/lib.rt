// The taggers for C: the library that the benchmarks link.
#![tactic(auto)]

ghost use Rattle.std.specs.Prelude.{◌≡◌, ℕ, length};
ghost use Rattle.base.specs.Work.{zeros, after};
ghost use Rattle.tagging.specs.Sip.{sip_tag};
ghost use Rattle.tagging.specs.Tags.{tag_first};
ghost use Rattle.aes.specs.Mac.{cmac_tag};
ghost use Rattle.taglib.specs.Calls.{keyed_answer, shown};

use aes::Cmac;
use base::{Case, Fault, Layer, clear};
use tagging::{SipHash, Tagger};

// Writes the tag under a key that has to have sixteen bytes.
fn tag_keyed<T: Tagger>(
    tagger: &T,
    key: &[u8],
    text: &[u8],
    out: &mut [u8],
    work: &mut [u8],
) -> Result<(), Fault>
    ensures answer { result ≡ keyed_answer (length key.now) (length text.now) (length out.old) (length work.old) }
    ensures out { out.new ≡ after result (tag_first (T.Tagger.tag_of tagger.now key.now text.now) out.old) out.old }
    ensures clean { work.new ≡ zeros (length work.old) }
{
    let Some(key) = key.as_array() else {
        clear(work);
        return Err(Fault::new(Case::BadShape, Layer::Common));
    };
    tagger.tag(key, text, out, work)
}

// Nothing, or the number of the fault: C is told numbers.
fn number(answer: Result<(), Fault>) -> u32
    ensures { result ≡ shown answer }
{
    match answer {
        Ok(()) => 0,
        Err(fault) => u32::from(u8::from(fault.case)),
    }
}

/// Writes the SipHash-2-4 tag to the first eight bytes of `out`: 0, or the number of the fault.
// It differs from the next in its tagger alone: C calls each by a name.
#[unsafe(no_mangle)]
pub extern "C" fn neltobur_siphash(key: &[u8], text: &[u8], out: &mut [u8], work: &mut [u8]) -> u32
    ensures answer { result ≡ shown (keyed_answer (length key.now) (length text.now) (length out.old) (length work.old)) }
    ensures out { out.new ≡ after (keyed_answer (length key.now) (length text.now) (length out.old) (length work.old)) (tag_first (sip_tag key.now text.now) out.old) out.old }
    ensures clean { work.new ≡ zeros (length work.old) }
{
    number(tag_keyed(&SipHash, key, text, out, work))
}

/// Writes the AES-128-CMAC tag to the first eight bytes of `out`: 0, or the number of the fault.
#[unsafe(no_mangle)]
pub extern "C" fn neltobur_cmac(key: &[u8], text: &[u8], out: &mut [u8], work: &mut [u8]) -> u32
    ensures answer { result ≡ shown (keyed_answer (length key.now) (length text.now) (length out.old) (length work.old)) }
    ensures out { out.new ≡ after (keyed_answer (length key.now) (length text.now) (length out.old) (length work.old)) (tag_first (cmac_tag key.now text.now) out.old) out.old }
    ensures clean { work.new ≡ zeros (length work.old) }
{
    number(tag_keyed(&Cmac, key, text, out, work))
}
