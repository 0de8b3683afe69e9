// A number plate.
ghost use Rattle.std.specs.Prelude.{◌≡◌, ◌≤◌, true, length};
ghost use Rattle.identity.specs.Plates.{all_printable, fits_plate, is_plate, is_plate_text, padded, plate_bytes};

use crate::Identity;
use base::{Case, Fault, IDENTITY_BYTES, Layer};

// What fills a plate up.
const SPACE: u8 = 32;

// The lowest byte of a plate.
const LOWEST: u8 = 32;

// The highest byte of a plate.
const HIGHEST: u8 = 126;

/// The text of a number plate: 1 to 12 bytes from 32 to 126, not ending in a space, filled up with
/// spaces to 12.
#[derive(Clone, Copy, Debug, PartialEq, Eq)]
pub struct Plate {
    bytes: [u8; IDENTITY_BYTES],
    ghost shape: { is_plate bytes ≡ true },
}

// Whether a text has from 1 to 12 bytes and does not end in a space.
fn fits_plate(text: &[u8]) -> bool
    ensures { result ≡ fits_plate text.now }
{
    text.len() <= IDENTITY_BYTES && text.last().is_some_and(|last| *last != SPACE)
}

// Whether a plate may have all the bytes of a text.
fn all_printable(text: &[u8]) -> bool
    ensures { result ≡ all_printable text.now }
{
    text.iter().all(|byte| (LOWEST..=HIGHEST).contains(byte))
}

// Whether a text has a plate.
#[tactic(auto, unfolding(crate::specs::Plates::is_plate_text))]
fn is_plate_text(text: &[u8]) -> bool
    ensures { result ≡ is_plate_text text.now }
{
    fits_plate(text) && all_printable(text)
}

// A text filled up with spaces.
#[tactic(auto, using(crate::proofs::Plated::front_long, crate::proofs::Plated::written_over))]
fn filled_up(text: &[u8]) -> [u8; IDENTITY_BYTES]
    requires { length text.now ≤ plate_bytes }
    ensures { result ≡ padded text.now }
{
    let mut bytes = [SPACE; IDENTITY_BYTES];
    bytes[..text.len()].copy_from_slice(text);
    bytes
}

/// The plate of a text. Refused as `BadShape` is a text that is empty or longer than 12 bytes, that
/// has a byte below 32 or above 126, or that ends in a space; it may begin with one.
impl TryFrom<&[u8]> for Plate {
    ghost use Rattle.identity.specs.Plates.{plate_of, PlateLaws};
    ghost use Rattle.identity.specs.Made.{bytes_in};

    type Error = Fault;

    ghost try_from_gives = { λ text made. bytes_in made ≡ plate_of text.now };

    #[tactic(auto, using(crate::proofs::Plated::plate_laws, crate::proofs::Plated::short, crate::proofs::Plated::padded_shape))]
    fn try_from(text: &[u8]) -> Result<Plate, Fault>
        ensures answer { bytes_in result ≡ plate_of text.now }
        ensures laws { PlateLaws }
    {
        if !is_plate_text(text) {
            return Err(Fault::new(Case::BadShape, Layer::Common));
        }
        Ok(Plate {
            bytes: filled_up(text),
        })
    }
}

impl Identity for Plate {
    ghost use Rattle.identity.specs.Exact.{plate_exact};
    ghost use Rattle.std.proofs.Common.{rules};

    ghost id_bytes = { λ p. p.bytes };

    ghost twelve = { Prim.search rules };

    ghost exact = { plate_exact };

    fn bytes(&self) -> [u8; IDENTITY_BYTES] {
        self.bytes
    }
}
