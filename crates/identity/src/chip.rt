// A chip, named by the number that it is made with.
ghost use Rattle.std.specs.Prelude.{◌≡◌, ◌++◌};
ghost use Rattle.base.specs.Numbers.{big_endian};
ghost use Rattle.base.specs.Work.{zeros};
ghost use Rattle.identity.specs.Chips.{chip, chip_bytes};
ghost use Rattle.identity.specs.Exact.{chip_exact};
ghost use Rattle.std.proofs.Common.{rules};

use crate::Identity;
use base::IDENTITY_BYTES;

/// The number that a chip is made with.
#[derive(Clone, Copy, Debug, PartialEq, Eq)]
pub struct Chip {
    number: u64,
}

/// The chip with a number: any is one.
impl From<u64> for Chip {
    ghost from_gives = { λ number made. made ≡ chip number };

    #[tactic(auto, using(crate::proofs::Chipped::as_written))]
    fn from(number: u64) -> Chip
        ensures is { result ≡ chip number }
        ensures bytes { chip_bytes result ≡ zeros 4 ++ big_endian 8 number }
    {
        Chip { number }
    }
}

impl Identity for Chip {
    ghost id_bytes = { chip_bytes };

    ghost twelve = { Prim.search rules };

    ghost exact = { chip_exact };

    // Four zero bytes and the eight of the number, highest first.
    fn bytes(&self) -> [u8; IDENTITY_BYTES] {
        let [a, b, c, d, e, f, g, h] = self.number.to_be_bytes();
        [0, 0, 0, 0, a, b, c, d, e, f, g, h]
    }
}
