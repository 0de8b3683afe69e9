// A block: a state, a round key, or sixteen bytes of a text.
ghost use Rattle.std.specs.Prelude.{◌≡◌};
ghost use Rattle.aes.specs.Cipher.{xored};

use std::marker::Model;
use std::ops::BitXor;

/// The bytes of a block.
pub const BLOCK_BYTES: usize = 16;

// The four columns of a block, each a word whose highest byte comes first. The rounds take the columns by their names.
#[derive(Clone, Copy)]
pub(super) struct Block {
    pub(super) a: u32,
    pub(super) b: u32,
    pub(super) c: u32,
    pub(super) d: u32,
}

// A block is its sixteen bytes.
impl Model for Block {
    ghost use Rattle.std.specs.Prelude.{ℕ, List};

    ghost Value = { List ℕ };

    ghost use Rattle.aes.specs.Words.{bytes_of, Fits, block_of, block_of_bytes};

    ghost view = { bytes_of };

    ghost invariant = { Fits };

    ghost inverse = { block_of };

    ghost inverse_ok = { block_of_bytes };
}

impl From<[u8; BLOCK_BYTES]> for Block {
    ghost from_gives = { λ bytes block. block ≡ bytes };

    fn from(bytes: [u8; BLOCK_BYTES]) -> Block {
        let (words, _) = bytes.as_chunks();
        Block {
            a: u32::from_be_bytes(words[0]),
            b: u32::from_be_bytes(words[1]),
            c: u32::from_be_bytes(words[2]),
            d: u32::from_be_bytes(words[3]),
        }
    }
}

impl From<Block> for [u8; BLOCK_BYTES] {
    ghost from_gives = { λ block bytes. bytes ≡ block };

    fn from(block: Block) -> [u8; BLOCK_BYTES] {
        let [a0, a1, a2, a3] = block.a.to_be_bytes();
        let [b0, b1, b2, b3] = block.b.to_be_bytes();
        let [c0, c1, c2, c3] = block.c.to_be_bytes();
        let [d0, d1, d2, d3] = block.d.to_be_bytes();
        [
            a0, a1, a2, a3, b0, b1, b2, b3, c0, c1, c2, c3, d0, d1, d2, d3,
        ]
    }
}

// The sum of two blocks, bit by bit.
impl BitXor for Block {
    type Output = Block;

    ghost bitxor_gives = { λ x y sum. sum ≡ xored x y };

    fn bitxor(self, other: Block) -> Block {
        Block {
            a: self.a ^ other.a,
            b: self.b ^ other.b,
            c: self.c ^ other.c,
            d: self.d ^ other.d,
        }
    }
}
