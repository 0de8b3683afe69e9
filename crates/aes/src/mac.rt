// AES-128-CMAC.
ghost use Rattle.std.specs.Prelude.{◌≡◌, ◌<◌, ◌≤◌, length, fold, OnOk};
ghost use Rattle.base.specs.Work.{zeros, after};
ghost use Rattle.tagging.specs.Tags.{tag_answer, tag_first};
ghost use Rattle.aes.specs.Calls.{in_room, subkeys_of};
ghost use Rattle.aes.specs.Cipher.{xored, ciphered};
ghost use Rattle.aes.specs.Lengths.{length-cmac_tag};
ghost use Rattle.aes.specs.Mac.{zero_block, doubled as doubled_block, subkey1, padded as padded_rest, last_block, mac_by, cmac, cmac_tag};
ghost use Rattle.aes.specs.Vectors.{Vectors};

use super::block::{BLOCK_BYTES, Block};
use super::cipher::{RoundKeys, encrypt, expand, parts};
use base::{Fault, KEY_BYTES, Scratch, TAG_BYTES};
use tagging::{Tagger, admit};

/// The two subkeys of a key: for a whole last block, and for a padded one.
#[derive(Clone, Copy)]
pub struct Subkeys {
    pub first: [u8; BLOCK_BYTES],
    pub second: [u8; BLOCK_BYTES],
}

// A block shifted by one bit to the left; a bit that falls out comes back as 0x87.
#[tactic(auto, using(crate::proofs::Macs::doubled_is))]
fn doubled(block: Block) -> Block
    ensures { result ≡ doubled_block block }
{
    let Block { a, b, c, d } = block;
    Block {
        a: a.wrapping_mul(2) + (b >> 31),
        b: b.wrapping_mul(2) + (c >> 31),
        c: c.wrapping_mul(2) + (d >> 31),
        d: d.wrapping_mul(2) ^ ((a >> 31) * 0x87),
    }
}

// The first subkey.
fn first_subkey(keys: &RoundKeys) -> Block
    ensures { result ≡ subkey1 (ciphered keys.now) }
{
    doubled(encrypt(keys, Block::from([0; BLOCK_BYTES])))
}

// Blocks of a text, one after the other. As a `fold` it takes 13 nanoseconds more than 859 for a text of 128 bytes.
fn chain(keys: &RoundKeys, blocks: &[[u8; BLOCK_BYTES]]) -> Block
    ensures { result ≡ fold (λ x block. ciphered keys.now (xored x block)) zero_block blocks.now }
{
    let mut x = Block::from([0; BLOCK_BYTES]);
    for block in blocks {
        x = encrypt(keys, x ^ Block::from(*block));
    }
    x
}

// The rest of a text, filled up to a block.
fn padded(rest: &[u8], spare: &mut [u8; BLOCK_BYTES]) -> Block
    requires { length rest.now < 16 }
    ensures { result ≡ padded_rest rest.now }
{
    spare.fill(0);
    spare[..rest.len()].copy_from_slice(rest);
    spare[rest.len()] = 0x80;
    Block::from(*spare)
}

// The last block, under its subkey: whole, or padded.
fn last_block(keys: &RoundKeys, rest: &[u8], spare: &mut [u8; BLOCK_BYTES]) -> Block
    requires { length rest.now ≤ 16 }
    ensures { result ≡ last_block (ciphered keys.now) rest.now }
{
    let subkey = first_subkey(keys);
    if let Some(whole) = rest.as_array() {
        Block::from(*whole) ^ subkey
    } else {
        padded(rest, spare) ^ doubled(subkey)
    }
}

// The whole code of a text. Its last block stands apart even where it is whole, since a subkey comes on it. Round keys and a
// spare block are two parts of one lent area; a struct of both would be handed to this, `last_block` and `tag_bytes` alone.
fn mac(keys: &RoundKeys, text: &[u8], spare: &mut [u8; BLOCK_BYTES]) -> Block
    ensures { result ≡ mac_by (ciphered keys.now) text.now }
{
    let before = text.len().saturating_sub(1) / BLOCK_BYTES;
    let (front, last) = text.split_at(before * BLOCK_BYTES);
    let (blocks, _) = front.as_chunks();
    let x = chain(keys, blocks);
    encrypt(keys, x ^ last_block(keys, last, spare))
}

// The first eight bytes of the code of a text under a key.
fn tag_bytes(
    key: &[u8; KEY_BYTES],
    text: &[u8],
    keys: &mut RoundKeys,
    spare: &mut [u8; BLOCK_BYTES],
) -> [u8; TAG_BYTES]
    ensures tag { result ≡ cmac_tag key.now text.now }
    ensures examples { Vectors }
{
    expand(key, keys);
    let code = <[u8; BLOCK_BYTES]>::from(mac(keys, text, spare));
    *code.first_chunk().unwrap()
}

/// The subkeys of a key.
pub fn generate_subkeys(key: &[u8; KEY_BYTES], work: &mut [u8]) -> Result<Subkeys, Fault>
    ensures answer { result ≡ in_room (length work.old) (subkeys_of key.now) }
    ensures clean { work.new ≡ zeros (length work.old) }
{
    let guard = Scratch(work);
    let (keys, _) = parts(guard.0)?;
    expand(key, keys);
    let subkey = first_subkey(keys);
    Ok(Subkeys {
        first: subkey.into(),
        second: doubled(subkey).into(),
    })
}

/// AES-128-CMAC: the tag is the first eight bytes of the code.
#[derive(Clone, Copy)]
pub struct Cmac;

impl Tagger for Cmac {
    ghost tag_of = { λ _ key text. cmac_tag key text };

    ghost eight = { λ _ key text. length-cmac_tag key text };

    fn tag(
        &self,
        key: &[u8; KEY_BYTES],
        text: &[u8],
        out: &mut [u8],
        work: &mut [u8],
    ) -> Result<(), Fault>
        ensures answer { result ≡ tag_answer (length text.now) (length out.old) (length work.old) }
        ensures out { out.new ≡ after result (tag_first (cmac_tag key.now text.now) out.old) out.old }
        ensures clean { work.new ≡ zeros (length work.old) }
        ensures examples { OnOk result Vectors }
    {
        let guard = Scratch(work);
        admit(text.len(), out.len(), guard.0.len())?;
        let (keys, spare) = parts(guard.0)?;
        out[..TAG_BYTES].copy_from_slice(&tag_bytes(key, text, keys, spare));
        Ok(())
    }
}
