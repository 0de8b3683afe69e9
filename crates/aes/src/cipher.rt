// AES-128: the round keys, the rounds, and a block under a key.
ghost use Rattle.std.specs.Prelude.{◌≡◌, ◌<◌, ◌≤◌, length, map, fold, IfOk, IfErr};
ghost use Rattle.base.specs.Faults.{fault};
ghost use Rattle.base.specs.declared.Case.TheVariants.{ShortArea};
ghost use Rattle.base.specs.declared.Layer.TheVariants.{Common};
ghost use Rattle.base.specs.Work.{zeros, after, work_bytes};
ghost use Rattle.aes.specs.Calls.{in_room};
ghost use Rattle.aes.specs.Cipher.{sub_bytes, shift_rows, mix_column, turned as turned_word, next_key, expanded, one_round, last_round, ciphered, aes};
ghost use Rattle.aes.specs.Field.{xtime as times_x};
ghost use Rattle.aes.specs.Words.{word_bytes, columns};

use super::block::{BLOCK_BYTES, Block};
use super::tables::{FIRST, FOURTH, SBOX, SECOND, THIRD};
use base::{Case, Fault, Layer, Scratch, WORK_BYTES};

// The round keys of a key: the first, nine for the rounds, and the last.
pub(super) type RoundKeys = [[u8; BLOCK_BYTES]; 11];

// Times x in the field.
fn xtime(byte: u8) -> u8
    ensures { result ≡ times_x byte }
{
    byte.wrapping_mul(2) ^ (byte / 128 * 0x1b)
}

// A column through the S-box.
fn subbed(column: [u8; 4]) -> u32
    ensures { word_bytes result ≡ sub_bytes column }
{
    let [a, b, c, d] = column;
    u32::from_be_bytes([
        SBOX[usize::from(a)],
        SBOX[usize::from(b)],
        SBOX[usize::from(c)],
        SBOX[usize::from(d)],
    ])
}

// A column through the S-box, mixed.
fn mixed(column: [u8; 4]) -> u32
    ensures { word_bytes result ≡ mix_column (sub_bytes column) }
{
    let [a, b, c, d] = column;
    FIRST[usize::from(a)] ^ SECOND[usize::from(b)] ^ THIRD[usize::from(c)] ^ FOURTH[usize::from(d)]
}

// A word turned by a byte, through the S-box, and the round's constant on its first byte.
fn turned(word: u32, constant: u8) -> u32
    ensures { word_bytes result ≡ turned_word constant (word_bytes word) }
{
    let [a, b, c, d] = word.to_be_bytes();
    subbed([b, c, d, a]) ^ (u32::from(constant) << 24)
}

// The round key after a round key.
#[tactic(auto, using(crate::proofs::Columns::next_is))]
fn next_key(key: Block, constant: u8) -> Block
    ensures { result ≡ next_key constant key }
{
    let a = key.a ^ turned(key.d, constant);
    let b = key.b ^ a;
    let c = key.c ^ b;
    let d = key.d ^ c;
    Block { a, b, c, d }
}

// Fills an area with the eleven round keys.
pub(super) fn expand(key: &[u8; BLOCK_BYTES], keys: &mut RoundKeys)
    ensures { keys.new ≡ expanded key.now }
{
    let mut round_key = Block::from(*key);
    let mut constant = 1;
    for slot in keys.iter_mut() {
        *slot = round_key.into();
        round_key = next_key(round_key, constant);
        constant = xtime(constant);
    }
}

// The columns of a state whose row r is shifted by r places to the left. The S-box takes each byte alone, and may come behind.
#[tactic(auto, unfolding(crate::specs::Words::word_bytes, crate::specs::Cipher::shift_rows))]
fn shift_rows(s: Block) -> [[u8; 4]; 4]
    ensures { map sub_bytes result ≡ columns (shift_rows (sub_bytes s)) }
{
    let [a0, a1, a2, a3] = s.a.to_be_bytes();
    let [b0, b1, b2, b3] = s.b.to_be_bytes();
    let [c0, c1, c2, c3] = s.c.to_be_bytes();
    let [d0, d1, d2, d3] = s.d.to_be_bytes();
    [
        [a0, b1, c2, d3],
        [b0, c1, d2, a3],
        [c0, d1, a2, b3],
        [d0, a1, b2, c3],
    ]
}

// A round.
#[tactic(auto, using(crate::proofs::Columns::round_is))]
fn one_round(s: Block, key: Block) -> Block
    ensures { result ≡ one_round s key }
{
    let [a, b, c, d] = shift_rows(s);
    Block {
        a: mixed(a) ^ key.a,
        b: mixed(b) ^ key.b,
        c: mixed(c) ^ key.c,
        d: mixed(d) ^ key.d,
    }
}

// The last round, which mixes no columns. With the step as a parameter, a contract would have to speak of any step's results.
#[tactic(auto, using(crate::proofs::Columns::last_is))]
fn last_round(s: Block, key: Block) -> Block
    ensures { result ≡ last_round s key }
{
    let [a, b, c, d] = shift_rows(s);
    Block {
        a: subbed(a) ^ key.a,
        b: subbed(b) ^ key.b,
        c: subbed(c) ^ key.c,
        d: subbed(d) ^ key.d,
    }
}

// Rounds under some round keys.
fn rounds(state: Block, keys: &[[u8; BLOCK_BYTES]]) -> Block
    ensures { result ≡ fold one_round state keys.now }
{
    keys.iter()
        .fold(state, |s, key| one_round(s, Block::from(*key)))
}

// A block under the round keys.
pub(super) fn encrypt(keys: &RoundKeys, block: Block) -> Block
    ensures { result ≡ ciphered keys.now block }
{
    let state = rounds(block ^ Block::from(keys[0]), &keys[1..10]);
    last_round(state, Block::from(keys[10]))
}

// The parts of a lent working area: the round keys, and a block to spare.
pub(super) fn parts(work: &mut [u8]) -> Result<(&mut RoundKeys, &mut [u8; BLOCK_BYTES]), Fault>
    ensures enough { IfOk result (λ _. work_bytes ≤ length work.old) }
    ensures short { IfErr result (λ f. (f ≡ fault ShortArea Common) × (length work.old < work_bytes)) }
{
    if work.len() < WORK_BYTES {
        return Err(Fault::new(Case::ShortArea, Layer::Common));
    }
    let (blocks, _) = work.as_chunks_mut();
    let (keys, rest) = blocks.split_first_chunk_mut().unwrap();
    Ok((keys, &mut rest[0]))
}

/// Encrypts a block in its place.
pub fn encrypt_block(
    key: &[u8; BLOCK_BYTES],
    block: &mut [u8; BLOCK_BYTES],
    work: &mut [u8],
) -> Result<(), Fault>
    ensures answer { result ≡ in_room (length work.old) tt }
    ensures block { block.new ≡ after result (aes key.now block.old) block.old }
    ensures clean { work.new ≡ zeros (length work.old) }
{
    let guard = Scratch(work);
    let (keys, _) = parts(guard.0)?;
    expand(key, keys);
    *block = encrypt(keys, Block::from(*block)).into();
    Ok(())
}
