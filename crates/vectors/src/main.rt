// The published vectors of SipHash-2-4, AES-128 and AES-128-CMAC, and both taggers beside separate code. A line says of how
// many it holds that the product and the separate code give what they should.
#![tactic(auto)]

mod compare;
mod published;
mod separate;

use aes::{Cmac, encrypt_block, generate_subkeys};
use base::WORK_BYTES;
use compare::{COMPARED, agreeing, gives};
use separate::{cmac, encrypt, siphash, subkeys};
use std::io;
use tagging::SipHash;

// How many hold.
fn holding(all: &[bool]) -> usize {
    all.iter().filter(|holds| **holds).count()
}

// Whether a block becomes another under a key.
fn becomes(key: &[u8; 16], block: &[u8; 16], wanted: &[u8; 16]) -> bool {
    let mut work = [255; WORK_BYTES];
    let mut ours = *block;
    encrypt_block(key, &mut ours, &mut work).is_ok()
        && ours == *wanted
        && encrypt(key, block) == *wanted
        && work == [0; WORK_BYTES]
}

// FIPS 197, appendices B and C.1.
fn blocks() -> usize {
    holding(&[
        becomes(&published::KEY, &published::B_BLOCK, &published::B_RESULT),
        becomes(
            &published::RISING_KEY,
            &published::C_BLOCK,
            &published::C_RESULT,
        ),
    ])
}

// RFC 4493: the block of zeros, and the subkeys.
fn keys() -> usize {
    let mut work = [255; WORK_BYTES];
    let ours = generate_subkeys(&published::KEY, &mut work).ok();
    let clean = work == [0; WORK_BYTES];
    let (one, two) = subkeys(&published::KEY);
    holding(&[
        becomes(&published::KEY, &[0; 16], &published::ZERO_RESULT),
        clean
            && ours.is_some_and(|both| both.first == published::SUBKEY_1)
            && one == published::SUBKEY_1,
        clean
            && ours.is_some_and(|both| both.second == published::SUBKEY_2)
            && two == published::SUBKEY_2,
    ])
}

// The first eight bytes of what AES-128-CMAC gives, which are a tag.
fn front([a, b, c, d, e, f, g, h, ..]: [u8; 16]) -> [u8; 8] {
    [a, b, c, d, e, f, g, h]
}

// Whether a text has a tag, of which the product gives the first eight bytes.
fn tagged(text: &[u8], mac: &[u8; 16]) -> bool {
    gives(&Cmac, &published::KEY, text, &front(*mac)) && cmac(&published::KEY, text) == *mac
}

// RFC 4493: the four texts.
fn macs() -> usize {
    holding(&[
        tagged(&published::MESSAGE[..0], &published::MAC_0),
        tagged(&published::MESSAGE[..16], &published::MAC_16),
        tagged(&published::MESSAGE[..40], &published::MAC_40),
        tagged(&published::MESSAGE, &published::MAC_64),
    ])
}

// Whether the first bytes from 0 on have a tag.
fn hashed(text: &[u8], tag: &[u8; 8]) -> bool {
    gives(&SipHash, &published::RISING_KEY, text, tag)
        && siphash(&published::RISING_KEY, text) == *tag
}

// The table of SipHash's reference code.
fn table() -> usize {
    published::SIP_TABLE
        .iter()
        .enumerate()
        .filter(|(len, tag)| hashed(&published::RISING[..*len], tag))
        .count()
}

fn main(rt: HostRuntime) -> io::Result<()> {
    println!(rt; "fips 197, blocks: {} of 2", blocks())?;
    println!(rt; "rfc 4493, subkeys: {} of 3", keys())?;
    println!(rt; "rfc 4493, texts: {} of 4", macs())?;
    let paper = hashed(&published::RISING[..15], &published::SIP_15.to_le_bytes());
    println!(rt; "siphash, paper: {} of 1", holding(&[paper]))?;
    println!(rt; "siphash, table: {} of 64", table())?;
    println!(rt;
        "siphash, separate code: {} of {}",
        agreeing(&SipHash, siphash),
        COMPARED
    )?;
    println!(rt;
        "cmac, separate code: {} of {}",
        agreeing(&Cmac, |key, text| front(cmac(key, text))),
        COMPARED
    )
}
