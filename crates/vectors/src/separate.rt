// SipHash-2-4 and AES-128-CMAC once more, written another way and sharing no function with the taggers: the one on pairs of
// 32-bit halves and byte by byte, the other with an S-box that is computed at each use. Slow, and only for comparison.

use std::iter::once;
use std::ops::{Add, BitXor};

// A number of 64 bits in two halves.
#[derive(Clone, Copy)]
struct Pair {
    high: u32,
    low: u32,
}

// The sum, without what does not fit.
impl Add for Pair {
    type Output = Pair;

    fn add(self, other: Pair) -> Pair {
        let (low, carry) = self.low.overflowing_add(other.low);
        let high = self.high.wrapping_add(other.high);
        Pair::new(high.wrapping_add(u32::from(carry)), low)
    }
}

impl BitXor for Pair {
    type Output = Pair;

    fn bitxor(self, other: Pair) -> Pair {
        Pair::new(self.high ^ other.high, self.low ^ other.low)
    }
}

impl Pair {
    fn new(high: u32, low: u32) -> Pair {
        Pair { high, low }
    }

    // Turned left by one bit.
    fn turned(self) -> Pair {
        Pair::new(
            (self.high << 1) | (self.low >> 31),
            (self.low << 1) | (self.high >> 31),
        )
    }

    // Turned left by some bits, one after another.
    fn rotate_left(self, bits: u8) -> Pair {
        (0..bits).fold(self, |pair, _| pair.turned())
    }

    // The number in eight bytes, lowest first.
    fn from_le_bytes([a, b, c, d, e, f, g, h]: [u8; 8]) -> Pair {
        Pair::new(
            u32::from_le_bytes([e, f, g, h]),
            u32::from_le_bytes([a, b, c, d]),
        )
    }

    // The bytes, lowest first.
    fn to_le_bytes(self) -> [u8; 8] {
        let [a, b, c, d] = self.low.to_le_bytes();
        let [e, f, g, h] = self.high.to_le_bytes();
        [a, b, c, d, e, f, g, h]
    }
}

// What has gone through SipHash so far.
#[derive(Clone, Copy)]
struct Sip {
    v0: Pair,
    v1: Pair,
    v2: Pair,
    v3: Pair,
    // The bytes of a word that is not full yet.
    word: [u8; 8],
    held: usize,
}

impl Sip {
    fn new(key: &[u8; 16]) -> Sip {
        let [a, b, c, d, e, f, g, h, i, j, k, l, m, n, o, p] = *key;
        let first = Pair::from_le_bytes([a, b, c, d, e, f, g, h]);
        let second = Pair::from_le_bytes([i, j, k, l, m, n, o, p]);
        // "somepseudorandomlygeneratedbytes"
        Sip {
            v0: first ^ Pair::new(0x736f6d65, 0x70736575),
            v1: second ^ Pair::new(0x646f7261, 0x6e646f6d),
            v2: first ^ Pair::new(0x6c796765, 0x6e657261),
            v3: second ^ Pair::new(0x74656462, 0x79746573),
            word: [0; 8],
            held: 0,
        }
    }

    fn round(&mut self) {
        self.v0 = self.v0 + self.v1;
        self.v1 = self.v1.rotate_left(13) ^ self.v0;
        self.v0 = self.v0.rotate_left(32);
        self.v2 = self.v2 + self.v3;
        self.v3 = self.v3.rotate_left(16) ^ self.v2;
        self.v0 = self.v0 + self.v3;
        self.v3 = self.v3.rotate_left(21) ^ self.v0;
        self.v2 = self.v2 + self.v1;
        self.v1 = self.v1.rotate_left(17) ^ self.v2;
        self.v2 = self.v2.rotate_left(32);
    }

    // Takes one byte, and every eighth time a word.
    fn take(&mut self, byte: u8) {
        if let Some(place) = self.word.get_mut(self.held) {
            *place = byte;
        }
        if self.held < 7 {
            self.held += 1;
            return;
        }
        self.held = 0;
        let m = Pair::from_le_bytes(self.word);
        self.v3 = self.v3 ^ m;
        self.round();
        self.round();
        self.v0 = self.v0 ^ m;
    }
}

/// The tag of a text by SipHash-2-4.
pub fn siphash(key: &[u8; 16], text: &[u8]) -> [u8; 8] {
    let mut sip = Sip::new(key);
    for byte in text {
        sip.take(*byte);
    }
    // Zeros up to the last byte of a word, which is the length.
    for _ in 0..7 - text.len() % 8 {
        sip.take(0);
    }
    sip.take((text.len() % 256) as u8);
    sip.v2 = sip.v2 ^ Pair::new(0, 0xff);
    for _ in 0..4 {
        sip.round();
    }
    (sip.v0 ^ sip.v1 ^ sip.v2 ^ sip.v3).to_le_bytes()
}

// The product of two bytes as polynomials, reduced by x^8 + x^4 + x^3 + x + 1 from the top. Loops: as chains of closures they
// take three times as long.
fn times(a: u8, b: u8) -> u8 {
    let mut wide: u16 = 0;
    for bit in 0..8u32 {
        if (b >> bit) % 2 == 1 {
            wide ^= u16::from(a) << bit;
        }
    }
    for bit in (0..7u32).rev() {
        if (wide >> (bit + 8)) % 2 == 1 {
            wide ^= 0x11b << bit;
        }
    }
    (wide % 256) as u8
}

// The inverse, as the power 254, whose bits are taken from the highest on; of 0 it is 0.
fn inverse(byte: u8) -> u8 {
    let mut power = 1;
    for i in 0..8u32 {
        power = times(power, power);
        if (254u8 << i) >= 128 {
            power = times(power, byte);
        }
    }
    power
}

// Bit i of a byte, counted from the lowest and around.
fn bit(byte: u8, i: u32) -> u8 {
    (byte >> (i % 8)) % 2
}

// The S-box: the inverse, and then a map of its bits.
fn sub(byte: u8) -> u8 {
    let x = inverse(byte);
    let mut mapped = 0;
    for i in 0..8u32 {
        let sum = bit(x, i)
            ^ bit(x, i + 4)
            ^ bit(x, i + 5)
            ^ bit(x, i + 6)
            ^ bit(x, i + 7)
            ^ bit(0x63, i);
        mapped ^= sum << i;
    }
    mapped
}

// The sum of two blocks, bit by bit.
fn xor(a: &[u8; 16], b: &[u8; 16]) -> [u8; 16] {
    (u128::from_be_bytes(*a) ^ u128::from_be_bytes(*b)).to_be_bytes()
}

// The block of four columns.
fn block_of(columns: &[[u8; 4]; 4]) -> [u8; 16] {
    let mut block = [0; 16];
    block.copy_from_slice(columns.as_flattened());
    block
}

// The key of the next round: to each word are added all words before it, and to every one the last
// word, turned by a byte, replaced, and with the round's constant.
fn next_key(key: &[u8; 16], constant: u8) -> [u8; 16] {
    let [.., a, b, c, d] = *key;
    let turned = [sub(b) ^ constant, sub(c), sub(d), sub(a)];
    let words = u128::from_be_bytes(*key);
    let sums = words ^ (words >> 32) ^ (words >> 64) ^ (words >> 96);
    xor(&sums.to_be_bytes(), &block_of(&[turned; 4]))
}

// The columns of a state with its bytes replaced and its rows shifted: byte r of column c comes out of column c + r.
fn shifted(state: &[u8; 16]) -> [[u8; 4]; 4] {
    let mut columns = [[0; 4]; 4];
    for c in 0..4usize {
        for r in 0..4usize {
            columns[c][r] = sub(state[(4 * c + 5 * r) % 16]);
        }
    }
    columns
}

// A column times the matrix that mixes it.
fn mixed([a, b, c, d]: [u8; 4]) -> [u8; 4] {
    let row = |w, x, y, z| times(2, w) ^ times(3, x) ^ y ^ z;
    [
        row(a, b, c, d),
        row(b, c, d, a),
        row(c, d, a, b),
        row(d, a, b, c),
    ]
}

/// A block under a key by AES-128.
pub fn encrypt(key: &[u8; 16], block: &[u8; 16]) -> [u8; 16] {
    let mut round_key = *key;
    let mut constant = 1;
    let mut state = xor(block, key);
    for round in 1..=10 {
        round_key = next_key(&round_key, constant);
        constant = times(constant, 2);
        let columns = shifted(&state);
        // The last round does not mix.
        let columns = if round < 10 {
            columns.map(mixed)
        } else {
            columns
        };
        state = xor(&block_of(&columns), &round_key);
    }
    state
}

// Twice a block, as a number in the field of blocks.
fn doubled(block: [u8; 16]) -> [u8; 16] {
    let number = u128::from_be_bytes(block);
    ((number << 1) ^ ((number >> 127) * 0x87)).to_be_bytes()
}

/// The two subkeys of AES-128-CMAC.
pub fn subkeys(key: &[u8; 16]) -> ([u8; 16], [u8; 16]) {
    let first = doubled(encrypt(key, &[0; 16]));
    (first, doubled(first))
}

// A text with a one bit and zeros after it, as far as a block goes.
fn padded(rest: &[u8]) -> [u8; 16] {
    let mut block = [0; 16];
    for (byte, padded) in block.iter_mut().zip(rest.iter().copied().chain(once(128))) {
        *byte = padded;
    }
    block
}

/// All sixteen bytes that AES-128-CMAC gives for a text.
pub fn cmac(key: &[u8; 16], text: &[u8]) -> [u8; 16] {
    let (first, second) = subkeys(key);
    let (blocks, rest) = text.as_chunks::<16>();
    let (before, last) = match blocks {
        [before @ .., last] if rest.is_empty() => (before, xor(last, &first)),
        _ => (blocks, xor(&padded(rest), &second)),
    };
    let chained = before.iter().fold(
        [0; 16],
        |chained, block| encrypt(key, &xor(&chained, block)),
    );
    encrypt(key, &xor(&chained, &last))
}
