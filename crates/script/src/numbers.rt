// What a word says: a number, or the bytes of a row.
ghost use Rattle.std.specs.Prelude.{◌≡◌, ℕ, ◌+◌, ◌*◌, ◌<◌, List, Option, IfSome};
ghost use Rattle.script.specs.Words.{digit_in, byte_of, in_base, at_most, bits8, bits16, bits32, bits64, row_bytes};

use base::ROW_BYTES;

const DECIMAL: u8 = 10;

const HEX: u8 = 16;

// A value that a word of a line says.
pub(crate) trait FromWord: Sized + Drop {
    ghost said: { List ℕ → Option Self };

    fn from_word(word: &[u8]) -> Option<Self>
        ensures { result ≡ said word.now };
}

// The value of a digit that is below the base. The library's `to_digit` and `from_str_radix` also take upper case, and the
// latter a sign; a script refuses both.
fn digit(byte: u8, base: u8) -> Option<u8>
    ensures is { result ≡ digit_in base byte }
    ensures small { IfSome result (λ d. d < base) }
{
    let value = match byte {
        b'0'..=b'9' => byte - b'0',
        b'a'..=b'f' => byte - b'a' + 10,
        _ => return None,
    };
    (value < base).then_some(value)
}

// A number with one more digit, if it has no more than 64 bits.
fn grown(n: u64, base: u8, digit: u8) -> Option<u64>
    ensures { result ≡ at_most u64.MAX (Some (n * base + digit)) }
{
    n.checked_mul(u64::from(base))?
        .checked_add(u64::from(digit))
}

// The number of one or more digits, if it has no more than 64 bits.
fn number_in(digits: &[u8], base: u8) -> Option<u64>
    requires { 0 < base }
    ensures { result ≡ at_most u64.MAX (in_base base digits.now) }
{
    if digits.is_empty() {
        return None;
    }
    let mut n = 0;
    for byte in digits {
        n = grown(n, base, digit(*byte, base)?)?;
    }
    Some(n)
}

// A word's number.
fn number(word: &[u8]) -> Option<u64>
    ensures { result ≡ bits64 word.now }
{
    match word.strip_prefix(b"0x") {
        Some(digits) => number_in(digits, HEX),
        None => number_in(word, DECIMAL),
    }
}

// Three impls: a blanket one over `TryFrom<u64>` is in the way of the impls below and of those for other types, and has no
// `said`, since that trait tells what a conversion gives by a relation.
impl FromWord for u8 {
    ghost said = { bits8 };

    #[tactic(auto, using(crate::proofs::Readings::no_number, crate::proofs::Readings::narrowed))]
    fn from_word(word: &[u8]) -> Option<u8> {
        u8::try_from(number(word)?).ok()
    }
}

impl FromWord for u16 {
    ghost said = { bits16 };

    #[tactic(auto, using(crate::proofs::Readings::no_number, crate::proofs::Readings::narrowed))]
    fn from_word(word: &[u8]) -> Option<u16> {
        u16::try_from(number(word)?).ok()
    }
}

impl FromWord for u32 {
    ghost said = { bits32 };

    #[tactic(auto, using(crate::proofs::Readings::no_number, crate::proofs::Readings::narrowed))]
    fn from_word(word: &[u8]) -> Option<u32> {
        u32::try_from(number(word)?).ok()
    }
}

// The byte that two digits write.
fn byte(high: u8, low: u8) -> Option<u8>
    ensures { result ≡ byte_of high low }
{
    Some(digit(high, HEX)? * HEX + digit(low, HEX)?)
}

// The bytes of a row are two digits each. The crate `hex` also takes upper case, which a script refuses. A chain of pairs would
// say nothing of the array at a word that is too short, so the digits are cut off one pair after another.
impl FromWord for [u8; ROW_BYTES] {
    ghost said = { row_bytes };

    fn from_word(word: &[u8]) -> Option<[u8; ROW_BYTES]> {
        let mut bytes = [0; ROW_BYTES];
        let mut digits = word;
        for at in &mut bytes {
            let [high, low, rest @ ..] = digits else {
                return None;
            };
            *at = byte(*high, *low)?;
            digits = rest;
        }
        digits.is_empty().then_some(bytes)
    }
}
