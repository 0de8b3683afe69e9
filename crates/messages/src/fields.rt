// Fields in bytes: numbers are highest byte first.
ghost use Rattle.std.specs.Prelude.{◌≡◌, ◌+◌, ◌<◌, length, drop, MatchOption, SomeIff};
ghost use Rattle.base.specs.Numbers.{leading};

use base::TAG_BYTES;

// The number in the first eight bytes, and the bytes behind them.
#[tactic(auto, using(crate::proofs::Words::word_in_front))]
pub(crate) fn first_u64(bytes: &[u8]) -> Option<(u64, &[u8])>
    ensures { MatchOption result
        (length bytes.now < 8)
        (λ p. (p.0 ≡ leading 8 bytes.now)
        × (p.1.now ≡ drop 8 bytes.now)
        × (length p.1.now + 8 ≡ length bytes.now)) }
{
    let (first, rest) = bytes.split_first_chunk::<8>()?;
    Some((u64::from_be_bytes(*first), rest))
}

// The bytes as a tag, if they are as many.
pub(crate) fn as_tag(bytes: &[u8]) -> Option<[u8; TAG_BYTES]>
    ensures { SomeIff result (length bytes.now ≡ 8) bytes.now }
{
    bytes.as_array::<TAG_BYTES>().copied()
}
