// The counters of the parts: a register of 32 bits, and a strip of bits that are only cleared.
ghost use Rattle.std.specs.Prelude.{◌≡◌, ℕ, ◌/◌, ◌^◌, ◌<◌, bit_and};
ghost use Rattle.cells.specs.Bounds.{register_limit, strip_bits};
ghost use Rattle.cells.specs.Strip.{zeros, Legal, stepped, stepped_strip, new_strip, StripLaws};

/// A count that rises by one and never passes its ceiling.
pub trait Counter: Sized {
    // What is counted so far.
    ghost counted: { Self → ℕ };

    // What the count cannot pass.
    ghost limit: { ℕ };

    /// A counter at zero.
    fn new() -> Self
        ensures { counted result ≡ 0 };

    /// What is counted so far.
    fn count(&self) -> u32
        ensures { result ≡ counted self.now };

    /// What the count cannot pass.
    fn ceiling(&self) -> u32
        ensures { result ≡ limit };

    /// Counts one more, and stays at the ceiling.
    fn step(&mut self)
        ensures { counted self.new ≡ stepped limit (counted self.old) };
}

/// The count of a rewriting part.
#[derive(Clone, Copy, Debug, PartialEq, Eq)]
pub struct Register {
    count: u32,
}

/// The bytes of a flash part's strip.
pub const STRIP_BYTES: usize = 512;

/// The count of a flash part, in cleared bits: those cleared are always the first ones.
#[derive(Clone, Copy, Debug, PartialEq, Eq)]
pub struct Strip {
    bytes: [u8; STRIP_BYTES],
    ghost prefix: { Legal bytes },
}

// The bits of a strip, which its count cannot pass.
const STRIP_BITS: u32 = 4096;

// A byte of which no bit is cleared.
const UNCLEARED: u8 = 255;

// A byte of which the highest bit is cleared: a mask that clears it.
const WITHOUT_HIGHEST: u8 = 127;

impl Counter for Register {
    ghost use Rattle.cells.specs.Counters.{register_count};

    ghost counted = { register_count };

    ghost limit = { register_limit };

    fn new() -> Register {
        Register { count: 0 }
    }

    fn count(&self) -> u32 {
        self.count
    }

    fn ceiling(&self) -> u32 {
        u32::MAX
    }

    fn step(&mut self) {
        self.count = self.count.saturating_add(1);
    }
}

// A byte with one more bit cleared: bit 0 is the highest.
fn clear_bit(byte: u8, bit: u32) -> u8
    requires { bit < 8 }
    ensures { result ≡ bit_and byte (127 / 2 ^ bit) }
{
    byte & (WITHOUT_HIGHEST >> bit)
}

// A strip of so many cleared bits with the next one cleared, the highest of byte 0 first. A full strip stays.
fn next_cleared(strip: &[u8; STRIP_BYTES], count: u32) -> [u8; STRIP_BYTES]
    requires legal { Legal strip.now }
    requires counted { count ≡ zeros strip.now }
    ensures { result ≡ stepped_strip strip.now }
{
    let mut bytes = *strip;
    let place = (count / u8::BITS) as usize;
    if place < STRIP_BYTES {
        bytes[place] = clear_bit(bytes[place], count % u8::BITS);
    }
    bytes
}

impl Counter for Strip {
    ghost use Rattle.cells.specs.Counters.{strip_count};

    ghost counted = { strip_count };

    ghost limit = { strip_bits };

    #[tactic(auto, using(crate::proofs::Strips::fresh))]
    fn new() -> Strip
        ensures count { strip_count result ≡ 0 }
        ensures strip { result.bytes ≡ new_strip }
    {
        Strip {
            bytes: [UNCLEARED; STRIP_BYTES],
        }
    }

    fn count(&self) -> u32 {
        self.bytes.iter().map(|byte| byte.count_zeros()).sum()
    }

    fn ceiling(&self) -> u32 {
        STRIP_BITS
    }

    // The laws say what a step does to the bits: it clears the next one and no other.
    #[tactic(auto, using(crate::proofs::Strips::after_step, crate::proofs::Strips::strip_laws))]
    fn step(&mut self)
        ensures count { strip_count self.new ≡ stepped strip_bits (strip_count self.old) }
        ensures strip { self.new.bytes ≡ stepped_strip self.old.bytes }
        ensures laws { StripLaws }
    {
        let count = self.count();
        self.bytes = next_cleared(&self.bytes, count);
    }
}
