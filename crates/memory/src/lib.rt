// The kinds of a row, the traits that every memory has, and the window onto a memory.
#![tactic(auto)]

ghost use Rattle.std.specs.Prelude.{◌≡◌, length};
ghost use Rattle.memory.specs.Model.{Held, Mem, reading, probing, writing, blanking, raising, powering_up, switching_off};

mod window;

use base::{Fault, ROW_BYTES};
pub use window::Window;

/// What a row is: written with 64 bytes, blank, or spoilt by a cut.
#[derive(Clone, Copy, PartialEq, Eq, Debug)]
pub enum RowKind {
    Written,
    Blank,
    Spoilt,
}

/// A reader of rows: all that the loader needs.
pub trait Rows {
    // The rows that can be read, and whether power is on.
    ghost held: { Self → Held };

    /// Fills the area with what the row reads as, and answers the row's kind.
    // The kind comes beside a lent area and not with bytes in it: 64 bytes are not copied for it, and a refusal leaves them.
    fn read(&self, row: u16, area: &mut [u8; ROW_BYTES]) -> Result<RowKind, Fault>
        ensures answer { result ≡ (reading (held self.now) row area.old).0 }
        ensures area { area.new ≡ (reading (held self.now) row area.old).1 };

    /// How many rows there are.
    fn size(&self) -> u16
        ensures { result ≡ length (held self.now).rows };
}

/// A row reader that a probe can look at from outside, powered or not.
pub trait Probe: Rows {
    /// The row's kind, or none where there is no such row.
    fn probe(&self, row: u16) -> Option<RowKind>
        ensures { result ≡ probing (Self.Rows.held self.now) row };
}

/// A memory: a row reader with writing, counting and switching added.
pub trait Memory: Rows {
    // The whole meaning of the memory.
    ghost meaning: { Self → Mem };

    /// Writes one row.
    fn write(&mut self, row: u16, bytes: &[u8; ROW_BYTES]) -> Result<(), Fault>
        ensures answer { result ≡ (writing (meaning self.old) row bytes.now).0 }
        ensures after { meaning self.new ≡ (writing (meaning self.old) row bytes.now).1 };

    /// Makes one row blank.
    fn blank(&mut self, row: u16) -> Result<(), Fault>
        ensures answer { result ≡ (blanking (meaning self.old) row).0 }
        ensures after { meaning self.new ≡ (blanking (meaning self.old) row).1 };

    /// Adds one to the count.
    fn raise(&mut self) -> Result<(), Fault>
        ensures answer { result ≡ (raising (meaning self.old)).0 }
        ensures after { meaning self.new ≡ (raising (meaning self.old)).1 };

    /// Turns the memory on: the supply fails in the change after `charge` more, and leaves what `tear` says.
    // The tear is a number and no enum, since a number that is none is asked for too, and refused.
    fn power_up(&mut self, charge: u32, tear: u8) -> Result<(), Fault>
        ensures answer { result ≡ (powering_up (meaning self.old) charge tear).0 }
        ensures after { meaning self.new ≡ (powering_up (meaning self.old) charge tear).1 };

    /// Turns the memory off.
    fn off(&mut self)
        ensures after { meaning self.new ≡ switching_off (meaning self.old) };

    /// The count, told with or without power.
    fn count(&self) -> u32
        ensures { result ≡ (meaning self.now).count };

    /// What the count cannot pass.
    fn ceiling(&self) -> u32
        ensures { result ≡ (meaning self.now).ceiling };

    // What is read is what the memory means.
    ghost agrees: { (s : Self) → Self.Rows.held s ≡ (meaning s).held };
}
