// One of two things of a kind, where only the run tells which: a memory that is one of two.
#![tactic(auto)]

ghost use Rattle.either_memory.specs.Either.{either_of};
ghost use Rattle.std.proofs.Common.{rules};

use base::{Fault, ROW_BYTES};
use memory::{Memory, Probe, RowKind, Rows};

/// The one or the other.
// The library's `Either` cannot be it here: these would be impls of another crate's trait for another crate's type. A match
// stands in each call, and no macro for both arms, so that a slip on one side is told from the other.
#[derive(Drop)]
pub enum Either<A, B> {
    Left(A),
    Right(B),
}

impl<A: Rows, B: Rows> Rows for Either<A, B> {
    ghost held = { λ s. either_of A.Rows.held B.Rows.held s };

    fn read(&self, row: u16, area: &mut [u8; ROW_BYTES]) -> Result<RowKind, Fault> {
        match self {
            Either::Left(a) => a.read(row, area),
            Either::Right(b) => b.read(row, area),
        }
    }

    fn size(&self) -> u16 {
        match self {
            Either::Left(a) => a.size(),
            Either::Right(b) => b.size(),
        }
    }
}

impl<A: Probe, B: Probe> Probe for Either<A, B> {
    fn probe(&self, row: u16) -> Option<RowKind> {
        match self {
            Either::Left(a) => a.probe(row),
            Either::Right(b) => b.probe(row),
        }
    }
}

impl<A: Memory, B: Memory> Memory for Either<A, B> {
    ghost meaning = { λ s. either_of A.Memory.meaning B.Memory.meaning s };

    ghost agrees = { Prim.search rules };

    fn write(&mut self, row: u16, bytes: &[u8; ROW_BYTES]) -> Result<(), Fault> {
        match self {
            Either::Left(a) => a.write(row, bytes),
            Either::Right(b) => b.write(row, bytes),
        }
    }

    fn blank(&mut self, row: u16) -> Result<(), Fault> {
        match self {
            Either::Left(a) => a.blank(row),
            Either::Right(b) => b.blank(row),
        }
    }

    fn raise(&mut self) -> Result<(), Fault> {
        match self {
            Either::Left(a) => a.raise(),
            Either::Right(b) => b.raise(),
        }
    }

    fn power_up(&mut self, charge: u32, tear: u8) -> Result<(), Fault> {
        match self {
            Either::Left(a) => a.power_up(charge, tear),
            Either::Right(b) => b.power_up(charge, tear),
        }
    }

    fn off(&mut self) {
        match self {
            Either::Left(a) => a.off(),
            Either::Right(b) => b.off(),
        }
    }

    fn count(&self) -> u32 {
        match self {
            Either::Left(a) => a.count(),
            Either::Right(b) => b.count(),
        }
    }

    fn ceiling(&self) -> u32 {
        match self {
            Either::Left(a) => a.ceiling(),
            Either::Right(b) => b.ceiling(),
        }
    }
}
