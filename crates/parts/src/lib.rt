// Two memory parts: one that can be rewritten, and a flash part whose bits are only cleared.
#![tactic(auto)]

ghost use Rattle.std.specs.Prelude.{◌≡◌, ◌≤◌, length, map, replicate, vec_len, IfOk};
ghost use Rattle.memory.specs.Model.{blank as blank_row, putting};
ghost use Rattle.parts.specs.Bounds.{max_rows};
ghost use Rattle.parts.specs.Supply.{becoming};
ghost use Rattle.std.proofs.Common.{rules, arith};

mod supply;

use base::{Case, Fault, Layer, ROW_BYTES};
use cells::{Cell, Counter, FlashRow, PlainRow, Register, Strip};
use memory::{Memory, Probe, RowKind, Rows};
use std::alloc::{AllocError, Global};
use supply::{Supply, Tear, change_row, step_counter};

/// The most rows that a part can have.
pub const MAX_ROWS: u16 = 192;

/// A memory part: a table of at most 192 rows, a counter and a supply.
#[derive(Drop)]
pub struct Part<R, C> {
    cells: Vec<R>,
    counter: C,
    supply: Supply,
    ghost fits: { vec_len cells ≤ max_rows },
}

/// Why no part was made: a size out of range, or want of memory of the host.
#[derive(Clone, Copy, Debug, PartialEq, Eq)]
pub enum NotMade {
    Shape(Fault),
    NoMemory(AllocError),
}

impl From<Fault> for NotMade {
    ghost use Rattle.parts.specs.declared.NotMade.TheVariants.{Shape};

    ghost from_gives = { λ fault made. made ≡ Shape fault };

    fn from(fault: Fault) -> NotMade {
        NotMade::Shape(fault)
    }
}

impl From<AllocError> for NotMade {
    ghost use Rattle.parts.specs.declared.NotMade.TheVariants.{NoMemory};

    ghost from_gives = { λ error made. made ≡ NoMemory error };

    fn from(error: AllocError) -> NotMade {
        NotMade::NoMemory(error)
    }
}

/// A part whose rows and count are rewritten in place.
pub type Rewriting = Part<PlainRow, Register>;

/// A part whose rows have marks and whose count is in bits that are only cleared.
pub type Flash = Part<FlashRow, Strip>;

// So many blank rows. A loop: `repeat_with` over a function of a type parameter is not covered by the proofs.
fn blank_rows<R: Cell + Drop>(heap: Global, size: u16) -> Result<Vec<R>, AllocError>
    ensures rows { IfOk result (λ v. map R.Cell.means v.items ≡ replicate size blank_row) }
    ensures size { IfOk result (λ v. vec_len v ≡ size) }
{
    let mut cells = Vec::new(heap);
    for _ in 0..size {
        cells.push(R::new())?;
    }
    Ok(cells)
}

impl<R: Cell + Drop, C: Counter> Part<R, C> {
    ghost use Rattle.parts.specs.Part.{Made};

    /// A part of so many rows, off and blank.
    pub fn new(heap: Global, size: u16) -> Result<Part<R, C>, NotMade>
        ensures { Made R.Cell.means C.Counter.counted C.Counter.limit size result }
    {
        if !(1..=MAX_ROWS).contains(&size) {
            return Err(Fault::new(Case::BadShape, Layer::Memory).into());
        }
        Ok(Part {
            cells: blank_rows(heap, size)?,
            counter: C::new(),
            supply: Supply::new(),
        })
    }
}

impl<R: Cell, C: Counter> Part<R, C> {
    ghost use Rattle.parts.specs.Part.{held_of, meaning_of, admitting};

    // Refuses a row that there is not, and any row while power is off.
    fn admit(&self, row: u16) -> Result<(), Fault>
        ensures { result ≡ admitting (held_of R.Cell.means self.now) row }
    {
        if row >= self.size() {
            return Err(Fault::at(Case::NoRow, Layer::Memory, row));
        }
        if !self.supply.power {
            return Err(Fault::at(Case::PowerOff, Layer::Memory, row));
        }
        Ok(())
    }

    // Writes a row with bytes, or blanks it where there are none, or makes of it what the cut leaves. The bytes go by value,
    // since a clause looks through an `Option` and not through a reference in it.
    fn put(&mut self, row: u16, bytes: Option<[u8; ROW_BYTES]>) -> Result<(), Fault>
        ensures answer { result ≡ (putting (meaning_of R.Cell.means C.Counter.counted C.Counter.limit self.old) row (becoming bytes)).0 }
        ensures after { meaning_of R.Cell.means C.Counter.counted C.Counter.limit self.new ≡ (putting (meaning_of R.Cell.means C.Counter.counted C.Counter.limit self.old) row (becoming bytes)).1 }
    {
        self.admit(row)?;
        let drawn = self.supply.draw();
        change_row(&mut self.cells[usize::from(row)], drawn, bytes);
        drawn.map_err(|_| Fault::at(Case::PowerCut, Layer::Memory, row))
    }
}

impl<R: Cell, C: Counter> Rows for Part<R, C> {
    ghost use Rattle.parts.specs.Part.{held_of};

    ghost held = { held_of R.Cell.means };

    fn read(&self, row: u16, area: &mut [u8; ROW_BYTES]) -> Result<RowKind, Fault> {
        self.admit(row)?;
        Ok(self.cells[usize::from(row)].show(area))
    }

    fn size(&self) -> u16 {
        self.cells.len() as u16
    }
}

impl<R: Cell, C: Counter> Probe for Part<R, C> {
    fn probe(&self, row: u16) -> Option<RowKind> {
        self.cells.get(usize::from(row)).map(|cell| cell.kind())
    }
}

impl<R: Cell, C: Counter> Memory for Part<R, C> {
    ghost use Rattle.parts.specs.Part.{meaning_of};

    ghost meaning = { meaning_of R.Cell.means C.Counter.counted C.Counter.limit };

    ghost agrees = { first_of (Prim.search rules, Prim.grind (arith, Self.row.coded.inj)) };

    fn write(&mut self, row: u16, bytes: &[u8; ROW_BYTES]) -> Result<(), Fault> {
        self.put(row, Some(*bytes))
    }

    fn blank(&mut self, row: u16) -> Result<(), Fault> {
        self.put(row, None)
    }

    fn raise(&mut self) -> Result<(), Fault> {
        self.supply
            .admit_raise(self.counter.count(), self.counter.ceiling())?;
        let drawn = self.supply.draw();
        step_counter(&mut self.counter, drawn);
        drawn.map_err(|_| Fault::new(Case::PowerCut, Layer::Memory))
    }

    #[tactic(auto, unfolding(memory::specs::Model::powering_up))]
    fn power_up(&mut self, charge: u32, tear: u8) -> Result<(), Fault> {
        self.supply = Supply {
            power: true,
            charge,
            tear: Tear::try_from(tear)?,
        };
        Ok(())
    }

    fn off(&mut self) {
        self.supply.power = false;
    }

    fn count(&self) -> u32 {
        self.counter.count()
    }

    fn ceiling(&self) -> u32 {
        self.counter.ceiling()
    }
}
