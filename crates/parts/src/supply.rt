// The supply of a part, and what it lets a change do.
ghost use Rattle.std.specs.Prelude.{◌≡◌, false};
ghost use Rattle.cells.specs.Strip.{stepped};
ghost use Rattle.parts.specs.Supply.{supply as supply_of, tear_of, drawing, drawn, admitting_raise, left_row, left_count, becoming};

use base::{Case, Fault, Layer, ROW_BYTES};
use cells::{Cell, Counter};

/// What the change that the supply fails in leaves.
#[derive(Clone, Copy, Debug, PartialEq, Eq)]
pub enum Tear {
    Old,
    New,
    Spoilt,
}

impl TryFrom<u8> for Tear {
    type Error = Fault;

    ghost try_from_gives = { λ number result. result ≡ tear_of number };

    fn try_from(number: u8) -> Result<Tear, Fault> {
        match number {
            0 => Ok(Tear::Old),
            1 => Ok(Tear::New),
            2 => Ok(Tear::Spoilt),
            _ => Err(Fault::new(Case::BadShape, Layer::Memory)),
        }
    }
}

/// Power, the changes until the supply fails, and what the change that it fails in leaves. The last two
/// stay while power is off: a memory's meaning has them.
#[derive(Clone, Copy, Debug, PartialEq, Eq)]
pub struct Supply {
    pub(super) power: bool,
    pub(super) charge: u32,
    pub(super) tear: Tear,
}

impl Supply {
    // Off, with no charge.
    pub(super) fn new() -> Supply
        ensures { result ≡ supply_of false 0 Tear.Old }
    {
        Supply {
            power: false,
            charge: 0,
            tear: Tear::Old,
        }
    }

    // Takes a charge for a change. With none left, power goes off.
    pub(super) fn draw(&mut self) -> Result<(), Tear>
        ensures result { result ≡ drawing self.old }
        ensures after { self.new ≡ drawn self.old }
    {
        if self.charge == 0 {
            self.power = false;
            return Err(self.tear);
        }
        self.charge -= 1;
        Ok(())
    }

    // Refuses to let a count rise while power is off, and at its ceiling.
    pub(super) fn admit_raise(&self, count: u32, ceiling: u32) -> Result<(), Fault>
        ensures { result ≡ admitting_raise self.now.power count ceiling }
    {
        if !self.power {
            return Err(Fault::new(Case::PowerOff, Layer::Memory));
        }
        if count >= ceiling {
            return Err(Fault::new(Case::CountFull, Layer::Memory));
        }
        Ok(())
    }
}

// Makes of a row what the supply lets a change make of it: the change writes bytes, or none and the row is blank.
pub(super) fn change_row<R: Cell>(
    cell: &mut R,
    drawn: Result<(), Tear>,
    bytes: Option<[u8; ROW_BYTES]>,
)
    ensures { R.Cell.means cell.new ≡ left_row drawn (R.Cell.means cell.old) (becoming bytes) }
{
    match drawn {
        Ok(()) | Err(Tear::New) => match bytes {
            Some(bytes) => cell.write(&bytes),
            None => cell.blank(),
        },
        Err(Tear::Old) => {}
        Err(Tear::Spoilt) => cell.spoil(),
    }
}

// Counts one more where the supply lets the count rise.
pub(super) fn step_counter<C: Counter>(counter: &mut C, drawn: Result<(), Tear>)
    ensures { C.Counter.counted counter.new ≡ left_count drawn (C.Counter.counted counter.old) (stepped C.Counter.limit (C.Counter.counted counter.old)) }
{
    match drawn {
        Ok(()) | Err(Tear::New) => counter.step(),
        Err(Tear::Old | Tear::Spoilt) => {}
    }
}
