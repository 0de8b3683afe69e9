// A memory that shows some rows of another, and never touches the rest.
ghost use Rattle.std.specs.Prelude.{◌≡◌, ◌+◌, ◌<◌, length, Ok};
ghost use Rattle.memory.specs.Model.{written, blank as blank_row, reading, probing, writing, blanking, raising, powering_up, switching_off};
ghost use Rattle.memory.specs.Laws.{PutLaws, RaiseLaws, SupplyLaws};
ghost use Rattle.memory.specs.Shown.{renumber, Placed};
ghost use Rattle.memory.specs.View.{rows_of, view_of, Bounded};
ghost use Rattle.memory.specs.Opened.{Opened};
ghost use Rattle.std.proofs.Common.{rules};

use super::{Memory, Probe, RowKind, Rows};
use base::{Case, Fault, Layer, ROW_BYTES};

/// A window of `count` rows from row `first` on, over any memory.
#[derive(Drop)]
pub struct Window<M> {
    inner: M,
    first: u16,
    count: u16,
}

// The same answer, with the row in the window's own numbering.
fn renumbered<T>(answer: Result<T, Fault>, row: u16) -> Result<T, Fault>
    ensures { result ≡ renumber row answer }
{
    answer.map_err(|fault| Fault {
        row: fault.row.and(Some(row)),
        ..fault
    })
}

impl<M: Rows> Window<M> {
    /// Opens a window, or hands the memory back where it does not have these rows or none are asked for.
    // The rows are two numbers and no range of a type of its own: numbers that are no range are asked for too, and refused.
    pub fn new(inner: M, first: u16, count: u16) -> Result<Window<M>, (Fault, M)>
        ensures { Opened first count inner (M.Rows.held inner) result }
    {
        let size = inner.size();
        if count == 0 || count > size.saturating_sub(first) {
            return Err((Fault::new(Case::BadShape, Layer::Memory), inner));
        }
        Ok(Window {
            inner,
            first,
            count,
        })
    }

    // The memory's row that is row `row` of the window, where it shows one.
    fn place(&self, row: u16) -> Result<u16, Fault>
        ensures { Placed self.now.first self.now.count (M.Rows.held self.now.inner) row result }
    {
        if row < self.size() {
            Ok(self.first + row)
        } else {
            Err(Fault::at(Case::NoRow, Layer::Memory, row))
        }
    }
}

impl<M: Rows> Rows for Window<M> {
    ghost held = { λ s. rows_of M.Rows.held s };

    fn read(&self, row: u16, area: &mut [u8; ROW_BYTES]) -> Result<RowKind, Fault> {
        let place = self.place(row)?;
        renumbered(self.inner.read(place, area), row)
    }

    fn size(&self) -> u16
        ensures size { result ≡ length (rows_of M.Rows.held self.now).rows }
        ensures fits { self.now.first + result < 65536 }
    {
        self.count.min(self.inner.size().saturating_sub(self.first))
    }
}

impl<M: Probe> Probe for Window<M> {
    fn probe(&self, row: u16) -> Option<RowKind> {
        let place = self.place(row).ok()?;
        self.inner.probe(place)
    }
}

impl<M: Memory> Memory for Window<M> {
    ghost meaning = { λ s. view_of M.Memory.meaning s };

    ghost agrees = { Prim.search rules };

    fn write(&mut self, row: u16, bytes: &[u8; ROW_BYTES]) -> Result<(), Fault>
        ensures answer { result ≡ (writing (view_of M.Memory.meaning self.old) row bytes.now).0 }
        ensures after { view_of M.Memory.meaning self.new ≡ (writing (view_of M.Memory.meaning self.old) row bytes.now).1 }
        ensures bounded { Bounded M.Memory.meaning self.old self.new }
        ensures laws { PutLaws (view_of M.Memory.meaning self.old) row (written bytes.now) (result, view_of M.Memory.meaning self.new) }
    {
        let place = self.place(row)?;
        renumbered(self.inner.write(place, bytes), row)
    }

    fn blank(&mut self, row: u16) -> Result<(), Fault>
        ensures answer { result ≡ (blanking (view_of M.Memory.meaning self.old) row).0 }
        ensures after { view_of M.Memory.meaning self.new ≡ (blanking (view_of M.Memory.meaning self.old) row).1 }
        ensures bounded { Bounded M.Memory.meaning self.old self.new }
        ensures laws { PutLaws (view_of M.Memory.meaning self.old) row blank_row (result, view_of M.Memory.meaning self.new) }
    {
        let place = self.place(row)?;
        renumbered(self.inner.blank(place), row)
    }

    fn raise(&mut self) -> Result<(), Fault>
        ensures answer { result ≡ (raising (view_of M.Memory.meaning self.old)).0 }
        ensures after { view_of M.Memory.meaning self.new ≡ (raising (view_of M.Memory.meaning self.old)).1 }
        ensures bounded { Bounded M.Memory.meaning self.old self.new }
        ensures laws { RaiseLaws (view_of M.Memory.meaning self.old) (result, view_of M.Memory.meaning self.new) }
    {
        self.inner.raise()
    }

    fn power_up(&mut self, charge: u32, tear: u8) -> Result<(), Fault>
        ensures answer { result ≡ (powering_up (view_of M.Memory.meaning self.old) charge tear).0 }
        ensures after { view_of M.Memory.meaning self.new ≡ (powering_up (view_of M.Memory.meaning self.old) charge tear).1 }
        ensures bounded { Bounded M.Memory.meaning self.old self.new }
        ensures laws { SupplyLaws (view_of M.Memory.meaning self.old) (result, view_of M.Memory.meaning self.new) }
    {
        self.inner.power_up(charge, tear)
    }

    fn off(&mut self)
        ensures after { view_of M.Memory.meaning self.new ≡ switching_off (view_of M.Memory.meaning self.old) }
        ensures bounded { Bounded M.Memory.meaning self.old self.new }
        ensures laws { SupplyLaws (view_of M.Memory.meaning self.old) (Ok tt, view_of M.Memory.meaning self.new) }
    {
        self.inner.off();
    }

    fn count(&self) -> u32 {
        self.inner.count()
    }

    fn ceiling(&self) -> u32 {
        self.inner.ceiling()
    }
}
