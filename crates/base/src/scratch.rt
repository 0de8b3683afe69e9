// The working area that a caller lends: all zero after every call that had it.
ghost use Rattle.std.specs.Prelude.{◌≡◌, length};
ghost use Rattle.base.specs.Work.{zeros};

/// The working bytes that a call needs.
pub const WORK_BYTES: usize = 192;

/// Sets every byte to zero.
pub fn clear(area: &mut [u8])
    ensures { area.new ≡ zeros (length area.old) }
{
    area.fill(0);
}

/// A guard over borrowed working bytes: where it ends, whatever the way out, they are all zero.
pub struct Scratch<'a>(pub &'a mut [u8]);

impl Drop for Scratch<'_> {
    fn drop(self)
        ensures { self.exit.0.now ≡ zeros (length self.entry.0.now) }
    {
        clear(self.0);
        let Scratch(_) = self;
    }
}
