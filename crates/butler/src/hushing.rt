//! A butler that is told to send nothing any more.
ghost use Rattle.butler.specs.Hushed.{Hushes};

use crate::butler::Butler;
use read_ahead::close_all;
use ses_io::Media;

impl<M: Media> Butler<M> {
    /// Sends nothing any more, as after a ReadFault: the playback rings are closed, and further turns
    /// flush what was recorded. It takes no memory.
    pub fn hush(&mut self)
        ensures { Hushes self.old self.new }
    {
        close_all(self.ends.sends.as_mut_slice());
        self.holds.hushed = true;
    }
}
