ghost use Rattle.std.specs.Prelude.{◌≡◌, OnOk};
ghost use Rattle.host.specs.Works.{reading_of, no_reading, ReadsOn};

use board::collect::EventRecord;
use ring::ring::Ring;
use std::alloc::{AllocError, Global};

/// Where a board's panel stands in the event list, and how many events it read each time.
#[derive(Drop)]
pub struct Panel {
    place: u64,
    pub counts: Vec<usize>,
}

impl Panel {
    /// At place 0, with nothing read.
    pub(crate) fn new(heap: Global) -> Panel
        ensures { reading_of result ≡ no_reading }
    {
        Panel {
            place: 0,
            counts: Vec::new(heap),
        }
    }

    /// Reads on, up to 8 events, and notes how many it read.
    pub(crate) fn read_on(&mut self, list: &Ring<'_, EventRecord>) -> Result<(), AllocError>
        ensures { OnOk result (ReadsOn list.now (reading_of self.old) (reading_of self.new)) }
    {
        let mut events = [EventRecord::BLANK; 8];
        let (count, next) = list.read_on(self.place, &mut events);
        self.place = next;
        self.counts.push(count)?;
        Ok(())
    }
}
