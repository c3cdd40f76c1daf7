ghost use Rattle.std.specs.Prelude.{◌≡◌, Some, IfOk};
ghost use Rattle.ring.specs.Places.{unread_from};
ghost use Rattle.host.specs.Works.{emptied};
ghost use Rattle.host.specs.Prints.{event_name, entry_text};

use board::collect::EventRecord;
use gate::events::Event;
use ring::ring::Ring;
use std::alloc::{AllocError, Global};
use std::fmt;

/// What the batch book reads of a list: each record from place 0 to the end.
pub fn read_book(heap: Global, list: &Ring<'_, EventRecord>) -> Result<Vec<EventRecord>, AllocError>
    ensures { IfOk result (λ book. book.items ≡ unread_from list.now 0) }
{
    let mut book = Vec::new(heap);
    let mut place = 0;
    while let Some((record, next)) = list.read(place) {
        book.push(record)?;
        place = next;
    }
    Ok(book)
}

/// Removes every record of a list.
pub fn clear(list: &mut Ring<'_, EventRecord>)
    ensures { list.new ≡ emptied list.old }
{
    while let Some(_removed) = list.remove() {}
}

/// The heading of the entries.
pub const HEADING: &str = "book     gate  event                    clock";

/// An event in the batch book.
#[derive(Clone, Copy, Debug, PartialEq, Eq)]
pub struct Entry(pub EventRecord);

// What an event is called.
fn event_name(event: Event) -> &'static str
    ensures { result.now ≡ event_name event }
{
    match event {
        Event::MotionComplete => "motion complete",
        Event::WrapAround => "wrap-around",
        Event::Breakpoint => "breakpoint reached",
        Event::PositiveLimit => "positive limit",
        Event::NegativeLimit => "negative limit",
        Event::CommandError => "command error",
    }
}

impl fmt::Display for Entry {
    ghost output = { λ entry. Some (entry_text entry.0) };

    fn fmt<W: fmt::Write>(&self, f: &mut fmt::Formatter<W>) -> fmt::Result {
        let EventRecord { gate, event, clock } = self.0;
        let name = event_name(event);
        let time = clock.time();
        write!(f, "         {gate:>4}  {name:<18}  {time:>10}")
    }
}
