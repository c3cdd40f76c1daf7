ghost use Rattle.std.specs.Prelude.{◌≡◌, ◌≤◌};

use gate::clock::Clock;
use gate::events::Event;
use gate::gate::Gate;
use ring::ring::{Full, Ring};

/// What is listed of an event.
#[derive(Clone, Copy, PartialEq, Eq, Debug)]
pub struct EventRecord {
    /// The number of the gate, 1 or 2.
    pub gate: u8,
    /// Which event, known by the place of its bit.
    pub event: Event,
    /// The gate's clock at the collect.
    pub clock: Clock,
}

impl EventRecord {
    ghost use Rattle.board.specs.Collects.{is_repeat, is_repeated_by};

    /// What memory may hold before it is lent to a list.
    pub const BLANK: EventRecord = EventRecord {
        gate: 1,
        event: Event::MotionComplete,
        clock: Clock { cycles: 0 },
    };

    // Whether gate and event are those of another record, whatever the clocks.
    fn is_repeat(&self, other: &EventRecord) -> bool
        ensures { result ≡ is_repeat self.now other.now }
    {
        self.gate == other.gate && self.event.place() == other.event.place()
    }

    /// Whether gate and event are those of a newest record, if there is one.
    pub fn is_repeated_by(&self, newest: Option<EventRecord>) -> bool
        ensures { result ≡ is_repeated_by self.now newest }
    {
        match newest {
            Some(newest) => newest.is_repeat(self),
            None => false,
        }
    }
}

// The records of one collect: of each event one at most.
#[derive(Drop)]
struct Batch {
    records: [EventRecord; 6],
    len: usize,
    ghost fits: { len ≤ 6 },
}

impl Batch {
    ghost use Rattle.std.specs.Prelude.{◌+◌, ◌<◌, [], ◌∷◌, ◌++◌, List};
    ghost use Rattle.board.specs.Collects.{newest_of, with_record, records_after_collect, items_of};

    fn new() -> Batch
        ensures { result.len ≡ 0 }
    {
        Batch {
            records: [EventRecord::BLANK; 6],
            len: 0,
        }
    }

    // The records, the first one first.
    fn as_slice(&self) -> &[EventRecord]
        ensures { result.now ≡ items_of self.now }
    {
        &self.records[..self.len]
    }

    // Adds a record.
    fn push(&mut self, latest: EventRecord)
        requires { self.old.len < 6 }
        ensures items { items_of self.new ≡ items_of self.old ++ latest ∷ [] }
        ensures len { self.new.len ≡ self.old.len + 1 }
    {
        self.records[self.len] = latest;
        self.len += 1;
    }

    // Adds a record, unless it repeats the newest: the last of these, or one that stood before them.
    fn list(&mut self, newest: Option<EventRecord>, latest: EventRecord)
        requires { self.old.len < 6 }
        ensures lists { (before : List EventRecord) → newest ≡ newest_of before →
            before ++ items_of self.new ≡ with_record (before ++ items_of self.old) latest }
        ensures len { self.new.len ≤ self.old.len + 1 }
    {
        let newest = self.as_slice().last().copied().or(newest);
        if !latest.is_repeated_by(newest) {
            self.push(latest);
        }
    }

    // What a collect of a gate, by its number, lists behind a newest record.
    fn of_new_events(number: u8, gate: &Gate, newest: Option<EventRecord>) -> Batch
        ensures { (before : List EventRecord) → newest ≡ newest_of before →
            before ++ items_of result ≡ records_after_collect number gate.now before }
    {
        let events = gate.new_events();
        let clock = gate.clock;
        let mut batch = Batch::new();
        for event in Event::ALL {
            if events.is_set(event) {
                let record = EventRecord {
                    gate: number,
                    event,
                    clock,
                };
                batch.list(newest, record);
            }
        }
        batch
    }
}

impl EventRecord {
    ghost use Rattle.std.specs.Prelude.{OnOk, OnErr, IsOk, IsTrue, ◌↔◌};
    ghost use Rattle.board.specs.Collects.{has_room, with_new_records};

    // Lists what is new of a gate, by its number.
    #[inline(never)]
    fn list_changed(number: u8, gate: &Gate, list: &mut Ring<'_, EventRecord>) -> Result<(), Full>
        ensures room { IsOk result ↔ IsTrue (has_room number gate.now list.old) }
        ensures ok { OnOk result (list.new ≡ with_new_records number gate.now list.old) }
        ensures full { OnErr result (list.new ≡ list.old) }
    {
        let batch = Batch::of_new_events(number, gate, list.newest());
        list.push_all(batch.as_slice())
    }

    /// Lists what is new of a gate, by its number: nothing, where its bits stand as they did at its last collect. Refused with `Full` if
    /// the records don't all fit, and the list stays as it was.
    pub(crate) fn list_new(
        number: u8,
        gate: &Gate,
        list: &mut Ring<'_, EventRecord>,
    ) -> Result<(), Full>
        ensures room { IsOk result ↔ IsTrue (has_room number gate.now list.old) }
        ensures ok { OnOk result (list.new ≡ with_new_records number gate.now list.old) }
        ensures full { OnErr result (list.new ≡ list.old) }
    {
        if gate.events == gate.found {
            return list.push_all(&[]);
        }
        EventRecord::list_changed(number, gate, list)
    }
}
