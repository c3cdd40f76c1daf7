ghost use Rattle.std.specs.Prelude.{◌≡◌, ◌<◌};
ghost use Rattle.gate.specs.Events.{event_bits, bit, place, no_events, events_word, keep, has_bit_in, is_set, events_without, weight};

/// What a gate notes by a bit, each with its place.
#[derive(Clone, Copy, PartialEq, Eq, Debug)]
pub enum Event {
    MotionComplete = 0,
    WrapAround = 1,
    Breakpoint = 2,
    PositiveLimit = 5,
    NegativeLimit = 6,
    CommandError = 7,
}

impl Event {
    /// All events, the lowest place first.
    pub const ALL: [Event; 6] = [
        Event::MotionComplete,
        Event::WrapAround,
        Event::Breakpoint,
        Event::PositiveLimit,
        Event::NegativeLimit,
        Event::CommandError,
    ];

    /// The place of the event's bit in a status word, in a mask and in a word that clears.
    pub fn place(self) -> u8
        ensures is { result ≡ place self }
        ensures bound { result < 16 }
    {
        self as u8
    }
}

/// The event bits of a gate.
#[derive(Clone, Copy, PartialEq, Eq, Default, Debug)]
pub struct Events {
    pub complete: bool,
    pub wrapped: bool,
    pub breakpoint_reached: bool,
    pub positive: bool,
    pub negative: bool,
    pub error: bool,
}

// A bit at the event's place.
fn weight(event: Event, set: bool) -> u16
    ensures { result ≡ weight set (place event) }
{
    u16::from(set) << event.place()
}

// Whether a word holds 1 at the event's place.
fn holds(word: u16, event: Event) -> bool
    ensures { result ≡ bit word (place event) }
{
    (word >> event.place()) % 2 == 1
}

impl Events {
    /// No bit set.
    pub fn none() -> Events
        ensures { result ≡ no_events }
    {
        Events::default()
    }

    // Each event with its bit.
    fn event_bits(&self) -> [(Event, bool); 6]
        ensures { result ≡ event_bits self.now }
    {
        [
            (Event::MotionComplete, self.complete),
            (Event::WrapAround, self.wrapped),
            (Event::Breakpoint, self.breakpoint_reached),
            (Event::PositiveLimit, self.positive),
            (Event::NegativeLimit, self.negative),
            (Event::CommandError, self.error),
        ]
    }

    /// Whether the event's bit is set.
    pub fn is_set(&self, event: Event) -> bool
        ensures { result ≡ is_set self.now event }
    {
        match event {
            Event::MotionComplete => self.complete,
            Event::WrapAround => self.wrapped,
            Event::Breakpoint => self.breakpoint_reached,
            Event::PositiveLimit => self.positive,
            Event::NegativeLimit => self.negative,
            Event::CommandError => self.error,
        }
    }

    /// The bits that are set here and not in the other.
    pub fn without(&self, other: &Events) -> Events
        ensures { result ≡ events_without self.now other.now }
    {
        Events {
            complete: self.complete && !other.complete,
            wrapped: self.wrapped && !other.wrapped,
            breakpoint_reached: self.breakpoint_reached && !other.breakpoint_reached,
            positive: self.positive && !other.positive,
            negative: self.negative && !other.negative,
            error: self.error && !other.error,
        }
    }

    /// The bits at their places.
    pub fn word(&self) -> u16
        ensures { result ≡ events_word self.now }
    {
        self.event_bits()
            .iter()
            .map(|&(event, set)| weight(event, set))
            .sum()
    }

    /// Clears the bits whose places hold 0 in the word.
    // Written out, since a list of bits to write would hold references, and no array can.
    pub fn keep(&mut self, word: u16)
        ensures { self.new ≡ keep word self.old }
    {
        self.complete &= holds(word, Event::MotionComplete);
        self.wrapped &= holds(word, Event::WrapAround);
        self.breakpoint_reached &= holds(word, Event::Breakpoint);
        self.positive &= holds(word, Event::PositiveLimit);
        self.negative &= holds(word, Event::NegativeLimit);
        self.error &= holds(word, Event::CommandError);
    }

    /// Whether a bit is set whose place holds 1 in the mask.
    pub fn has_bit_in(&self, mask: u16) -> bool
        ensures { result ≡ has_bit_in mask self.now }
    {
        self.event_bits()
            .iter()
            .any(|&(event, set)| set && holds(mask, event))
    }
}
