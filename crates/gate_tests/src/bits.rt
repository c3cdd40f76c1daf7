use gate::events::{Event, Events};

const ALL: Events = Events {
    complete: true,
    wrapped: true,
    breakpoint_reached: true,
    positive: true,
    negative: true,
    error: true,
};

#[test]
fn places(rt: HostRuntime) {
    assert_eq!(rt; ALL.word(), 0b1110_0111);
    assert_eq!(rt; Event::CommandError.place(), 7);
    assert!(rt; ALL.has_bit_in(0b0010_0000));
    assert!(rt; !ALL.has_bit_in(0b1_0001_1000));
}

#[test]
fn clears_by_zeros(rt: HostRuntime) {
    let mut events = ALL;
    events.keep(0b1111_1111_1011_1110);
    assert_eq!(rt; events.word(), 0b1010_0110);
}
