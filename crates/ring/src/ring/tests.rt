use super::{Full, Ring};

// An event, as a log keeps it.
#[derive(Clone, Copy, PartialEq, Debug)]
struct Event {
    gate: u8,
    code: u16,
    cycle: u64,
}

// A move that waits for its gate.
#[derive(Clone, Copy, PartialEq, Debug)]
struct Waiting {
    destination: i32,
    velocity: u32,
    acceleration: i32,
}

fn event_at(cycle: u64) -> Event {
    Event {
        gate: 1,
        code: 7,
        cycle,
    }
}

fn move_to(destination: i32) -> Waiting {
    Waiting {
        destination,
        velocity: 300,
        acceleration: -20,
    }
}

// Nine records go three times round three slots. One reader reads each record as it comes, and one reads on after each third.
#[test]
fn two_readers(rt: HostRuntime) {
    let mut slots = [event_at(0); 3];
    let mut ring = Ring::new(&mut slots);
    let mut into = [event_at(0); 3];
    let mut quick = 0;
    let mut slow = 0;
    for cycle in 0..9 {
        let next = cycle + 1;
        if ring.room() == 0 {
            ring.remove();
        }
        assert_eq!(rt; ring.push(event_at(cycle)), Ok(()));
        assert_eq!(rt; ring.read(quick), Some((event_at(cycle), next)));
        quick = next;
        if next % 3 == 0 {
            assert_eq!(rt; ring.read_on(slow, &mut into), (3, next));
            slow = next;
        }
    }
    assert_eq!(rt; into, [event_at(6), event_at(7), event_at(8)]);
}

// A reader at the place of a record that was removed, or at one past the end, gets the oldest.
#[test]
fn elsewhere(rt: HostRuntime) {
    let mut slots = [0; 2];
    let mut ring: Ring<'_, u16> = Ring::new(&mut slots);
    assert_eq!(rt; ring.push_all(&[7, 8]), Ok(()));
    assert_eq!(rt; ring.remove(), Some(7));
    assert_eq!(rt; ring.read(0), Some((8, 2)));
    assert_eq!(rt; ring.read(1), Some((8, 2)));
    assert_eq!(rt; ring.read(2), None);
    assert_eq!(rt; ring.read(3), Some((8, 2)));
}

#[test]
fn reads_on(rt: HostRuntime) {
    let mut slots = [0; 3];
    let mut ring: Ring<'_, u16> = Ring::new(&mut slots);
    let mut into = [0; 2];
    assert_eq!(rt; ring.push_all(&[7, 8, 9]), Ok(()));
    assert_eq!(rt; ring.read_on(0, &mut into), (2, 2));
    assert_eq!(rt; into, [7, 8]);
    assert_eq!(rt; ring.read_on(2, &mut into), (1, 3));
    assert_eq!(rt; into, [9, 8]);
    assert_eq!(rt; ring.read_on(3, &mut into), (0, 3));
}

// What the slots hold at first counts for nothing.
#[test]
fn nothing_listed(rt: HostRuntime) {
    let mut slots = [5; 2];
    let ring: Ring<'_, u16> = Ring::new(&mut slots);
    assert!(rt; ring.is_empty());
    assert_eq!(rt; ring.len(), 0);
    assert_eq!(rt; ring.capacity(), 2);
    assert_eq!(rt; ring.room(), 2);
    assert_eq!(rt; ring.newest(), None);
    assert_eq!(rt; ring.read(0), None);
}

#[test]
fn no_slot(rt: HostRuntime) {
    let mut ring: Ring<'_, u16> = Ring::new(&mut []);
    assert_eq!(rt; ring.push(1), Err(Full));
    assert_eq!(rt; ring.remove(), None);
    assert_eq!(rt; ring.read(0), None);
    assert_eq!(rt; ring.read(9), None);
    assert_eq!(rt; ring.end_place(), 0);
}

#[test]
fn one_slot(rt: HostRuntime) {
    let mut slots = [0; 1];
    let mut ring: Ring<'_, u16> = Ring::new(&mut slots);
    assert_eq!(rt; ring.push(7), Ok(()));
    assert_eq!(rt; ring.push(8), Err(Full));
    assert_eq!(rt; ring.read(0), Some((7, 1)));
    assert_eq!(rt; ring.remove(), Some(7));
    assert_eq!(rt; ring.push(8), Ok(()));
    assert_eq!(rt; ring.read(1), Some((8, 2)));
}

// Where they don't all fit, none is listed.
#[test]
fn too_many(rt: HostRuntime) {
    let mut slots = [0; 3];
    let mut ring: Ring<'_, u16> = Ring::new(&mut slots);
    assert_eq!(rt; ring.push(7), Ok(()));
    assert_eq!(rt; ring.push_all(&[8, 9, 10]), Err(Full));
    assert_eq!(rt; ring.len(), 1);
    assert_eq!(rt; ring.newest(), Some(7));
    assert_eq!(rt; ring.push_all(&[8, 9]), Ok(()));
    assert_eq!(rt; ring.newest(), Some(9));
}

// 2^64 - 1 records were listed before the first of these two.
#[test]
fn places_wrap(rt: HostRuntime) {
    let mut slots = [move_to(0); 2];
    let mut ring = Ring {
        slots: &mut slots,
        first: 1,
        len: 0,
        listed: u64::MAX,
    };
    assert_eq!(rt; ring.push_all(&[move_to(5), move_to(-6)]), Ok(()));
    assert_eq!(rt; ring.oldest_place(), u64::MAX);
    assert_eq!(rt; ring.end_place(), 1);
    assert_eq!(rt; ring.read(u64::MAX), Some((move_to(5), 0)));
    assert_eq!(rt; ring.read(0), Some((move_to(-6), 1)));
    assert_eq!(rt; ring.read(1), None);
}

// Two records stand on each side of the place 0, and then the first of them is removed.
#[test]
fn removed_where_places_wrap(rt: HostRuntime) {
    let mut slots = [1, 2, 3, 4];
    let mut into = [0; 4];
    let mut ring: Ring<'_, u16> = Ring {
        slots: &mut slots,
        first: 3,
        len: 4,
        listed: 2,
    };
    assert_eq!(rt; ring.oldest_place(), u64::MAX - 1);
    assert_eq!(rt; ring.remove(), Some(4));
    assert_eq!(rt; ring.oldest_place(), u64::MAX);
    assert_eq!(rt; ring.read(u64::MAX - 1), Some((1, 0)));
    assert_eq!(rt; ring.read_on(0, &mut into), (2, 2));
    assert_eq!(rt; into, [2, 3, 0, 0]);
}
