//! The agenda.
use sim_agenda::Agenda;
use sim_types::{Count, Entry, EventId, Key};

/// An entry more, if there is room. The comparisons that it takes are added to those that were taken.
fn pushes(agenda: &mut Agenda, key: Key, event: u64, taken: &mut u64) -> bool {
    let has_room = agenda.reserve(1).is_ok();
    if has_room {
        let entry = Entry {
            key,
            event: EventId(event),
        };
        let mut count = Count::new();
        agenda.push(entry, &mut count);
        *taken = taken.saturating_add(count.read());
    }
    has_room
}

/// Whether the entry that comes out is the one of this event. The comparisons that it takes are added.
fn pops(agenda: &mut Agenda, event: u64, taken: &mut u64) -> bool {
    let mut count = Count::new();
    let popped = agenda.pop(&mut count);
    *taken = taken.saturating_add(count.read());
    match popped {
        Some(entry) => entry.event.0 == event,
        None => false,
    }
}

// Entries come out by their times, at one time by their priorities, and then by their numbers, whatever their order.
#[test]
fn entries_come_out_by_their_keys(rt: HostRuntime) {
    let mut agenda = Agenda::new(rt.alloc());
    let mut taken = 0;
    for (time, priority, number) in [(5, 1, 0), (5, 0, 3), (2, 1, 1), (5, 1, 2), (2, 1, 4)] {
        let key = Key::new(time, priority, number);
        assert!(rt; pushes(&mut agenda, key, number + 10, &mut taken));
    }
    for event in [11, 14, 13, 10, 12] {
        assert!(rt;
            !agenda.is_empty() && pops(&mut agenda, event, &mut taken),
            "event {event}"
        );
    }
    assert!(rt; agenda.is_empty() && agenda.pop(&mut Count::new()).is_none());
}

// How many entries there are where comparisons are counted.
const ENTRIES: usize = 640;

/// How many comparisons it takes to push an entry for each of these times, in so many rounds, and to pop them all, if there
/// is room.
fn comparisons(agenda: &mut Agenda, times: u32, rounds: u64) -> Option<u64> {
    let mut taken = 0;
    agenda.reserve(ENTRIES).ok()?;
    for round in 0..rounds {
        for time in 0..times {
            let key = Key::new(i64::from(time), 1, round);
            if !pushes(agenda, key, u64::from(time), &mut taken) {
                return None;
            }
        }
    }
    for time in 0..times {
        for _ in 0..rounds {
            if !pops(agenda, u64::from(time), &mut taken) {
                return None;
            }
        }
    }
    Some(taken)
}

// Entries at one time, and entries at the next 64 times in turns, take at most two comparisons each: none of them goes
// through a heap.
#[test]
fn entries_of_near_times_take_few_comparisons(rt: HostRuntime) {
    for (times, rounds) in [(1, 640), (64, 10)] {
        let mut agenda = Agenda::new(rt.alloc());
        let taken = comparisons(&mut agenda, times, rounds);
        assert!(rt;
            matches!(taken, Some(taken) if taken <= 1_280),
            "times: {times}"
        );
    }
}
