// The snapshots in use, and the oldest of them.
use crate::rows::{cut, long, number, see, word};
use snap_pins::Pins;

/// Calls of the snapshots in use, with what each gives. `pin` has the numbers of a snapshot, and the place that it
/// gets; `floor` has two numbers, and the least ones; `over` has two snapshots and their places, and then gives the
/// first up.
const CALLS: &str = "\
    floor 5 9 | 5 9
    pin 3 20 | 0
    floor 5 9 | 3 9
    floor 2 30 | 2 20
    pin 4 7 | 1
    floor 9 99 | 3 7
    over 1 2 8 80 | 2 3
    floor 9 99 | 3 7
    pin 2 99 | 2
    floor 9 99 | 2 7
    pin 8 80 | 4
    pin 8 80 | 5
    pin 8 80 | 6
    pin 8 80 | 7
    pin 8 80 | 8
    pin 8 80 | 9
    pin 8 80 | 10
    pin 8 80 | 11
    pin 8 80 | 12
    pin 8 80 | 13
    over 1 2 8 80 | 14 15
    floor 9 99 | 2 7
    pin 0 6 | 14
    pin 1 1 | full
    floor 9 99 | 0 6
";

/// Pins a snapshot where there is a free place, and says whether it is this one.
fn pins_in(pins: &mut Pins, words: &str, place: &str) -> bool {
    let (commits, length) = word(words);
    if pins.first_free().is_none() {
        return place == "full";
    }
    pins.pin(number(commits), long(length)) == number(place) as usize
}

/// Pins two snapshots and gives up the first; whether they had these places.
fn gives_up(pins: &mut Pins, words: &str, places: &str) -> bool {
    let (commits, rest) = word(words);
    let (length, others) = word(rest);
    if pins.first_free().is_none() {
        return false;
    }
    let given = pins.pin(number(commits), long(length));
    if pins.first_free().is_none() {
        return false;
    }
    let (commits, length) = word(others);
    let kept = pins.pin(number(commits), long(length));
    pins.unpin(given);
    let (first, second) = word(places);
    (given, kept) == (number(first) as usize, number(second) as usize)
}

/// Whether a call gives what its row says.
fn holds(pins: &mut Pins, row: &str) -> bool {
    let (call, tells) = cut(row);
    let (verb, words) = word(call);
    let (commits, length) = word(words);
    match verb {
        "pin" => pins_in(pins, words, tells),
        "over" => gives_up(pins, words, tells),
        _ => {
            let (least, shortest) = word(tells);
            pins.floor(number(commits), long(length)) == (number(least), long(shortest))
        }
    }
}

#[test]
fn pins_are_kept_in_places(rt: HostRuntime) {
    let mut pins = Pins::new();
    for row in CALLS.lines() {
        see(&rt, holds(&mut pins, row.trim()), row);
    }
}
