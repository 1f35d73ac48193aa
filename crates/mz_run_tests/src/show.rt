// Sinks that take little.
use crate::files::{DUMMY, DUMMY_LISTING};
use mz_io::MemSink;
use mz_show::{Shown, listing};
use std::process::Abort;

/// How the listing of a file with a dummy ends, and what is written, in a sink of this room that takes so
/// much at a time, and whose call of this number fails.
fn listed(rt: &(impl Abort + AllocGlobal), room: u64, most: u64, fails: u64) -> (Shown, MemSink) {
    let mut out = MemSink::new(rt.alloc(), room).expect(rt, "memory");
    if most > 0 {
        out.take_at_most(most);
    }
    out.fail_call(fails).expect(rt, "memory");
    let shown = listing(rt.alloc(), DUMMY, &mut out);
    (shown, out)
}

/// Sinks, and how much of the listing they hold in the end.
const SINKS: &[(u64, u64, u64, Shown, &str)] = &[
    (1000, 1, 0, Shown::Done, DUMMY_LISTING),
    (12, 100, 0, Shown::Fault, "sort 0 4\nsor"),
    (1000, 100, 3, Shown::Fault, "sort 0 4\nsort 1 0\n"),
];

#[test]
fn small_sinks(rt: HostRuntime) {
    for (room, most, fails, wanted, text) in SINKS {
        let (shown, out) = listed(&rt, *room, *most, *fails);
        assert!(rt; shown == *wanted, "room for {room}");
        assert!(rt; out.bytes() == text.as_bytes(), "room for {room}");
    }
}
