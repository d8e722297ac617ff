//! The gate that holds one step up until another was taken.
use im_edge::{At, Gate, HoldGate};
use std::sync::Wait;

/// So many steps of a number, each between its two calls.
fn pass<R: Wait>(rt: &R, gate: &HoldGate, who: u32, steps: u64) {
    for extent in 0..steps {
        let step = At::Step { cursor: 0, extent };
        gate.before(rt, who, step);
        gate.after(who, step);
    }
}

#[test]
fn a_gate_gives_up_where_what_it_waits_for_has_not_come(rt: HostRuntime) {
    for (steps, gives_up) in [(0, true), (2, true), (3, false), (4, false)] {
        let gate = HoldGate::new((1, 2), (17, 3), 5);
        pass(&rt, &gate, 17, steps);
        pass(&rt, &gate, 1, 1);
        pass(&rt, &gate, 2, 7);
        assert!(rt; !gate.gave_up());
        pass(&rt, &gate, 1, 3);
        assert!(rt; gate.gave_up() == gives_up);
    }
}
