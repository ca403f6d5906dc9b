//! The laws of the machine at one of the bodies.
use crate::Clock;
use sim_lawful::{
    lawful_arrival, lawful_opening, lawful_run, lawful_step, reached_events_are_kept,
    within_capacity,
};
use sim_machine_law::{preemption_ends_use, trace_grows};
use sim_plain::Plain;

#[test]
fn laws_hold_of_clocks() {
    lawful_opening::<Plain<Clock>>();
    lawful_step::<Plain<Clock>>();
    lawful_arrival::<Plain<Clock>>();
    lawful_run::<Plain<Clock>>();
    within_capacity::<Plain<Clock>>();
    reached_events_are_kept::<Plain<Clock>>();
    trace_grows::<Plain<Clock>>();
    preemption_ends_use();
}
