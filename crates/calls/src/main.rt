//! Runs calls on a shop, and prints what becomes of each.
#![tactic(auto)]

use examples::worked_examples;

mod calls;

fn main(rt: HostRuntime) -> anyhow::Result<()> {
    // runs nothing: its contract has the examples that are worked from the definitions
    worked_examples();
    calls::run_calls(&rt)?;
    calls::run_room(&rt)
}
