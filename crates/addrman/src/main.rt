//! The address manager of a Bitcoin node, as a tool: it replays logs of events, compiles tables of
//! prefixes, checks asmaps and looks addresses up in them.
#![tactic(auto)]

use addrman_main::{Ended, run_program};

/// Runs the program. Standard error gets the reason if it did not end well.
fn main(rt: HostRuntime) -> Ended {
    run_program(&rt)
}
