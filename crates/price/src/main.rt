// Prices offered trips, read from standard input, and prints a table for a clerk.
#![tactic(auto)]

mod report;

use std::io;

fn main(rt: HostRuntime) -> io::Result<()> {
    report::run(&rt)
}
