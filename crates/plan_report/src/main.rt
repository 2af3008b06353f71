// Reads plans from standard input and prints the division of each; with the argument `picture`, a picture of each.
#![tactic(auto)]

use plan_text::{View, report};
use std::{env, io};

// What the arguments ask to be told of each plan.
fn wanted(rt: &HostRuntime) -> io::Result<View> {
    if env::args(rt)?.any(|word| word.as_str() == "picture") {
        Ok(View::Picture)
    } else {
        Ok(View::Tree)
    }
}

fn main(rt: HostRuntime) -> io::Result<()> {
    let text = io::read_to_string(rt.alloc(), rt.stdin())?;
    let view = wanted(&rt)?;
    let told = report(rt.alloc(), text.as_str(), view)?;
    rt.print(told.as_str())
}
