// Reads plans from standard input and prints a picture of each, as SVG.
#![tactic(auto)]

use plan_text::{View, report};
use std::io;

fn main(rt: HostRuntime) -> io::Result<()> {
    let text = io::read_to_string(rt.alloc(), rt.stdin())?;
    let told = report(rt.alloc(), text.as_str(), View::Picture)?;
    rt.print(told.as_str())
}
