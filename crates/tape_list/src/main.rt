// Lists the tape on standard input: a line for each record, then how the tape ends.
#![tactic(auto)]

use std::io;
use std::io::Read;
use tape_text::list_tape;

fn main(rt: HostRuntime) -> io::Result<()> {
    let mut tape = Vec::new(rt.alloc());
    rt.stdin().read_to_end(&mut tape)?;
    let text = list_tape(rt.alloc(), tape.as_slice())?;
    rt.print(text)
}
