// Quotes rates in networks read from standard input, by the slow method.
#![tactic(auto)]

mod fault;
mod held;
mod order;
mod quotes;

use offers::kinds::KindName;
use quotes::{Line, told};
use std::io;
use std::io::{BufRead, BufReader};

// Reads the text, and prints what each group of lines below the name of a kind is answered with, before the next is read.
fn run(rt: &HostRuntime) -> io::Result<()> {
    let heap = rt.alloc();
    let mut kind = None;
    let mut lines = Vec::new(heap);
    let texts = BufReader::new(heap, rt.stdin())?.lines(heap);
    for (text, number) in texts.zip(1usize..usize::MAX) {
        let text = text?;
        match text.as_str().parse::<KindName>() {
            Ok(named) => {
                if !lines.is_empty() {
                    rt.print(told(heap, kind, lines.as_slice())?.as_str())?;
                }
                lines.clear();
                kind = Some(named);
            }
            Err(_) => lines.push(Line { number, text })?,
        }
    }
    rt.print(told(heap, kind, lines.as_slice())?.as_str())
}

fn main(rt: HostRuntime) -> io::Result<()> {
    run(&rt)
}
