// Lists the tapes on standard input, one to a line in hexadecimal, and makes each regular one again
// from its listing. What is made again is told as `same` or `other`.
#![tactic(auto)]

ghost use Rattle.std.specs.Prelude.{◌≡◌, ◌/◌, length, IfOk, vec_len};
ghost use Rattle.tape_cases.specs.Hex.{nibble_of};

use std::alloc::{AllocError, Global};
use std::io;
use tape_text::{list_tape, make_tape};

// The value of a hexadecimal digit, in small letters; 0 for any other byte. No `to_digit`, which takes capitals too.
fn nibble(b: u8) -> u8
    ensures { result ≡ nibble_of b }
{
    match b {
        b'0'..=b'9' => b - b'0',
        b'a'..=b'f' => b - b'a' + 10,
        _ => 0,
    }
}

// A byte for each two digits. No crate `hex`, which refuses what this reads as 0.
fn unhex(heap: Global, digits: &[u8]) -> Result<Vec<u8>, AllocError>
    ensures { IfOk result (λ v. vec_len v ≡ length digits.now / 2) }
{
    let (pairs, _) = digits.as_chunks::<2>();
    pairs
        .iter()
        .map(|[high, low]| 16 * nibble(*high) + nibble(*low))
        .collect(heap)
}

fn main(rt: HostRuntime) -> io::Result<()> {
    let heap = rt.alloc();
    let cases = io::read_to_string(heap, rt.stdin())?;
    for case in cases.lines() {
        let tape = unhex(heap, case.as_bytes())?;
        let text = list_tape(heap, tape.as_slice())?;
        println!(rt; "> {case}")?;
        rt.print(text.as_str())?;
        match make_tape(heap, text.as_str()) {
            Ok(again) if again.as_slice() == tape.as_slice() => println!(rt; "same")?,
            Ok(_) => println!(rt; "other")?,
            Err(_) => {}
        }
    }
    Ok(())
}
