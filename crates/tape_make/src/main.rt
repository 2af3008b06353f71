// Makes a tape from the text on standard input, a line for each record, and writes its bytes to
// standard output. Where a line is no record it writes nothing, and names the line on standard error.
#![tactic(auto)]

use std::io;
use std::io::Write;
use std::process::ExitCode;
use tape_text::make_tape;

fn main(rt: HostRuntime) -> io::Result<ExitCode> {
    let text = io::read_to_string(rt.alloc(), rt.stdin())?;
    match make_tape(rt.alloc(), text.as_str()) {
        Ok(tape) => {
            rt.stdout().write_all(tape.as_slice())?;
            Ok(ExitCode::SUCCESS)
        }
        Err(fault) => {
            eprintln!(rt; "{fault}")?;
            Ok(ExitCode::FAILURE)
        }
    }
}

#[cfg(test)]
mod tests {
    use super::*;
    use tape_text::MakeFault;

    // The line that a text is refused for, if it is.
    fn bad_line(rt: &HostRuntime, text: &str) -> Option<usize> {
        match make_tape(rt.alloc(), text) {
            Err(MakeFault::BadLine(n)) => Some(n),
            _ => None,
        }
    }

    #[test]
    fn names_the_bad_line(rt: HostRuntime) {
        assert_eq!(rt; bad_line(&rt, "keep\n\n# remark\n 7: withdraw \n"), None);
        assert_eq!(rt; bad_line(&rt, "stop"), Some(1));
        assert_eq!(rt; bad_line(&rt, "keep\nlink 0 65536\nstop\n"), Some(2));
        assert_eq!(rt; bad_line(&rt, "# one\n\nlink 0  1\n"), Some(3));
        assert_eq!(rt; bad_line(&rt, "keep\nkeep\nlink 0 01\n"), Some(3));
        assert_eq!(rt;
            bad_line(&rt, "post 0 1 cents 2147483648 tonnes 0\n"),
            Some(1)
        );
        assert_eq!(rt; bad_line(&rt, "keep\npost 0 1 cents -1\n"), Some(2));
        assert_eq!(rt; bad_line(&rt, "quote -1 0"), Some(1));
    }
}
