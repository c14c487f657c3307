// Reads a script of calls from standard input and answers each line on standard output.
#![tactic(auto)]

use replies::{HELP, Plain, reply};
use session::Session;
use std::io::{BufRead, BufReader};
use std::{env, io};

// Whether `--help` is among the arguments.
fn asks_for_help(rt: &HostRuntime) -> io::Result<bool> {
    Ok(env::args(rt)?.any(|argument| argument.as_str() == "--help"))
}

// Shows each line and its answer, and tells whether there was a line.
fn answer_lines(rt: &HostRuntime) -> io::Result<bool> {
    let heap = rt.alloc();
    let mut session = Session::new(heap);
    let lines = BufReader::new(heap, rt.stdin())?.split(heap, b'\n');
    let mut answered = false;
    for (number, line) in (1..=u64::MAX).zip(lines) {
        let line = line?;
        let answer = reply(heap, &mut session, number, &line)?;
        let shown = Plain {
            bytes: line.as_slice(),
        };
        println!(rt; "{shown}")?;
        if !answer.is_empty() {
            println!(rt; "  -> {answer}")?;
        }
        answered = true;
    }
    Ok(answered)
}

fn main(rt: HostRuntime) -> io::Result<()> {
    if asks_for_help(&rt)? {
        return println!(rt; "{HELP}");
    }
    if !answer_lines(&rt)? {
        println!(rt; "{HELP}")?;
    }
    Ok(())
}
