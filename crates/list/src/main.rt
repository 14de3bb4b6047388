// Prints the listing of the plan file that is standard input.
//
// It ends with status 0 whatever comes of it. Where the input cannot be read to its end, nothing is printed but a line on standard error: a
// part of a file is not judged. Where the listing cannot be written whole, a line on standard error says so; a reader that went away is
// such a case too, since a program in Rattle starts with the signal SIGPIPE ignored.
#![tactic(auto)]

ghost use Rattle.std.specs.Prelude.{◌≤◌, length};

use std::io::{Print, Read};
use std::rt::Stdin;

// Reads until `input` is full, the input ends or a read fails, and answers how many bytes there are. A while: each step is as long as what a
// read answers.
fn read_full(mut stdin: Stdin, input: &mut [u8]) -> usize
    ensures { result ≤ length input.new }
{
    let mut done = 0;
    while done < input.len() {
        match stdin.read(&mut input[done..]) {
            Ok(0) | Err(_) => break,
            Ok(n) => done += n,
        }
    }
    done
}

// `read_full` stops at the end of the input, and also where a read fails. Only at the end does a further read answer 0.
fn at_end(mut stdin: Stdin) -> bool {
    let mut more = [0u8; 1];
    match stdin.read(&mut more) {
        Ok(n) => n == 0,
        Err(_) => false,
    }
}

// A line that cannot be written either is lost: there is nowhere left to say it.
fn say(rt: &HostRuntime, line: &[u8]) {
    let _ = rt.stderr().write_all(line);
}

fn print(rt: &HostRuntime, input: &[u8]) {
    let text = listing::text_of(input);
    if rt.stdout().write_all(text.as_bytes()).is_err() {
        say(rt, b"list: standard output could not be written\n");
    }
}

fn main(rt: HostRuntime) {
    // One byte more than the limit, to see what is above it.
    let mut input = [0u8; listing::LIMIT + 1];
    let n = read_full(rt.stdin(), &mut input);
    if n < input.len() && !at_end(rt.stdin()) {
        say(&rt, b"list: standard input could not be read\n");
        return;
    }
    print(&rt, &input[..n]);
}
