// Document 01, "The verdict printer": reads a set as bytes from standard input, and prints what both tests answer.
#![tactic(auto)]

ghost use Rattle.std.specs.Io.{ReadsAtMost};

mod report;

use crate::report::put_verdicts;
use model::elements::empty_set;
use printer::ROOM;
use std::io::{self, Read};
use wire::read_into;

// How many bytes were read: as many as there are, up to the buffer's length.
fn read_input(stdin: &mut impl Read, input: &mut [u8]) -> io::Result<usize>
    ensures { ReadsAtMost result input.new }
{
    let mut n = 0;
    while n < input.len() {
        let got = stdin.read(&mut input[n..])?;
        if got == 0 {
            break;
        }
        n += got;
    }
    Ok(n)
}

// What follows the bytes that decide is read and left unused, so that its writer can end its work. A writer that does not end is left after this many reads.
fn read_on(stdin: &mut impl Read) {
    let mut past = [0; 4096];
    for _ in 0..16_384 {
        if stdin.read(&mut past).unwrap_or(0) == 0 {
            break;
        }
    }
}

// Says how many elements were judged, so that an input cut between two records is seen.
fn say_how_many(rt: &impl Eprint, bytes: &[u8]) {
    let mut set = empty_set();
    let _ = read_into(bytes, &mut set);
    let count = set.count;
    let _ = eprintln!(rt; "verdict: elements judged: {count}");
}

fn print(rt: &(impl Print + Eprint), bytes: &[u8]) {
    let mut buffer = [0u8; ROOM];
    let end = put_verdicts(bytes, &mut buffer);
    let text = &buffer[..end];
    if rt.write_all(text).is_err() {
        let _ = eprintln!(rt; "verdict: standard output could not be written");
        return;
    }
    if !text.starts_with(b"refused") {
        say_how_many(rt, bytes);
    }
}

fn main(rt: HostRuntime) {
    let mut stdin = rt.stdin();
    let mut input = [0u8; 4096];
    let Ok(n) = read_input(&mut stdin, &mut input) else {
        let _ = eprintln!(rt; "verdict: standard input could not be read");
        return;
    };
    print(&rt, &input[..n]);
    if n == input.len() {
        read_on(&mut stdin);
    }
}
