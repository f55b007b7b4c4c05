// Reads lines, each a name and its numbers, and prints what is answered: the state (0, or the number of the refusal), for a stand-off the
// distance in decimetres, for a free place its row and place, for a call on the register how many pools burn, the two ends or sums, and for
// an enquiry the note. Which pools put it over: the state, how many they are, and their numbers. A line that cannot be read prints
// `unreadable`. The register is empty at the start and goes from line to line.
#![tactic(auto)]

ghost use Rattle.std.specs.Prelude.{◌^◌, ◌<◌};

mod call;
mod line;
mod reply;

use call::reply_to;
use input::buffer::read_into;
use register::places::Register;
use std::io::{self, Read};

fn answer_lines(rt: &impl Print, text: &[u8]) -> io::Result<()> {
    let mut register = Register::empty();
    for line in text.split_inclusive(|b| *b == b'\n') {
        let line = line.strip_suffix(b"\n").unwrap_or(line);
        match reply_to(line, &mut register) {
            Some(reply) => println!(rt; "{reply}")?,
            None => println!(rt; "unreadable")?,
        }
    }
    Ok(())
}

// Answers the lines of the first N bytes. N is a parameter, since the check of an array of 524,288 bytes in main runs out of stack.
fn answer_input<const N: usize>(rt: &impl Print, stdin: &mut impl Read) -> io::Result<()>
    requires { N < 2 ^ 63 }
{
    let mut text = [0u8; N];
    let n = read_into(stdin, &mut text)?;
    answer_lines(rt, &text[..n])
}

fn main(rt: HostRuntime) -> io::Result<()> {
    answer_input::<524_288>(&rt, &mut rt.stdin())
}
