// The desk: reads a sheet on standard input and prints its report.
#![tactic(auto)]

use input::buffer::read_into;
use input::sheets::ROOM;
use std::io;

// The report of a sheet, on standard output. As in `replay`: a library's function has a contract, and no clause can say what standard
// output takes.
fn print(rt: &impl Print, sheet: &[u8]) -> io::Result<()> {
    let mut text = [0u8; sheet::report::ROOM];
    let n = sheet::report::report(sheet, &mut text);
    rt.write_all(&text[..n])
}

fn main(rt: HostRuntime) -> io::Result<()> {
    let mut bytes = [0u8; ROOM];
    match read_into(&mut rt.stdin(), &mut bytes) {
        Ok(n) => print(&rt, &bytes[..n]),
        Err(_) => eprintln!(rt; "desk: standard input cannot be read"),
    }
}
