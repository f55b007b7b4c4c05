// The replay: sheets in hexadecimal on standard input, one to a line, and the desk's report of each.
#![tactic(auto)]

use input::sheets::each_sheet;
use std::io;

// The report of a sheet, on standard output. As in `desk`: a library's function has a contract, and no clause can say what standard
// output takes.
fn print(rt: &impl Print, sheet: &[u8]) -> io::Result<()> {
    let mut text = [0u8; sheet::report::ROOM];
    let n = sheet::report::report(sheet, &mut text);
    rt.write_all(&text[..n])
}

fn main(rt: HostRuntime) -> io::Result<()> {
    each_sheet(&mut rt.stdin(), &mut |sheet| print(&rt, sheet))
}
