// The groups of sheets in hexadecimal on standard input, one to a line: the 64 bits of each float, in decimal.
#![tactic(auto)]

ghost use Rattle.std.specs.Prelude.{◌≡◌, true};
ghost use Rattle.drawing.specs.Claims.{plain_group};

use drawing::figures::Group;
use drawing::groups::groups_of;
use input::sheets::each_sheet;
use std::io;

fn print_group(rt: &impl Print, g: Group) -> io::Result<()>
    requires { plain_group g ≡ true }
{
    let low = g.low.to_bits();
    let middle = g.middle.to_bits();
    let high = g.high.to_bits();
    println!(rt; "{low} {middle} {high}")
}

// The groups of a sheet, or its number.
fn print_groups(rt: &impl Print, sheet: &[u8]) -> io::Result<()> {
    let groups = match groups_of(sheet) {
        Ok(groups) => groups,
        Err(why) => return println!(rt; "sheet {}", u8::from(why)),
    };
    println!(rt; "groups {}", groups.count)?;
    for g in &groups.groups[..groups.count] {
        print_group(rt, *g)?;
    }
    Ok(())
}

fn main(rt: HostRuntime) -> io::Result<()> {
    each_sheet(&mut rt.stdin(), &mut |sheet| print_groups(&rt, sheet))
}
