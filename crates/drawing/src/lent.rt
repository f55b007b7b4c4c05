// The groups of a sheet in a lent slice, for a host in C or Rust.
ghost use Rattle.std.specs.Prelude.{◌≡◌, ◌+◌, ◌*◌, ◌≤◌, length};
ghost use Rattle.sheet.specs.Layout.{answer_size, most_targets};
ghost use Rattle.sheet.specs.Fill.{returned};
ghost use Rattle.sheet.specs.Private.{pasted};
ghost use Rattle.drawing.specs.Groups.{listed};
ghost use Rattle.drawing.specs.Lent.{group_size, floats, laid_out, fill_groups_of};
ghost use Rattle.drawing.specs.Private.{group_in};

use super::answers::{ROOM, group_in};
use super::figures::Group;
use sheet::fill::{NotFilled, fill};
use sheet::reading::read;

const GROUP_SIZE: usize = 3;

// The three floats of a group, from `at` on.
fn put_group(out: &mut [f64], at: usize, g: Group)
    requires { at + group_size ≤ length out.old }
    ensures { out.new ≡ pasted out.old at (floats g) }
{
    out[at..at + GROUP_SIZE].copy_from_slice(&[g.low, g.middle, g.high]);
}

// The groups of the first answers, from the front of a slice with room for them. Each at its place, as the definition lays them out.
fn put_groups(answers: &[u8], count: usize, out: &mut [f64])
    requires { (count ≤ most_targets) × (answer_size * most_targets ≤ length answers.now) × (group_size * count ≤ length out.old) }
    ensures { out.new ≡ pasted out.old 0 (laid_out (listed (group_in answers.now) count)) }
{
    for i in 0..count {
        put_group(out, GROUP_SIZE * i, group_in(answers, i));
    }
}

// Writes three floats per target of the sheet; or writes nothing. The room is tested before any figure is worked.
pub fn fill_groups(sheet: &[u8], out: &mut [f64]) -> Result<(), NotFilled>
    ensures { (returned result ≡ (fill_groups_of sheet.now out.old).number) × (out.new ≡ (fill_groups_of sheet.now out.old).elements) }
{
    let count = read(sheet)?.targets;
    if out.len() < GROUP_SIZE * count {
        return Err(NotFilled::NoRoom);
    }
    let mut answers = [0u8; ROOM];
    let _ = fill(sheet, &mut answers);
    put_groups(&answers, count, out);
    Ok(())
}
