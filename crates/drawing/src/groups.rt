// The groups of a sheet, by value.
ghost use Rattle.std.specs.Prelude.{◌≡◌, ◌*◌, ◌≤◌, length};
ghost use Rattle.sheet.specs.Layout.{answer_size, most_targets};
ghost use Rattle.drawing.specs.Groups.{listed, padded, groups_of, groups_shown};
ghost use Rattle.drawing.specs.Private.{group_in};

use super::answers::{ROOM, group_in};
use super::figures::Group;
use sheet::fill::fill;
use sheet::reading::{Fault, read};

// How many targets a sheet has, and the group of each, in their order, with three zeros past the last one. Whoever has it may copy it,
// as no vector can be.
#[derive(Clone, Copy)]
pub struct Groups {
    pub count: usize,
    pub groups: [Group; 512],
}

// The groups of the first answers, with three zeros past the last one.
fn groups_in(answers: &[u8], count: usize) -> [Group; 512]
    requires { (count ≤ most_targets) × (answer_size * most_targets ≤ length answers.now) }
    ensures { result ≡ padded (listed (group_in answers.now) count) }
{
    let mut groups = [Group::default(); 512];
    for i in 0..count {
        groups[i] = group_in(answers, i);
    }
    groups
}

// The groups of a sheet. What reading accepts is filled: there is room for the most targets.
pub fn groups_of(sheet: &[u8]) -> Result<Groups, Fault>
    ensures { groups_shown result ≡ groups_of sheet.now }
{
    let count = read(sheet)?.targets;
    let mut answers = [0u8; ROOM];
    let _ = fill(sheet, &mut answers);
    Ok(Groups {
        count,
        groups: groups_in(&answers, count),
    })
}
