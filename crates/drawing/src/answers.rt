// The answers that the fill writes for a sheet, ten bytes for each target, and the group of each.
ghost use Rattle.std.specs.Prelude.{◌≡◌, ◌*◌, ◌≤◌, ◌<◌, length};
ghost use Rattle.sheet.specs.Layout.{answer_size, most_targets};
ghost use Rattle.drawing.specs.Figures.{ends};
ghost use Rattle.drawing.specs.Private.{shown_in, group_in};

use super::figures::{Ends, Group, group_of};

const ANSWER_SIZE: usize = 10;

// Room for the answers of the most targets, 512.
pub(crate) const ROOM: usize = ANSWER_SIZE * 512;

// The ends of an answer: its low and high, or its state, the number of the refusal.
fn ends_in(answer: &[u8]) -> Ends
    requires { length answer.now ≡ answer_size }
    ensures { result ≡ ends (shown_in answer.now 0) }
{
    let state = answer[0];
    if state != 0 {
        return Ends::Refused(state);
    }
    let low = u32::from_be_bytes([answer[1], answer[2], answer[3], answer[4]]);
    let high = u32::from_be_bytes([answer[5], answer[6], answer[7], answer[8]]);
    Ends::Answered(low as f64, high as f64)
}

// The group of target i.
pub(crate) fn group_in(answers: &[u8], i: usize) -> Group
    requires { (i < most_targets) × (answer_size * most_targets ≤ length answers.now) }
    ensures { result ≡ group_in answers.now i }
{
    let at = ANSWER_SIZE * i;
    group_of(ends_in(&answers[at..at + ANSWER_SIZE]))
}
