// The fill: ten bytes for each target of a sheet, into a lent slice. Document 01, "Fill".
ghost use Rattle.std.specs.Prelude.{◌≡◌, ◌+◌, ◌*◌, ◌≤◌, length};
ghost use Rattle.chain.specs.Flux.{shown};
ghost use Rattle.sheet.specs.declared.fill.NotFilled.TheVariants.{Sheet};
ghost use Rattle.sheet.specs.Layout.{answer_size};
ghost use Rattle.sheet.specs.Fill.{ten_bytes, answers, not_filled, returned, fill_of};
ghost use Rattle.sheet.specs.Private.{pasted};

use super::layout::ANSWER_SIZE;
use super::reading::{Accepted, Fault};
use super::target::Entry;
use chain::enquiry::{Printed, Turned};

// Why nothing is written: the sheet's fault, or fewer than ten bytes per target.
#[derive(Clone, Copy)]
pub enum NotFilled {
    Sheet(Fault),
    NoRoom,
}

impl From<Fault> for NotFilled {
    ghost from_gives = { λ why e. e ≡ Sheet why };

    fn from(why: Fault) -> NotFilled {
        NotFilled::Sheet(why)
    }
}

impl From<NotFilled> for u8 {
    ghost from_gives = { λ why n. n ≡ not_filled why };

    fn from(why: NotFilled) -> u8 {
        match why {
            NotFilled::Sheet(fault) => u8::from(fault),
            NotFilled::NoRoom => 31,
        }
    }
}

// The ten bytes of an answer, from `at` on.
fn put_answer(out: &mut [u8], at: usize, answer: Result<Printed, Turned>)
    requires { at + answer_size ≤ length out.old }
    ensures { out.new ≡ pasted out.old at (ten_bytes (shown answer)) }
{
    let e = Entry::from(answer);
    out[at] = e.state;
    out[at + 1..at + 5].copy_from_slice(&e.low.to_be_bytes());
    out[at + 5..at + 9].copy_from_slice(&e.high.to_be_bytes());
    out[at + 9] = e.note;
}

// The answers of all targets, in their order, from the front of a slice with room for them. By the target's number, as the definition lays
// them out.
fn put_answers(out: &mut [u8], sheet: &Accepted)
    requires { answer_size * sheet.now.counts.targets ≤ length out.old }
    ensures { out.new ≡ pasted out.old 0 (answers sheet.now.bytes.now sheet.now.counts.targets) }
{
    for i in 0..sheet.counts.targets {
        put_answer(out, ANSWER_SIZE * i, sheet.target(i));
    }
}

// The fill, or why nothing is written.
// Writes ten bytes per target of the sheet; or writes nothing.
pub fn fill(sheet: &[u8], out: &mut [u8]) -> Result<(), NotFilled>
    ensures { (returned result ≡ (fill_of sheet.now out.old).number) × (out.new ≡ (fill_of sheet.now out.old).elements) }
{
    let sheet = Accepted::read(sheet)?;
    if out.len() < ANSWER_SIZE * sheet.counts.targets {
        return Err(NotFilled::NoRoom);
    }
    put_answers(out, &sheet);
    Ok(())
}
