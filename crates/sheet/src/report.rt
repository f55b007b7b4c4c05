// The text that the desk prints for a sheet, into a lent buffer.
ghost use Rattle.std.specs.Prelude.{◌≡◌, ◌+◌, ◌*◌, ◌≤◌, ◌<◌, length};
ghost use Rattle.chain.specs.Flux.{shown};
ghost use Rattle.sheet.specs.Layout.{most_targets};
ghost use Rattle.sheet.specs.Reading.{number_of};
ghost use Rattle.sheet.specs.Report.{line, lines, figures_text, refused_text, text_of, line_room, report_room, report_of};
ghost use Rattle.sheet.specs.Private.{Writes};

use super::layout::MOST_TARGETS;
use super::reading::{Accepted, Fault};
use super::target::Entry;
use super::text::Text;
use chain::enquiry::{Printed, Turned};

// The room that `report` asks for: 12 bytes for the first line, and 34 for each of the most targets.
pub const ROOM: usize = 12 + 34 * MOST_TARGETS;

// One target's line.
fn put_line(text: &mut Text, i: usize, answer: Result<Printed, Turned>)
    requires { (i < most_targets) × (text.old.len + line_room ≤ length text.old.buffer.now) }
    ensures { Writes text.old (line i (shown answer)) text.new × (text.new.len ≤ text.old.len + line_room) }
{
    let e = Entry::from(answer);
    text.field(i as u32, b' ');
    text.field(e.state as u32, b' ');
    text.field(e.low, b' ');
    text.field(e.high, b' ');
    text.field(e.note as u32, b'\n');
}

// The lines of all targets, in their order.
fn put_lines(text: &mut Text, sheet: &Accepted)
    requires { text.old.len + line_room * sheet.now.counts.targets ≤ length text.old.buffer.now }
    ensures { Writes text.old (lines sheet.now.bytes.now sheet.now.counts.targets) text.new × (text.new.len ≤ text.old.len + line_room * sheet.now.counts.targets) }
{
    for i in 0..sheet.counts.targets {
        put_line(text, i, sheet.target(i));
    }
}

// The text of an accepted sheet. This and the next two ask for the report's room once, of the text that the last hands on.
fn put_figures(text: &mut Text, sheet: &Accepted)
    requires { text.old.len + report_room ≤ length text.old.buffer.now }
    ensures { Writes text.old (figures_text sheet.now.bytes.now sheet.now.counts.targets) text.new }
{
    text.word(b"targets ");
    text.field(sheet.counts.targets as u32, b'\n');
    put_lines(text, sheet);
}

// The text of a refused sheet.
fn put_refusal(text: &mut Text, why: Fault)
    requires { text.old.len + report_room ≤ length text.old.buffer.now }
    ensures { Writes text.old (refused_text (number_of why)) text.new }
{
    text.word(b"sheet ");
    text.field(u8::from(why) as u32, b'\n');
}

// The text of a sheet.
fn put_report(text: &mut Text, sheet: &[u8])
    requires { text.old.len + report_room ≤ length text.old.buffer.now }
    ensures { Writes text.old (text_of sheet.now) text.new }
{
    match Accepted::read(sheet) {
        Ok(accepted) => put_figures(text, &accepted),
        Err(why) => put_refusal(text, why),
    }
}

// Writes the text into a buffer of at least ROOM bytes and returns its length; in a shorter one writes nothing and returns 0, which is the
// length of no text: a report cannot fail.
pub fn report(sheet: &[u8], out: &mut [u8]) -> usize
    ensures { (result ≡ (report_of sheet.now out.old).count) × (out.new ≡ (report_of sheet.now out.old).bytes) × (result ≤ length out.old) }
{
    if out.len() < ROOM {
        return 0;
    }
    let mut text = Text {
        buffer: out,
        len: 0,
    };
    put_report(&mut text, sheet);
    text.len
}
