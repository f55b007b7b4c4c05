// Sheets in hexadecimal, one to a line.
ghost use Rattle.std.specs.Prelude.{◌≡◌, ◌≢◌, ◌-◌, ◌^◌, ◌<◌, ◌≤◌, length, [], None, Ok, OnOk, List, ℕ};
ghost use Rattle.std.specs.Option.{ForSome};
ghost use Rattle.std.specs.List.{FoldsTo, fold};
ghost use Rattle.std.specs.Fn.{CalledAt};
ghost use Rattle.std.specs.Io.KnownBytes.{Consumes, IsAtEnd};
ghost use Rattle.input.specs.Sheets.{Lines, with_byte, sheets_of};

use arrayvec::ArrayVec;
use std::io::{self, Read};

// Of every sheet its first 7,495 bytes are enough: one more than the longest accepted sheet has.
pub const ROOM: usize = 7495;

// The line so far: the bytes of its sheet, and the first digit of the next one.
#[derive(Drop)]
struct Line {
    sheet: ArrayVec<u8, ROOM>,
    half: Option<u8>,
    ghost small: { ForSome half (λ d. d < 16) },
}

impl Line {
    ghost use Rattle.input.specs.Private.{Given, with_line};

    fn empty() -> Line
        ensures { (result.sheet.items ≡ []) × (result.half ≡ None) }
    {
        Line {
            sheet: ArrayVec::new(),
            half: None,
        }
    }

    // A line feed: the sheet ends, and a single digit is dropped. The closure is of the caller's type, so each function that takes it
    // asks that it may be called. It stays a call of its own: a large closure in the loop over the bytes slows each byte.
    #[inline(never)]
    fn end_sheet<F: FnMut(&[u8]) -> io::Result<()>>(&mut self, each: &mut F) -> io::Result<()>
        requires { F.IsAlwaysCallable each.old }
        ensures callable { F.IsAlwaysCallable each.new }
        ensures given { OnOk result ((f : F) (l : Lines) → Given F.FnMut f l self.old each.old → Given F.FnMut f (with_byte l 10) self.new each.new) }
    {
        each(self.sheet.as_slice())?;
        self.sheet.clear();
        self.half = None;
        Ok(())
    }

    // Any other byte: two digits are a byte of the sheet, and what is no digit is passed over.
    fn push_byte(&mut self, b: u8)
        requires { b ≢ 10 }
        ensures { (ended : List (List ℕ)) → with_line ended self.new ≡ with_byte (with_line ended self.old) b }
    {
        let Some(digit) = (b as char).to_digit(16) else {
            return;
        };
        let digit = digit as u8;
        match self.half.take() {
            None => self.half = Some(digit),
            // A byte past the room is dropped.
            Some(first) => {
                let _ = self.sheet.try_push(16 * first + digit);
            }
        }
    }

    // The bytes of one read, in their order.
    fn push_bytes<F: FnMut(&[u8]) -> io::Result<()>>(
        &mut self,
        piece: &[u8],
        each: &mut F,
    ) -> io::Result<()>
        requires { F.IsAlwaysCallable each.old }
        ensures callable { F.IsAlwaysCallable each.new }
        ensures given { OnOk result ((f : F) (l : Lines) → Given F.FnMut f l self.old each.old → Given F.FnMut f (fold with_byte l piece.now) self.new each.new) }
    {
        for b in piece {
            if *b == b'\n' {
                self.end_sheet(each)?;
            } else {
                self.push_byte(*b);
            }
        }
        Ok(())
    }
}

// Gives each sheet of the input to `each`. A last line with no line feed is none.
// A proved loop has to end, and nothing says that the input does. So the loop counts its turns, up to a number that no run uses up.
pub fn each_sheet<R: Read, F: FnMut(&[u8]) -> io::Result<()>>(
    input: &mut R,
    each: &mut F,
) -> io::Result<()>
    requires { F.IsAlwaysCallable each.old }
    ensures { OnOk result ((bs : List ℕ) × Consumes (R.remaining input.old) (R.remaining input.new) bs
        × (length bs < 2 ^ 64 - 1 → IsAtEnd (R.remaining input.new))
        × FoldsTo (λ p sheet q. CalledAt F.FnMut p sheet (Ok tt) q) each.old (sheets_of bs) each.new) }
{
    let mut line = Line::empty();
    let mut piece = [0u8; 4096];
    for _ in 0..u64::MAX {
        let n = input.read(&mut piece)?;
        if n == 0 {
            return Ok(());
        }
        line.push_bytes(&piece[..n], each)?;
    }
    Ok(())
}
