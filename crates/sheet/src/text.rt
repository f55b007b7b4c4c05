// Text into a lent buffer.
ghost use Rattle.std.specs.Prelude.{◌≡◌, ◌+◌, ◌≤◌, length};
ghost use Rattle.sheet.specs.Report.{decimal, field};
ghost use Rattle.sheet.specs.Private.{Writes};

use itoa::write_digits;

// How many digits n has.
fn digit_count(n: u32) -> usize
    ensures { result ≡ length (decimal n) }
{
    let mut count = 1;
    let mut left = n;
    while 10 <= left {
        left /= 10;
        count += 1;
    }
    count
}

// A buffer whose first `len` bytes are text. The buffer is the caller's: nothing allocates.
#[derive(Drop)]
pub(crate) struct Text<'a> {
    pub(crate) buffer: &'a mut [u8],
    pub(crate) len: usize,
}

impl Text<'_> {
    pub(crate) fn word(&mut self, word: &[u8])
        requires { self.old.len + length word.now ≤ length self.old.buffer.now }
        ensures { Writes self.old word.now self.new }
    {
        let end = self.len + word.len();
        self.buffer[self.len..end].copy_from_slice(word);
        self.len = end;
    }

    // A number and the byte that ends it. One digit is written at once, since three of a refused target's five numbers are 0.
    pub(crate) fn field(&mut self, n: u32, end: u8)
        requires { self.old.len + length (decimal n) + 1 ≤ length self.old.buffer.now }
        ensures { Writes self.old (field n end) self.new }
    {
        if n < 10 {
            return self.word(&[b'0' + n as u8, end]);
        }
        let after = self.len + digit_count(n);
        write_digits(n as u64, self.buffer, after);
        self.buffer[after] = end;
        self.len = after + 1;
    }
}
