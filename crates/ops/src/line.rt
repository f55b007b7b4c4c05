// One line of the input: a name, and its numbers, each after one blank.
use chain::enquiry::Enquiry;
use pairs::answer::Pair;
use planning::grid::Grid;
use planning::scenario::Scenario;
use std::str::{FromStr, Split};

// The numbers of a line that are still to be read. Where a method gives None, the line cannot be read.
#[derive(Drop)]
pub(crate) struct Numbers<'a> {
    words: Split<'a, char>,
}

impl<'a> Numbers<'a> {
    // The next number, of its type: digits, after a `-` where the type has a sign. `parse` alone would take a `+` too.
    pub(crate) fn next<T: FromStr>(&mut self) -> Option<T>
    where
        T::Err: Drop,
    {
        let word = self.words.next()?;
        if word.starts_with('+') {
            return None;
        }
        word.parse().ok()
    }

    // That no number is left.
    pub(crate) fn end(mut self) -> Option<()> {
        match self.words.next() {
            None => Some(()),
            Some(_) => None,
        }
    }

    pub(crate) fn last<T: FromStr + Drop>(mut self) -> Option<T>
    where
        T::Err: Drop,
    {
        let n = self.next()?;
        self.end()?;
        Some(n)
    }

    pub(crate) fn pair(&mut self) -> Option<Pair> {
        Some(Pair {
            low: self.next()?,
            high: self.next()?,
        })
    }

    pub(crate) fn last_pair(mut self) -> Option<Pair> {
        let p = self.pair()?;
        self.end()?;
        Some(p)
    }

    // rows points spacing east north
    pub(crate) fn grid(&mut self) -> Option<Grid> {
        Some(Grid {
            rows: self.next()?,
            points: self.next()?,
            spacing: self.next()?,
            east: self.next()?,
            north: self.next()?,
        })
    }

    // m k c a method d face height transmissivity, to the end
    pub(crate) fn enquiry(mut self) -> Option<Enquiry> {
        Some(Enquiry {
            rate: self.next()?,
            absorption: self.next()?,
            heat: self.next()?,
            area: self.next()?,
            method: self.next()?,
            distance: self.next()?,
            face: self.next()?,
            height: self.next()?,
            transmissivity: self.last()?,
        })
    }

    // m k c a method face height transmissivity, to the end
    pub(crate) fn scenario(mut self) -> Option<Scenario> {
        Some(Scenario {
            rate: self.next()?,
            absorption: self.next()?,
            heat: self.next()?,
            area: self.next()?,
            method: self.next()?,
            face: self.next()?,
            height: self.next()?,
            transmissivity: self.last()?,
        })
    }
}

// The name of a line, and its numbers.
pub(crate) fn name_and_numbers(line: &[u8]) -> Option<(&str, Numbers<'_>)> {
    let mut words = str::from_utf8(line).ok()?.split(' ');
    let name = words.next()?;
    Some((name, Numbers { words }))
}
