// Reading a sheet: its three counts, or its first fault. Document 01, "Reading a sheet".
ghost use Rattle.std.specs.Prelude.{◌≡◌, ℕ, ◌+◌, ◌*◌, ◌≤◌, ◌<◌, length, IfOk, MatchResult, Ok, Err};
ghost use Rattle.sheet.specs.Layout.{sheet_end};
ghost use Rattle.sheet.specs.Reading.{number_of, outcome, reading_of, after_sections, fuels_of, pools_of, targets_of, Sound};
ghost use Rattle.sheet.specs.Private.{section_of, Holding, stray};

use super::bytes::two;
use super::layout::{
    COUNT_SIZE, FUEL_INDEX, FUEL_SIZE, MOST_FUELS, MOST_POOLS, MOST_TARGETS, POOL_SIZE, TARGET_SIZE,
};

#[derive(Clone, Copy)]
pub struct Counts {
    pub fuels: usize,
    pub pools: usize,
    pub targets: usize,
}

// Why a sheet is refused, with the numbers of "Reading a sheet".
#[derive(Clone, Copy)]
pub enum Fault {
    CutShort = 1,
    TooMany = 2,
    LeftOver = 3,
    NoFuel = 4,
    NoPool = 5,
}

impl From<Fault> for u8 {
    ghost from_gives = { λ why n. n ≡ number_of why };

    fn from(why: Fault) -> u8 {
        why as u8
    }
}

// The count of the section that starts at `start`, with records of `size` bytes, `most` of them at most; or its first fault.
fn read_section(sheet: &[u8], start: usize, size: usize, most: usize) -> Result<usize, Fault>
    requires { (start ≤ length sheet.now) × (size ≤ 65536) }
    ensures is { result ≡ section_of sheet.now start size most }
    ensures holds { IfOk result (Holding sheet.now start size most) }
{
    if sheet.len() < start + COUNT_SIZE {
        return Err(Fault::CutShort);
    }
    let count = two(sheet, start) as usize;
    if most < count {
        return Err(Fault::TooMany);
    }
    if sheet.len() < start + COUNT_SIZE + size * count {
        return Err(Fault::CutShort);
    }
    Ok(count)
}

// Whether one of `count` indices, `size` bytes apart from `first` on, is `limit` or more.
fn has_stray(sheet: &[u8], first: usize, size: usize, count: usize, limit: usize) -> bool
    requires { ((i : ℕ) → i < count → first + size * i + 2 ≤ length sheet.now) × (size ≤ 65536) }
    ensures { result ≡ stray sheet.now first size count limit }
{
    (0..count).any(|i| limit <= two(sheet, first + size * i) as usize)
}

// After the three sections: bytes left over, then the indices.
fn after_sections(sheet: &[u8], counts: Counts) -> Result<Counts, Fault>
    requires { (counts.fuels ≡ fuels_of sheet.now) × (counts.pools ≡ pools_of sheet.now) × (counts.targets ≡ targets_of sheet.now) × (sheet_end counts.fuels counts.pools counts.targets ≤ length sheet.now) }
    ensures { outcome result ≡ after_sections sheet.now }
{
    let Counts {
        fuels,
        pools,
        targets,
    } = counts;
    let first_pool = COUNT_SIZE + FUEL_SIZE * fuels + COUNT_SIZE;
    let first_target = first_pool + POOL_SIZE * pools + COUNT_SIZE;
    if first_target + TARGET_SIZE * targets < sheet.len() {
        return Err(Fault::LeftOver);
    }
    if has_stray(sheet, first_pool + FUEL_INDEX, POOL_SIZE, pools, fuels) {
        return Err(Fault::NoFuel);
    }
    if has_stray(sheet, first_target, TARGET_SIZE, targets, pools) {
        return Err(Fault::NoPool);
    }
    Ok(counts)
}

// The counts of a sheet, or its first fault.
pub fn read(sheet: &[u8]) -> Result<Counts, Fault>
    ensures { outcome result ≡ reading_of sheet.now }
{
    let fuels = read_section(sheet, 0, FUEL_SIZE, MOST_FUELS)?;
    let pools_start = COUNT_SIZE + FUEL_SIZE * fuels;
    let pools = read_section(sheet, pools_start, POOL_SIZE, MOST_POOLS)?;
    let targets_start = pools_start + COUNT_SIZE + POOL_SIZE * pools;
    let targets = read_section(sheet, targets_start, TARGET_SIZE, MOST_TARGETS)?;
    after_sections(
        sheet,
        Counts {
            fuels,
            pools,
            targets,
        },
    )
}

// A sheet that reading accepts, with its counts.
#[derive(Clone, Copy)]
pub(crate) struct Accepted<'a> {
    pub(crate) bytes: &'a [u8],
    pub(crate) counts: Counts,
    ghost sound: { Sound bytes.now counts.fuels counts.pools counts.targets },
}

impl<'a> Accepted<'a> {
    // The sheet, or its first fault.
    pub(crate) fn read(sheet: &'a [u8]) -> Result<Accepted<'a>, Fault>
        ensures { MatchResult result (λ a. (outcome (Ok a.counts) ≡ reading_of sheet.now) × (a.bytes.now ≡ sheet.now)) (λ why. outcome (Err why) ≡ reading_of sheet.now) }
    {
        let counts = read(sheet)?;
        Ok(Accepted {
            bytes: sheet,
            counts,
        })
    }
}
