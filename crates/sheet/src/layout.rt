// Where each number of a sheet stands: document 01, "Sheet and fill", and requests 1 and 3. The definitions are in specs/Layout.antt.
pub(crate) const COUNT_SIZE: usize = 2;

pub(crate) const MOST_FUELS: usize = 64;

pub(crate) const MOST_POOLS: usize = 64;

pub(crate) const MOST_TARGETS: usize = 512;

pub(crate) const FUEL_SIZE: usize = 6;

pub(crate) const ABSORPTION: usize = 2;

pub(crate) const HEAT: usize = 4;

pub(crate) const POOL_SIZE: usize = 7;

pub(crate) const FUEL_INDEX: usize = 4;

pub(crate) const METHOD: usize = 6;

pub(crate) const TARGET_SIZE: usize = 13;

pub(crate) const DISTANCE: usize = 2;

pub(crate) const FACE: usize = 6;

pub(crate) const HEIGHT: usize = 7;

pub(crate) const TRANSMISSIVITY: usize = 11;

// What the fill writes for each target.
pub(crate) const ANSWER_SIZE: usize = 10;
