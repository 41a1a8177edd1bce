//! The configuration of a store.
ghost use Rattle.std.specs.Prelude.{◌≡◌, IfErr, IfOk, Some};
ghost use Rattle.std.specs.List.{list_all};
ghost use Rattle.mc_item.specs.Config.{is_limit, is_size, fault_of, IsBounded, IsSound, usual_config, usual_sizes};

use crate::fault::NoMemory;
use crate::numbers::{MAX_CLASSES, Numbers};
use std::alloc::Global;

/// What a store is made with. `sizes` and `chunks` have one number for each slab class. Percents are of the bytes of HOT, WARM
/// and COLD. Factors are hundredths of the age of COLD's tail. `temp_ttl` is in seconds. `max_events` limits the events of each
/// history and the calls of each caller, and `keeps_events` says whether events are kept in memory.
#[derive(Drop)]
pub struct Config {
    pub stripes: u32,
    pub sizes: Numbers,
    pub chunks: Numbers,
    pub hot_percent: u64,
    pub warm_percent: u64,
    pub hot_factor: u64,
    pub warm_factor: u64,
    pub temp: bool,
    pub temp_ttl: u64,
    pub callers: u32,
    pub max_events: u64,
    pub keeps_events: bool,
}

/// What is wrong with a configuration. Of several faults the first in this order is returned.
#[derive(Clone, Copy, Debug, PartialEq, Eq)]
pub enum ConfigFault {
    /// The number of stripes isn't a power of two from 1 to 64.
    Stripes,
    /// The sizes aren't 1 to 63 strictly rising numbers from 65 to 1,048,576.
    Sizes,
    /// There isn't one number of chunks for each size, or one isn't from 1 to 1,048,576.
    Chunks,
    /// A percent isn't from 1 to 99, or their sum exceeds 99.
    Percent,
    /// A factor exceeds 10,000, or `temp_ttl` isn't from 1 to 2,592,000 seconds.
    Factor,
    /// The number of callers isn't from 1 to 64.
    Callers,
    /// The limit of a history's events isn't from 16 to 2^32.
    Events,
}

/// The sizes of the 43 usual slab classes (this project's own).
const USUAL_SIZES: [u64; 43] = [
    96, 120, 152, 192, 240, 304, 384, 480, 600, 752, 944, 1184, 1480, 1856, 2320, 2904, 3632, 4544,
    5680, 7104, 8880, 11104, 13880, 17352, 21696, 27120, 33904, 42384, 52984, 66232, 82792, 103496,
    129376, 161720, 202152, 252696, 315872, 394840, 493552, 616944, 771184, 963984, 1048576,
];

fn sizes_of(alloc: Global) -> Result<Numbers, NoMemory>
    ensures { IfOk result (λ sizes. sizes ≡ usual_sizes) }
{
    Ok(Numbers::from_vec(Vec::from_slice(alloc, &USUAL_SIZES)?))
}

fn chunks_of(alloc: Global) -> Result<Numbers, NoMemory>
    ensures { IfOk result (λ chunks. chunks ≡ Rattle.mc_item.specs.Config.usual_chunks) }
{
    Ok(Numbers::from_vec(Vec::from_slice(alloc, &[1024; 43])?))
}

fn are_sizes(sizes: &[u64]) -> bool
    ensures { result ≡ Rattle.mc_item.specs.Config.are_sizes sizes.now }
{
    !sizes.is_empty() && sizes.len() <= MAX_CLASSES && are_in_range(sizes) && is_rising(sizes)
}

fn are_limits(chunks: &[u64]) -> bool
    ensures { result ≡ list_all is_limit chunks.now }
{
    chunks
        .iter()
        .all(|limit| 1 <= *limit && *limit <= 1_048_576)
}

fn are_in_range(sizes: &[u64]) -> bool
    ensures { result ≡ list_all is_size sizes.now }
{
    sizes.iter().all(|size| 65 <= *size && *size <= 1_048_576)
}

fn are_chunks(chunks: &[u64], classes: usize) -> bool
    ensures { result ≡ Rattle.mc_item.specs.Config.are_chunks chunks.now classes }
{
    chunks.len() == classes && are_limits(chunks)
}

fn are_percents(hot: u64, warm: u64) -> bool
    ensures { result ≡ Rattle.mc_item.specs.Config.are_percents hot warm }
{
    1 <= hot && hot <= 99 && 1 <= warm && warm <= 99 && hot + warm <= 99
}

fn are_factors(hot: u64, warm: u64, temp_ttl: u64) -> bool
    ensures { result ≡ Rattle.mc_item.specs.Config.are_factors hot warm temp_ttl }
{
    hot <= 10_000 && warm <= 10_000 && 1 <= temp_ttl && temp_ttl <= 2_592_000
}

fn are_callers(callers: u32) -> bool
    ensures { result ≡ Rattle.mc_item.specs.Config.are_callers callers }
{
    1 <= callers && callers <= 64
}

fn are_events(events: u64) -> bool
    ensures { result ≡ Rattle.mc_item.specs.Config.are_events events }
{
    16 <= events && events <= 1 << 32
}

fn are_stripes(stripes: u32) -> bool
    ensures { result ≡ Rattle.mc_item.specs.Config.are_stripes stripes }
{
    matches!(stripes, 1 | 2 | 4 | 8 | 16 | 32 | 64)
}

fn is_rising(numbers: &[u64]) -> bool
    ensures { result ≡ Rattle.mc_item.specs.Config.is_rising numbers.now }
{
    match numbers {
        [] => true,
        [_] => true,
        [first, second, ..] => *first < *second && is_rising(&numbers[1..]),
    }
}

impl Config {
    /// Returns the usual configuration for this many callers: one stripe, the 43 usual sizes with 1,024 chunks each, and histories
    /// that keep their events. Fails with `NoMemory` if there is no memory for the lists of sizes and chunks.
    pub fn usual(alloc: Global, callers: u32) -> Result<Config, NoMemory>
        ensures { IfOk result (λ config. config ≡ usual_config callers) }
    {
        Ok(Config {
            stripes: 1,
            sizes: sizes_of(alloc)?,
            chunks: chunks_of(alloc)?,
            hot_percent: 20,
            warm_percent: 40,
            hot_factor: 20,
            warm_factor: 200,
            temp: false,
            temp_ttl: 61,
            callers,
            max_events: 1_048_576,
            keeps_events: true,
        })
    }

    fn fault(&self) -> Option<ConfigFault>
        ensures { result ≡ fault_of self.now }
    {
        if !are_stripes(self.stripes) {
            Some(ConfigFault::Stripes)
        } else if !are_sizes(self.sizes.as_slice()) {
            Some(ConfigFault::Sizes)
        } else if !are_chunks(self.chunks.as_slice(), self.sizes.as_slice().len()) {
            Some(ConfigFault::Chunks)
        } else if !are_percents(self.hot_percent, self.warm_percent) {
            Some(ConfigFault::Percent)
        } else if !are_factors(self.hot_factor, self.warm_factor, self.temp_ttl) {
            Some(ConfigFault::Factor)
        } else if !are_callers(self.callers) {
            Some(ConfigFault::Callers)
        } else if !are_events(self.max_events) {
            Some(ConfigFault::Events)
        } else {
            None
        }
    }

    /// Returns the configuration unchanged, or fails with the first thing that is wrong with it. Takes any numbers and no memory.
    pub fn check(self) -> Result<Config, ConfigFault>
        ensures same { IfOk result (λ config. config ≡ self) }
        ensures sound { IfOk result IsSound }
        ensures bounded { IfOk result IsBounded }
        ensures fault { IfErr result (λ fault. fault_of self ≡ Some fault) }
    {
        match self.fault() {
            Some(fault) => Err(fault),
            None => Ok(self),
        }
    }
}
