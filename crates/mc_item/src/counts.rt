//! The counts of background work: the maintainer's moves, and the crawler's histogram.
ghost use Rattle.std.specs.Prelude.{◌≡◌, length};
ghost use Rattle.mc_item.specs.Counts.{FitsTogether, added, no_counts};

/// How many entries one call of the maintainer reclaimed, and how many it moved other than for hits.
#[derive(Clone, Copy, Debug, PartialEq, Eq)]
pub struct Moves {
    pub reclaimed: u64,
    pub moved: u64,
}

/// What a crawl of a class found: how many entries it came to, and how many of them had each outcome.
#[derive(Drop)]
pub struct Histogram {
    /// Entries by the whole minutes that they have left, from 0.
    pub minutes: [u64; 60],
    /// Entries that have an hour or more left.
    pub hour_plus: u64,
    /// Entries without an expiry.
    pub no_expiry: u64,
    /// All entries that the crawl came to.
    pub seen: u64,
    /// Entries that were removed with their dead item.
    pub reclaimed: u64,
    /// Entries that the crawl passed over, and so left as they were.
    pub passed: u64,
    /// Entries that were already removed when the crawl came to them.
    pub gone: u64,
}

// Adds to each number of the first list the one at the same place of the other.
fn add_minutes(minutes: &mut [u64], others: &[u64])
    requires same_len { length minutes.old ≡ length others.now }
    requires fit { Rattle.mc_item.specs.Counts.FitInPairs minutes.old others.now }
    ensures { minutes.new ≡ Rattle.mc_item.specs.Counts.sums minutes.old others.now }
{
    for i in 0..others.len() {
        minutes[i] += others[i];
    }
}

impl Histogram {
    /// Returns a histogram of nothing: each count is 0.
    pub fn new() -> Histogram
        ensures { result ≡ no_counts }
    {
        Histogram {
            minutes: [0; 60],
            hour_plus: 0,
            no_expiry: 0,
            seen: 0,
            reclaimed: 0,
            passed: 0,
            gone: 0,
        }
    }

    /// Adds the counts of another histogram. No sum may exceed 2^64 - 1.
    pub fn add(&mut self, other: &Histogram)
        requires { FitsTogether self.old other.now }
        ensures { self.new ≡ added self.old other.now }
    {
        add_minutes(&mut self.minutes, &other.minutes);
        self.hour_plus += other.hour_plus;
        self.no_expiry += other.no_expiry;
        self.seen += other.seen;
        self.reclaimed += other.reclaimed;
        self.passed += other.passed;
        self.gone += other.gone;
    }
}
