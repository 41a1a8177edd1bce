//! Why no script was run.
ghost use Rattle.std.specs.Prelude.{◌≡◌};
ghost use Rattle.mc_driver.specs.declared.fault.RunFault.TheVariants as faults;

use mc_item::NoMemory;
use std::alloc::AllocError;

/// Why no script was run.
#[derive(Clone, Copy, Debug, PartialEq, Eq)]
pub enum RunFault {
    /// An allocation failed.
    NoMemory,
    /// The configuration isn't sound.
    Configuration,
    /// There is no script, or there are more than 62.
    Scripts,
}

impl From<AllocError> for RunFault {
    ghost from_gives = { λ _ e. e ≡ faults.NoMemory };

    fn from(_e: AllocError) -> RunFault {
        RunFault::NoMemory
    }
}

impl From<NoMemory> for RunFault {
    ghost from_gives = { λ _ e. e ≡ faults.NoMemory };

    fn from(_e: NoMemory) -> RunFault {
        RunFault::NoMemory
    }
}
