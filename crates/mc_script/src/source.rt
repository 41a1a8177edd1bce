//! Where a script's bytes come from.
ghost use Rattle.std.specs.Prelude.{◌≡◌, ◌++◌, ◌≤◌, ℕ, List, [], IfErr, IfOk, OnOk, MatchOption};
ghost use Rattle.mc_script.specs.Source.{CountsRead};

/// Why a source gave no bytes.
#[derive(Clone, Copy, Debug, PartialEq, Eq)]
pub enum SourceFault {
    /// The read failed.
    Failed,
    /// There was no memory for the bytes. Nothing was read.
    NoMemory,
}

/// Where a script's bytes come from. Contracts see the bytes to come, and count the failed reads.
pub trait Source: Drop {
    ghost coming: { Self → List ℕ };

    ghost failures: { Self → ℕ };

    /// Returns the next bytes, or `None` at the end. After a fault the bytes to come stay the same. `Failed` counts as a failed read,
    /// `NoMemory` doesn't.
    fn piece(&mut self) -> Result<Option<Vec<u8>>, SourceFault>
        ensures ok { IfOk result (λ o. MatchOption o ((coming self.old ≡ []) × (coming self.new ≡ [])) (λ v. coming self.old ≡ v.items ++ coming self.new)) }
        ensures fine { OnOk result (failures self.new ≡ failures self.old) }
        ensures err { IfErr result (λ fault. CountsRead fault (failures self.old) (failures self.new) × (coming self.new ≡ coming self.old)) }
        ensures count { failures self.old ≤ failures self.new };
}
