//! How a call ended, and what came of a case.
use mc_item::{Fault, NoMemory};

/// How a call ended. `Refused` is the want of memory. `Other` is each end that a case isn't made for.
#[derive(Clone, Copy, PartialEq, Eq)]
pub(crate) enum End {
    Made,
    Refused,
    Other,
}

/// What came of a case: its call was made, or refused memory. `Begun` has the number of events that were made before. `Closed`
/// means that each later call was refused too, with ample memory.
#[derive(Clone, Copy)]
pub(crate) enum Outcome {
    Made,
    Same,
    Changed,
    Closed,
    Begun(usize),
    Other,
}

/// Returns how a call ended that returns this.
pub(crate) fn end_of<T: Drop>(ended: Result<T, Fault>) -> End {
    match ended {
        Ok(_) => End::Made,
        Err(Fault::NoMemory) => End::Refused,
        Err(Fault::HistoryFull) => End::Other,
    }
}

/// The same of a call that fails in no other way.
pub(crate) fn end_by<T: Drop>(ended: Result<T, NoMemory>) -> End {
    match ended {
        Ok(_) => End::Made,
        Err(NoMemory) => End::Refused,
    }
}
