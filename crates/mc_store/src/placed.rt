//! Where a command was answered.
use mc_item::StripeNo;

/// Where a caller's command was answered: its turn, the stripe, and the place of its event in the stripe's history. Turns, stripes
/// and places are numbered from 0.
#[derive(Clone, Copy, Debug, PartialEq, Eq)]
pub struct Placed {
    pub turn: u64,
    pub stripe: StripeNo,
    pub place: u64,
}
