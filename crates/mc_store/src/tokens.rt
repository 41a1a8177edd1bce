//! What a store is opened with.
ghost use Rattle.std.specs.Prelude.{◌≡◌, IfOk, length};
ghost use Rattle.std.specs.List.{All};
ghost use Rattle.mc_item.specs.Config.{IsBounded};
ghost use Rattle.mc_board.specs.{Histories.blind, Views.AreOwners, Views.locks_of};
ghost use Rattle.mc_hits.specs.Views.{AreHands, HasRoom, tables_of};
ghost use Rattle.mc_store.specs.Locked.{histories_for, locks_for};

use crate::taking::MOST_HITS;
use mc_board::{Board, Counts, Owner, Seen};
use mc_hits::{Hands, Queues};
use mc_item::{Config, NoMemory};
use std::alloc::Global;

/// The board of a store with the tokens that `Board::open` returned with it, and its queues of hits with the hands that
/// `Queues::open` returned with them.
#[derive(Drop)]
pub struct Tokens {
    pub board: Board,
    pub owners: Vec<Owner>,
    pub seen: Seen,
    pub queues: Queues,
    pub hands: Vec<Hands>,
}

impl Tokens {
    /// Opens what a store of this configuration needs: a board with a history for each stripe, slab class and caller, and for each
    /// class a queue with room for 256 hits. The configuration has been checked. All histories are empty, nothing has been seen,
    /// and no caller has offered or taken a hit.
    /// Errors: `NoMemory` if an allocation fails.
    pub fn open(alloc: Global, config: &Config) -> Result<Tokens, NoMemory>
        requires { IsBounded config.now }
        ensures locks { IfOk result (λ t. locks_of t.board.counts ≡ histories_for config.now) }
        ensures owners { IfOk result (λ t. AreOwners t.board.table (locks_for config.now) (histories_for config.now) t.owners.items) }
        ensures seen { IfOk result (λ t. t.seen ≡ record { board = t.board.table; sight = blind }) }
        ensures queues { IfOk result (λ t. length t.queues ≡ length config.now.sizes) }
        ensures room { IfOk result (λ t. All (HasRoom 256) t.queues) }
        ensures hands { IfOk result (λ t. AreHands (tables_of t.queues) config.now.callers t.hands.items) }
    {
        let classes = config.sizes.as_slice().len();
        let counts = Counts {
            stripes: config.stripes as usize,
            classes,
            callers: config.callers as usize,
        };
        let (board, owners, seen) = Board::open(alloc, counts)?;
        let (queues, hands) = Queues::open(alloc, classes, MOST_HITS, config.callers)?;
        Ok(Tokens {
            board,
            owners,
            seen,
            queues,
            hands,
        })
    }
}
