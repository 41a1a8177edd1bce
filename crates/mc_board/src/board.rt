//! The board, which all threads share.
ghost use Rattle.std.specs.Prelude.{◌≡◌, ◌<◌, ◌≤◌, ◌+◌, ◌^◌, IfOk, IfErr, []};
ghost use Rattle.mc_board.specs.{Accounts.first_caller, Histories.blind, Views.AreOwners, Views.locks_of, Views.first_word, Views.words_of};
ghost use Rattle.mc_board.specs.declared.rule.View.TheVariants as views;

use crate::owner::Owner;
use crate::rule::{Counts, Place, Words};
use crate::seen::Seen;
use crate::steps::{Deals, Opens};
use mc_item::NoMemory;
use std::alloc::Global;
use std::marker::Model;

/// A board: for each lock, nine atomic words with the length and the figures of its history. Calls on owners and tokens borrow it.
#[derive(Drop)]
pub struct Board {
    pub(crate) table: Words,
    counts: Counts,
}

impl Model for Board {
    ghost use Rattle.std.specs.Prelude.{◌≡◌, ◌<◌, ◌^◌};
    ghost use Rattle.mc_board.specs.Views.{BoardView, words_of};

    ghost Value = { BoardView };

    ghost view = { λ b. record { table = b.table.shared.table_id; counts = b.counts } };

    ghost invariant = { λ b.
        (b.table.shared.key ≡ b.counts)
        × (b.table.shared.table_id.words ≡ words_of b.counts)
        × (words_of b.counts < 2 ^ 64) };
}

impl Board {
    /// Opens a board with this many locks of each kind, whose histories are all empty.
    /// Returns it with an owner for each lock, in the order of the locks, and a token that has seen nothing.
    /// Errors: `NoMemory` if an allocation fails, or if the words of so many locks can't be counted in 64 bits.
    pub fn open(alloc: Global, counts: Counts) -> Result<(Board, Vec<Owner>, Seen), NoMemory>
        ensures counts { IfOk result (λ r. r.0.counts ≡ counts) }
        ensures owners { IfOk result (λ r. AreOwners r.0.table (first_caller counts) (locks_of counts) r.1.items) }
        ensures seen { IfOk result (λ r. r.2 ≡ record { board = r.0.table; sight = blind }) }
    {
        let words = words_for(counts)?;
        let zeros = vec![in alloc; 0u64; words]?;
        let (table, mut root) = Words::of_words(alloc, zeros.as_slice(), &counts)?;
        let board = Board { table, counts };
        let seen = Seen::at(board.table.shared.split_seat::<Opens>(&mut root));
        let owners = deal(alloc, &board, &mut root)?;
        Ok((board, owners, seen))
    }

    // The index of a lock's first word, after which its figures come. The first words of the board belong to no lock.
    pub(crate) fn first_word(&self, lock: usize) -> usize
        requires { lock < locks_of self.now.counts }
        ensures word { result ≡ first_word self.now.counts lock }
        ensures within { (result + 8 < self.now.table.words) × (self.now.table.words < 2 ^ 64) }
    {
        let _ = &self.table;
        (lock + 1) * LINE
    }
}

// The words of one lock, of which nine are used: two cache lines of 64 bytes, so that no two locks share one.
const LINE: usize = 16;

// The number of words for this many locks. Fails if that is 2^64 or more.
fn words_for(counts: Counts) -> Result<usize, NoMemory>
    ensures ok { IfOk result (λ words. words ≡ words_of counts) }
    ensures err { IfErr result (λ _. 2 ^ 64 ≤ words_of counts) }
{
    let locks = counts.stripes.checked_add(counts.classes).ok_or(NoMemory)?;
    let all = locks.checked_add(counts.callers).ok_or(NoMemory)?;
    let lines = all.checked_add(1).ok_or(NoMemory)?;
    lines.checked_mul(LINE).ok_or(NoMemory)
}

// Gives out an owner for each lock, in the order of the locks.
fn deal(alloc: Global, board: &Board, root: &mut Place) -> Result<Vec<Owner>, NoMemory>
    requires table { root.old.table_id ≡ board.now.table }
    requires root { root.old.me ≡ (views.Root (record { counts = board.now.counts; given = 0 }), []) }
    ensures { IfOk result (λ owners. AreOwners board.now.table (first_caller board.now.counts) (locks_of board.now.counts) owners.items) }
{
    let counts = board.counts;
    let mut owners = Vec::new(alloc);
    for lock in 0..counts.stripes + counts.classes + counts.callers {
        let word = board.first_word(lock);
        let place = board.table.shared.split_seat::<Deals>(root);
        owners.push(Owner::at(word, place))?;
    }
    Ok(owners)
}
