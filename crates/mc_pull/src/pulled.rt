//! What a walk counts.
ghost use Rattle.std.specs.Prelude.{◌≡◌, ◌<◌, ◌≤◌, ◌+◌, ◌^◌};
ghost use Rattle.mc_pull.specs.Pulled as words;
ghost use Rattle.mc_pull.specs.Pulled.{none_pulled, counts_if, sum_of};

use crate::judge::Done;

/// How many entries a walk has reclaimed, moved, evicted and passed.
#[derive(Clone, Copy, Debug, PartialEq, Eq)]
pub struct Pulled {
    pub reclaimed: u64,
    pub moved: u64,
    pub evicted: u64,
    pub passed: u64,
}

impl Pulled {
    pub(crate) fn none() -> Pulled
        ensures { result ≡ none_pulled }
    {
        Pulled {
            reclaimed: 0,
            moved: 0,
            evicted: 0,
            passed: 0,
        }
    }

    // The counts after one more answer of a gate.
    pub(crate) fn counted(self, done: Option<Done>) -> Pulled
        requires { sum_of self < 2 ^ 63 }
        ensures { result ≡ counts_if done self }
    {
        let Some(done) = done else {
            return Pulled {
                passed: self.passed + 1,
                ..self
            };
        };
        match done {
            Done::Reclaimed => Pulled {
                reclaimed: self.reclaimed + 1,
                ..self
            },
            Done::ToWarm | Done::WithinWarm | Done::ToCold => Pulled {
                moved: self.moved + 1,
                ..self
            },
            Done::Evicted => Pulled {
                evicted: self.evicted + 1,
                ..self
            },
            Done::Stayed | Done::Alive(_) => self,
            Done::Stranger => Pulled {
                passed: self.passed + 1,
                ..self
            },
        }
    }

    pub(crate) fn did_something(self) -> bool
        requires { sum_of self ≤ 15 }
        ensures { result ≡ words.did_something self }
    {
        0 < self.reclaimed + self.moved + self.evicted
    }

    pub(crate) fn plus(self, other: Pulled) -> Pulled
        requires { sum_of self + sum_of other ≤ 10000 }
        ensures { result ≡ words.plus self other }
    {
        Pulled {
            reclaimed: self.reclaimed + other.reclaimed,
            moved: self.moved + other.moved,
            evicted: self.evicted + other.evicted,
            passed: self.passed + other.passed,
        }
    }
}

// Whether a walk ends after an answer.
pub(crate) fn ends_with(done: Option<Done>) -> bool
    ensures { result ≡ words.is_end_if done }
{
    matches!(
        done,
        Some(Done::ToWarm | Done::ToCold | Done::Evicted | Done::Stayed | Done::Alive(_))
    )
}
