//! What is done to a stripe and a class: what comes before a case's call, and the call. Keys have 31 bytes, all the same letter.
//! If no letter is named, it is `a`.
use crate::asking::{self, Asked};
use crate::end::End;
use crate::marks::Marks;
use crate::{classes, forgetting, judging, walking};
use mc_testing::World;

/// An act.
#[derive(Clone, Copy)]
pub(crate) enum Act {
    // Of the stripe.
    Ask(u8, Asked),
    ReserveStripe(usize),
    FillStripe,
    Expire,
    Take,
    Cool,
    // Of the class.
    ReserveClass(usize),
    FillClass,
    Link(u8),
    Survey,
    Limit,
    Refuse,
    Unlink,
    Reclaim,
    Force,
    Evict,
    // Of both.
    JudgeDead,
    JudgeHit,
    JudgeTail,
    Pull,
    MakeRoom,
    Juggle,
    Advance,
    TakeLinks,
    Crawl,
}

/// Does it, with the marks around the one call that it makes.
pub(crate) fn make(world: &mut World, act: Act, marks: Marks) -> End {
    match act {
        Act::Ask(letter, asked) => asking::ask(world, letter, asked, marks),
        Act::ReserveStripe(events) => forgetting::reserve(world, events, marks),
        Act::FillStripe => asking::fill(world, marks),
        Act::Expire => forgetting::expire(world, marks),
        Act::Take => forgetting::take(world, marks),
        Act::Cool => forgetting::cool(world, marks),
        Act::ReserveClass(events) => classes::reserve(world, events, marks),
        Act::FillClass => classes::fill(world),
        Act::Link(letter) => classes::link(world, letter, marks),
        Act::Survey => classes::survey(world, marks),
        Act::Limit => classes::limit(world, marks),
        Act::Refuse => classes::refuse(world, marks),
        Act::Unlink => classes::unlink(world, marks),
        Act::Reclaim => classes::reclaim(world, marks),
        Act::Force => classes::force(world, marks),
        Act::Evict => classes::evict(world, marks),
        Act::JudgeDead => judging::judge_dead(world, marks),
        Act::JudgeHit => judging::judge_hit(world, marks),
        Act::JudgeTail => judging::judge_tail(world, marks),
        Act::Pull => walking::pull(world, marks),
        Act::MakeRoom => walking::make_room(world, marks),
        Act::Juggle => walking::juggle(world, marks),
        Act::Advance => walking::take_hit(world, marks),
        Act::TakeLinks => walking::take_links(world, marks),
        Act::Crawl => walking::crawl(world, marks),
    }
}
