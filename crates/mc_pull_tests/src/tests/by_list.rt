//! A gate that answers from a list, and walks through it.
use super::judging::may_walk;
use mc_item::{Fault, Seg, StripeNo};
use mc_pull::{Answer, Gate, Look, Mode, Pulled, make_room, pull_tail};
use mc_stripe::StripeState;
use mc_testing::{WHO, World, context, juggle};
use std::alloc::Global;
use std::test::Fail;

/// A gate that is lent stripe 0, and lends it where its list says yes. Past the end of the list it says no. The visit of one
/// number fails, if there is one.
#[derive(Drop)]
pub struct ByList<'a> {
    pub stripe: &'a mut StripeState,
    pub answers: &'a mut Vec<Answer>,
    pub yes: &'a [bool],
    pub fails: Option<usize>,
}

impl<'a> Gate for ByList<'a> {
    ghost use Rattle.std.specs.Prelude.{◌∷◌, []};
    ghost use Rattle.mc_pull.specs.{Lone.Serves, Refusal.MayFail};

    ghost answers = { λ g. g.answers.now.items };

    ghost serves = { λ g config who c. Serves 0 g.stripe.now config };

    ghost reaches = { λ g h state. Unit {0} };

    ghost references = { λ g. g.stripe.ghost_name ∷ [] };

    ghost faults = { λ g c. MayFail c g.stripe.now };

    ghost keeps = { λ w g begun h history. Unit {0} };

    fn visit(&mut self, stripe: StripeNo, look: &mut Look<'_>) -> Result<bool, Fault> {
        let place = self.answers.len();
        if let Some(fails) = self.fails {
            if fails == place {
                return Err(Fault::NoMemory);
            }
        }
        let had = stripe.0 == 0 && place < self.yes.len() && self.yes[place];
        self.answers.reserve(1)?;
        if !had {
            self.answers.push_reserved(Answer {
                stripe,
                judged: None,
            });
            return Ok(false);
        }
        let own = &mut *self.stripe;
        let judged = look.settle(own)?;
        self.answers.push_reserved(Answer {
            stripe,
            judged: Some(judged),
        });
        Ok(true)
    }
}

/// A walk or a round at a moment, and what the gate answers.
#[derive(Clone, Copy)]
pub enum Walked {
    /// The class is juggled, and the gate is always lent the stripe.
    Juggle(u64),
    /// COLD is pulled for an entry to take.
    Evict(u64, &'static [bool]),
    /// COLD is pulled by a survey that is made first.
    Pull(u64, &'static [bool]),
    /// HOT is pulled for an entry to force to COLD.
    Force(u64, &'static [bool]),
    /// Room is made.
    Room(u64, &'static [bool]),
}

// Pulls a list; nothing where it may not be pulled so.
fn walk(
    world: &mut World,
    seg: Seg,
    mode: Mode,
    moment: u64,
    yes: &[bool],
    fails: Option<usize>,
) -> Result<Option<Pulled>, Fault> {
    let alloc = world.alloc;
    let class = &mut world.class;
    if !may_walk(class, seg, mode, WHO, moment) {
        return Ok(None);
    }
    let mut gate = ByList {
        stripe: &mut world.stripe,
        answers: &mut Vec::new(alloc),
        yes,
        fails,
    };
    let context = context(moment, &world.config);
    let pulled = pull_tail(context, class, seg, mode, &mut gate)?;
    Ok(Some(pulled))
}

/// Pulls COLD for an entry to take.
pub(super) fn evict(world: &mut World, moment: u64, yes: &[bool]) -> Result<Option<Pulled>, Fault> {
    walk(world, Seg::Cold, Mode::Evict, moment, yes, None)
}

/// Pulls COLD by a survey that is made first.
pub(super) fn pull(world: &mut World, moment: u64, yes: &[bool]) -> Result<Option<Pulled>, Fault> {
    let mode = Mode::Plain(world.class.survey(WHO, moment)?);
    walk(world, Seg::Cold, mode, moment, yes, None)
}

// Makes room. It says whether a chunk was found, and after how many looks.
fn room(
    world: &mut World,
    moment: u64,
    yes: &[bool],
    fails: Option<usize>,
) -> Result<(bool, usize), Fault> {
    let alloc = world.alloc;
    let class = &mut world.class;
    let mut answers = Vec::new(alloc);
    let mut gate = ByList {
        stripe: &mut world.stripe,
        answers: &mut answers,
        yes,
        fails,
    };
    let context = context(moment, &world.config);
    let found = make_room(context, class, &mut gate)?;
    Ok((found, answers.len()))
}

// Juggles the class by a gate whose visit of one number fails, if there is one, and which else is always lent the stripe.
fn juggle_by(world: &mut World, moment: u64, fails: Option<usize>) -> Result<(), Fault> {
    let alloc = world.alloc;
    let class = &mut world.class;
    let mut gate = ByList {
        stripe: &mut world.stripe,
        answers: &mut Vec::new(alloc),
        yes: &[true; 100],
        fails,
    };
    let context = context(moment, &world.config);
    mc_pull::juggle(context, class, &mut gate)?;
    Ok(())
}

/// Walks by a gate whose visit of this number fails, and so the walk, unless it makes fewer visits.
pub(super) fn walk_broken(world: &mut World, walked: Walked, fails: usize) -> Result<(), Fault> {
    let fails = Some(fails);
    match walked {
        Walked::Juggle(moment) => juggle_by(world, moment, fails)?,
        Walked::Evict(moment, yes) => {
            walk(world, Seg::Cold, Mode::Evict, moment, yes, fails)?;
        }
        Walked::Pull(moment, yes) => {
            let mode = Mode::Plain(world.class.survey(WHO, moment)?);
            walk(world, Seg::Cold, mode, moment, yes, fails)?;
        }
        Walked::Force(moment, yes) => {
            walk(world, Seg::Hot, Mode::Force, moment, yes, fails)?;
        }
        Walked::Room(moment, yes) => {
            room(world, moment, yes, fails)?;
        }
    }
    Ok(())
}

// How many entries a walk has met.
fn text_of_pulled(alloc: Global, pulled: Option<Pulled>) -> Result<String, Fail> {
    let Some(pulled) = pulled else {
        return Ok(format!(in alloc; "may not be pulled")?);
    };
    let kept = format!(in alloc; "{} reclaimed, {} moved", pulled.reclaimed, pulled.moved)?;
    Ok(format!(in alloc;
        "{kept}, {} evicted, {} passed",
        pulled.evicted, pulled.passed
    )?)
}

fn text_of_room(alloc: Global, got: (bool, usize)) -> Result<String, Fail> {
    let (found, looks) = got;
    Ok(format!(in alloc; "{found} after {looks}")?)
}

fn text_of_juggled(world: &mut World, moment: u64) -> Result<String, Fail> {
    let moves = juggle(world, moment)?;
    Ok(format!(in world.alloc; "{} reclaimed, {} moved", moves.reclaimed, moves.moved)?)
}

/// Walks, and tells what came of it.
pub(super) fn tell_walked(world: &mut World, walked: Walked) -> Result<String, Fail> {
    let alloc = world.alloc;
    match walked {
        Walked::Juggle(moment) => text_of_juggled(world, moment),
        Walked::Evict(moment, yes) => text_of_pulled(alloc, evict(world, moment, yes)?),
        Walked::Pull(moment, yes) => text_of_pulled(alloc, pull(world, moment, yes)?),
        Walked::Force(moment, yes) => text_of_pulled(
            alloc,
            walk(world, Seg::Hot, Mode::Force, moment, yes, None)?,
        ),
        Walked::Room(moment, yes) => text_of_room(alloc, room(world, moment, yes, None)?),
    }
}
