//! `%juggle`, the maintainer's directive: one call for each class that it names, and a text with the sums of their moves.
ghost use Rattle.std.specs.Prelude.{map, IfErr, IfOk, OnOk};
ghost use Rattle.mc_proto.specs.{Answers.moves_of, Grammar.AreAmong};
ghost use Rattle.mc_proto.specs.declared.request.Request.TheVariants as requests;
ghost use Rattle.mc_script.specs.Calls.{Answers, Begins, BreaksAmong, Fails, GoesOn, MayAnswer, SumsUp};
ghost use Rattle.mc_script.specs.{Exchanges.Juggles, Script.classes_named};

use crate::calls::Calls;
use crate::target::numbers_of;
use mc_item::{ClassNo, Fault, Moves};
use mc_proto::{Limits, ReplyText, Target};
use std::sync::Wait;

// Juggles the classes that the directive names in rising order, and returns the sums of their moves.
pub(crate) fn juggle_target<C: Calls>(
    rt: &impl Wait,
    limits: Limits,
    calls: &mut C,
    target: Target,
    moment: u64,
) -> Result<Moves, Fault>
    requires ready { MayAnswer limits moment (C.view calls.old) }
    requires among { AreAmong limits target }
    ensures caller { GoesOn (C.view calls.old) (C.view calls.new) result }
    ensures ok { IfOk result (λ moves. SumsUp Juggles moves_of (classes_named limits target) moves moment (C.view calls.old) (C.view calls.new)) }
    ensures err { IfErr result (λ e. BreaksAmong e (map Juggles (classes_named limits target)) moment (C.view calls.old) (C.view calls.new)) }
{
    let (first, count) = numbers_of(limits, target);
    let mut sums = Moves {
        reclaimed: 0,
        moved: 0,
    };
    for i in 0..count {
        let moves = calls.juggle(rt, ClassNo(first + i), moment)?;
        sums.reclaimed += moves.reclaimed;
        sums.moved += moves.moved;
    }
    Ok(sums)
}

/// Answers `%juggle`: makes a call for each class that it names, and adds the sums of the moves to the text.
/// After `NoMemory` or `HistoryFull` some first calls may have been made, and the old text still begins the new.
#[cold]
#[inline(never)]
pub fn answer_juggle<C: Calls>(
    rt: &impl Wait,
    limits: Limits,
    calls: &mut C,
    text: &mut ReplyText,
    target: Target,
    moment: u64,
) -> Result<(), Fault>
    requires ready { MayAnswer limits moment (C.view calls.old) }
    requires among { AreAmong limits target }
    ensures caller { GoesOn (C.view calls.old) (C.view calls.new) result }
    ensures ok { OnOk result (Answers limits (requests.Juggle target) moment (C.view calls.old) (C.view calls.new) text.old.items text.new.items) }
    ensures err { IfErr result (λ e. Fails e limits (requests.Juggle target) moment (C.view calls.old) (C.view calls.new)) }
    ensures front { Begins text.old.items text.new.items }
{
    let moves = juggle_target(rt, limits, calls, target, moment)?;
    text.push_moves(&moves)?;
    Ok(())
}
