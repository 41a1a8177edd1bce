//! Juggling: rounds of walks that go by one survey of the class.
ghost use Rattle.std.specs.Prelude.{◌≡◌, ◌≤◌, ◌+◌, ◌++◌, ◌∷◌, [], ◌⊎◌, List, false, IfOk, IfErr, OnOk, OnErr};
ghost use Rattle.mc_item.specs.declared.{config.Config.Config, lists.Seg.TheVariants.Temp, lists.Seg.TheVariants.Warm};
ghost use Rattle.mc_segment.specs.{ClassCalls.surveyed_event, ClassCalls.MayEnd, ClassState.with_room};
ghost use Rattle.mc_pull.specs.declared.{judge.Mode.TheVariants.Plain, looking.Answer.Answer};
ghost use Rattle.mc_pull.specs.{Growth.GainsFor, Pulled.none_pulled, Pulled.sum_of, Question.IsSurveyIn};
ghost use Rattle.mc_pull.specs.{Gates.LeavesGate, Gates.MayJuggle, Gates.MayWalkBy, Refusal.MayFailAlone};
ghost use Rattle.mc_pull.specs.{Rounds.rounds, Rounds.rounds_by, Rounds.Walks, Settled.class_with, Walker.walker_by};
ghost use Rattle.mc_pull.specs.Juggle.{juggling, survey_at, history_surveyed, PullsWarm, IsJuggleRound, IsJuggled, JugglesTemp};
ghost use Rattle.mc_pull.specs.Juggle.{JugglesRounds, IsJuggle};
ghost use Rattle.mc_pull.specs.Broken.{BreaksWalk, BreaksRound, BreaksJuggled, BreaksTemp, BreaksRounds, BreaksJuggle};

use crate::context::Context;
use crate::judge::Mode;
use crate::looking::Gate;
use crate::pulled::Pulled;
use crate::pulling::pull_tail;
use mc_item::{Fault, Moves, Seg};
use mc_segment::{ClassState, Survey};
use mc_stripe::Turn;

// The most rounds, and the most walks along TEMP (own).
const MOST_ROUNDS: u64 = 500;

// Pulls WARM, unless the walk along HOT did something.
fn pull_warm<G: Gate>(
    context: Context<'_>,
    class: &mut ClassState,
    survey: Survey,
    did: bool,
    gate: &mut G,
) -> Result<Pulled, Fault>
    requires survey { MayWalkBy G.serves context gate.old class.old survey }
    ensures walk { IfOk result (λ pulled. (xs : List Answer) × (G.answers gate.new ≡ G.answers gate.old ++ xs) × PullsWarm (rounds_by class.old
        context.entry) survey did class.old.history xs class.new.history pulled) }
    ensures err { OnErr result ((xs : List Answer) × (G.answers gate.new ≡ G.answers gate.old ++ xs) × (did ≡ false) × BreaksWalk (rounds_by class.old
        context.entry) Warm (Plain survey) class.old.history xs class.new.history) }
    ensures few { IfOk result (λ pulled. sum_of pulled ≤ 5) }
    ensures gains { GainsFor false class.old class.new }
    ensures fault { IfErr result (G.faults gate.new class.new) }
    ensures gate { LeavesGate G.references G.serves G.keeps context.entry.config.now (walker_by class.old context.entry) gate.old class.old gate.new class.new }
{
    if did {
        return Ok(Pulled::none());
    }
    let mode = Mode::Plain(survey);
    pull_tail(context, class, Seg::Warm, mode, gate)
}

// Makes one round by a survey: pulls HOT, WARM if that did nothing, and COLD.
fn juggle_round<G: Gate>(
    context: Context<'_>,
    class: &mut ClassState,
    survey: Survey,
    gate: &mut G,
) -> Result<Pulled, Fault>
    requires survey { MayWalkBy G.serves context gate.old class.old survey }
    ensures round { IfOk result (λ sum. (xs : List Answer) × (G.answers gate.new ≡ G.answers gate.old ++ xs) × IsJuggleRound (rounds_by class.old
        context.entry) survey class.old.history xs class.new.history sum) }
    ensures err { OnErr result ((xs : List Answer) × (G.answers gate.new ≡ G.answers gate.old ++ xs) × BreaksRound (rounds_by class.old context.entry) survey
        class.old.history xs class.new.history) }
    ensures few { IfOk result (λ sum. sum_of sum ≤ 15) }
    ensures gains { GainsFor false class.old class.new }
    ensures fault { IfErr result (G.faults gate.new class.new) }
    ensures gate { LeavesGate G.references G.serves G.keeps context.entry.config.now (walker_by class.old context.entry) gate.old class.old gate.new class.new }
{
    let mode = Mode::Plain(survey);
    let hot = pull_tail(context, class, Seg::Hot, mode, gate)?;
    let did = hot.did_something();
    let warm = pull_warm(context, class, survey, did, gate)?;
    let cold = pull_tail(context, class, Seg::Cold, mode, gate)?;
    Ok(hot.plus(warm).plus(cold))
}

// Makes up to 500 rounds by a survey, until one does nothing. What they count is added to `total`.
fn juggle_rounds<G: Gate>(
    context: Context<'_>,
    class: &mut ClassState,
    survey: Survey,
    total: Pulled,
    gate: &mut G,
) -> Result<Pulled, Fault>
    requires small { sum_of total ≤ 2500 }
    requires survey { MayWalkBy G.serves context gate.old class.old survey }
    ensures juggled { IfOk result (λ sum. (xs : List Answer) × (G.answers gate.new ≡ G.answers gate.old ++ xs) × IsJuggled (IsJuggleRound (rounds_by
        class.old context.entry) survey) (juggling class.old.history total) xs (juggling class.new.history sum)) }
    ensures err { OnErr result ((xs : List Answer) × (G.answers gate.new ≡ G.answers gate.old ++ xs) × BreaksJuggled (IsJuggleRound (rounds_by class.old
        context.entry) survey) (BreaksRound (rounds_by class.old context.entry) survey) (juggling class.old.history total) xs class.new.history) }
    ensures few { IfOk result (λ sum. sum_of sum ≤ 10000) }
    ensures gains { GainsFor false class.old class.new }
    ensures fault { IfErr result (G.faults gate.new class.new) }
    ensures gate { LeavesGate G.references G.serves G.keeps context.entry.config.now (walker_by class.old context.entry) gate.old class.old gate.new class.new }
{
    let mut sum = total;
    let mut left: u64 = MOST_ROUNDS;
    'rounds: while left > 0 {
        let made = juggle_round(context, class, survey, gate)?;
        sum = sum.plus(made);
        if !made.did_something() {
            break;
        }
        left -= 1;
    }
    Ok(sum)
}

// Makes up to 500 walks along TEMP by a survey, until one does nothing.
fn temp_rounds<G: Gate>(
    context: Context<'_>,
    class: &mut ClassState,
    survey: Survey,
    gate: &mut G,
) -> Result<Pulled, Fault>
    requires survey { MayWalkBy G.serves context gate.old class.old survey }
    ensures juggled { IfOk result (λ sum. (xs : List Answer) × (G.answers gate.new ≡ G.answers gate.old ++ xs) × IsJuggled (Walks (rounds_by class.old
        context.entry) Temp (Plain survey)) (juggling class.old.history none_pulled) xs (juggling class.new.history sum)) }
    ensures err { OnErr result ((xs : List Answer) × (G.answers gate.new ≡ G.answers gate.old ++ xs) × BreaksJuggled (Walks (rounds_by class.old
        context.entry) Temp (Plain survey)) (BreaksWalk (rounds_by class.old context.entry) Temp (Plain survey)) (juggling class.old.history none_pulled) xs
        class.new.history) }
    ensures few { IfOk result (λ sum. sum_of sum ≤ 2500) }
    ensures gains { GainsFor false class.old class.new }
    ensures fault { IfErr result (G.faults gate.new class.new) }
    ensures gate { LeavesGate G.references G.serves G.keeps context.entry.config.now (walker_by class.old context.entry) gate.old class.old gate.new class.new }
{
    let mut sum = Pulled::none();
    let mut left: u64 = MOST_ROUNDS;
    'rounds: while left > 0 {
        let mode = Mode::Plain(survey);
        let made = pull_tail(context, class, Seg::Temp, mode, gate)?;
        sum = sum.plus(made);
        if !made.did_something() {
            break;
        }
        left -= 1;
    }
    Ok(sum)
}

// Makes the survey that later walks of the call name.
fn survey_class(class: &mut ClassState, turn: Turn) -> Result<Survey, Fault>
    ensures survey { (config : Config) → IfOk result (λ survey. survey ≡ survey_at (rounds class.old turn.who turn.moment config) class.old.history) }
    ensures noted { IfOk result (λ survey. IsSurveyIn class.new.history turn.who turn.moment survey) }
    ensures history { (config : Config) → OnOk result (class.new.history ≡ history_surveyed (rounds class.old turn.who turn.moment config) class.old.history) }
    ensures event { OnOk result (class.new ≡ class_with class.old (surveyed_event class.old turn.who turn.moment ∷ []) class.new.room) }
    ensures err { OnErr result (class.new ≡ with_room class.old class.new.room) }
    ensures refusal { MayEnd class.old result }
    ensures fault { IfErr result (MayFailAlone class.new) }
    ensures gains { GainsFor false class.old class.new }
{
    class.survey(turn.who, turn.moment)
}

// TEMP's part of juggling: if TEMP is in use, a survey, and walks by it.
fn juggle_temp<G: Gate>(
    context: Context<'_>,
    class: &mut ClassState,
    gate: &mut G,
) -> Result<Pulled, Fault>
    requires gate { MayJuggle G.serves G.keeps context gate.old class.old }
    ensures temp { IfOk result (λ sum. (xs : List Answer) × (G.answers gate.new ≡ G.answers gate.old ++ xs) × JugglesTemp (rounds_by class.old context.entry)
        context.entry.config.now.temp class.old.history xs (juggling class.new.history sum)) }
    ensures err { IfErr result (λ fault. (xs : List Answer) × (G.answers gate.new ≡ G.answers gate.old ++ xs) × BreaksTemp (rounds_by class.old
        context.entry) (G.faults gate.new class.new) fault context.entry.config.now.temp class.old.history xs class.new.history) }
    ensures few { IfOk result (λ sum. sum_of sum ≤ 2500) }
    ensures gains { GainsFor false class.old class.new }
    ensures fault { IfErr result (λ fault. G.faults gate.new class.new fault ⊎ MayFailAlone class.new fault) }
    ensures gate { LeavesGate G.references G.serves G.keeps context.entry.config.now (walker_by class.old context.entry) gate.old class.old gate.new class.new }
{
    if !context.config.temp {
        return Ok(Pulled::none());
    }
    let survey = survey_class(class, context.turn)?;
    temp_rounds(context, class, survey, gate)
}

// The other part of juggling: a survey, and rounds by it. What they count is added to `total`.
fn juggle_rest<G: Gate>(
    context: Context<'_>,
    class: &mut ClassState,
    total: Pulled,
    gate: &mut G,
) -> Result<Pulled, Fault>
    requires small { sum_of total ≤ 2500 }
    requires gate { MayJuggle G.serves G.keeps context gate.old class.old }
    ensures rest { IfOk result (λ sum. (xs : List Answer) × (G.answers gate.new ≡ G.answers gate.old ++ xs) × JugglesRounds (rounds_by class.old
        context.entry) (juggling class.old.history total) xs (juggling class.new.history sum)) }
    ensures err { IfErr result (λ fault. (xs : List Answer) × (G.answers gate.new ≡ G.answers gate.old ++ xs) × BreaksRounds (rounds_by class.old
        context.entry) (G.faults gate.new class.new) fault (juggling class.old.history total) xs class.new.history) }
    ensures few { IfOk result (λ sum. sum_of sum ≤ 10000) }
    ensures gains { GainsFor false class.old class.new }
    ensures fault { IfErr result (λ fault. G.faults gate.new class.new fault ⊎ MayFailAlone class.new fault) }
    ensures gate { LeavesGate G.references G.serves G.keeps context.entry.config.now (walker_by class.old context.entry) gate.old class.old gate.new class.new }
{
    let survey = survey_class(class, context.turn)?;
    juggle_rounds(context, class, survey, total, gate)
}

/// Juggles a class, and returns how many entries it reclaimed and moved, at most 10,000 together. If TEMP is in use, a survey is
/// made, and TEMP is pulled by it up to 500 times, until a walk does nothing. Then a second survey is made, and up to 500 rounds
/// go by it, until one does nothing. A round pulls HOT, then WARM if that did nothing, then COLD.
/// The gate must serve the class for this call, also after a survey of the call and with any room. What it `keeps` must outlast
/// such a survey.
/// Errors: the gate's faults, and those of `ClassState::survey`. Events made so far remain.
pub fn juggle<G: Gate>(
    context: Context<'_>,
    class: &mut ClassState,
    gate: &mut G,
) -> Result<Moves, Fault>
    requires gate { MayJuggle G.serves G.keeps context gate.old class.old }
    ensures juggle { IfOk result (λ moves. (xs : List Answer) × (G.answers gate.new ≡ G.answers gate.old ++ xs) × IsJuggle (rounds_by class.old
        context.entry) class.old.history xs class.new.history moves) }
    ensures err { IfErr result (λ fault. (xs : List Answer) × (G.answers gate.new ≡ G.answers gate.old ++ xs) × BreaksJuggle (rounds_by class.old
        context.entry) (G.faults gate.new class.new) fault class.old.history xs class.new.history) }
    ensures few { IfOk result (λ moves. moves.reclaimed + moves.moved ≤ 10000) }
    ensures gains { GainsFor false class.old class.new }
    ensures fault { IfErr result (λ fault. G.faults gate.new class.new fault ⊎ MayFailAlone class.new fault) }
    ensures gate { LeavesGate G.references G.serves G.keeps context.entry.config.now (walker_by class.old context.entry) gate.old class.old gate.new class.new }
{
    let before = juggle_temp(context, class, gate)?;
    let sum = juggle_rest(context, class, before, gate)?;
    Ok(Moves {
        reclaimed: sum.reclaimed,
        moved: sum.moved,
    })
}
