//! `%crawl`, the crawler's directive: one call for each class that it names, and a text with the sum of their histograms.
ghost use Rattle.std.specs.Prelude.{map, IfErr, IfOk, OnOk};
ghost use Rattle.mc_proto.specs.{Answers.counts_of, Grammar.AreAmong};
ghost use Rattle.mc_proto.specs.declared.request.Request.TheVariants as requests;
ghost use Rattle.mc_script.specs.Calls.{Answers, Begins, BreaksAmong, Fails, GoesOn, MayAnswer, SumsUp};
ghost use Rattle.mc_script.specs.{Exchanges.Crawls, Script.classes_named};

use crate::calls::Calls;
use crate::target::numbers_of;
use mc_item::{ClassNo, Fault, Histogram};
use mc_proto::{Limits, ReplyText, Target};
use std::sync::Wait;

// Crawls the classes that the directive names in rising order, and returns the sum of their histograms.
pub(crate) fn crawl_target<C: Calls>(
    rt: &impl Wait,
    limits: Limits,
    calls: &mut C,
    target: Target,
    moment: u64,
) -> Result<Histogram, Fault>
    requires ready { MayAnswer limits moment (C.view calls.old) }
    requires among { AreAmong limits target }
    ensures caller { GoesOn (C.view calls.old) (C.view calls.new) result }
    ensures ok { IfOk result (λ histogram. SumsUp Crawls counts_of (classes_named limits target) histogram moment (C.view calls.old) (C.view calls.new)) }
    ensures err { IfErr result (λ e. BreaksAmong e (map Crawls (classes_named limits target)) moment (C.view calls.old) (C.view calls.new)) }
{
    let (first, count) = numbers_of(limits, target);
    let mut sum = Histogram::new();
    for i in 0..count {
        let histogram = calls.crawl(rt, ClassNo(first + i), moment)?;
        sum.add(&histogram);
    }
    Ok(sum)
}

/// Answers `%crawl`: makes a call for each class that it names, and adds the sum of the histograms to the text.
/// After `NoMemory` or `HistoryFull` some first calls may have been made, and the old text still begins the new.
#[cold]
#[inline(never)]
pub fn answer_crawl<C: Calls>(
    rt: &impl Wait,
    limits: Limits,
    calls: &mut C,
    text: &mut ReplyText,
    target: Target,
    moment: u64,
) -> Result<(), Fault>
    requires ready { MayAnswer limits moment (C.view calls.old) }
    requires among { AreAmong limits target }
    ensures caller { GoesOn (C.view calls.old) (C.view calls.new) result }
    ensures ok { OnOk result (Answers limits (requests.Crawl target) moment (C.view calls.old) (C.view calls.new) text.old.items text.new.items) }
    ensures err { IfErr result (λ e. Fails e limits (requests.Crawl target) moment (C.view calls.old) (C.view calls.new)) }
    ensures front { Begins text.old.items text.new.items }
{
    let histogram = crawl_target(rt, limits, calls, target, moment)?;
    text.push_histogram(&histogram)?;
    Ok(())
}
