//! Reads the words of the command line.
ghost use Rattle.std.specs.Prelude.{◌≡◌, ◌^◌, ℕ, List, [], IfOk, Err, Option, codes, false};
ghost use Rattle.mc_item.specs.Config.{fault_of};
ghost use Rattle.clap.specs.Walk.{texts};
ghost use Rattle.clap.specs.Words.{HasKind, app_of, found_of, one_text, rule_of};
ghost use Rattle.clap.specs.declared.error.Error.{Error as Refusal};
ghost use Rattle.mc_options.specs.Asked.{AreAsked, AreFound, IsBadList, IsFault, IsNumberRead, IsYesRead, asked, words_fault_of};
ghost use Rattle.mc_options.specs.Words.{follow_rule, mcseg, number_rule, refusals, sizes_in, sizes_rule, stripes_rule, temp_rule, upkeep_in, upkeep_rule};
ghost use Rattle.mc_options.specs.declared.plans.Options.{Options};
ghost use Rattle.mc_options.specs.declared.words.WordsFault.TheVariants as words_faults;

use crate::help::{ABOUT, AFTER, VERSION};
use crate::plans::{Options, Plan, PlanFault, plan_for};
use clap::{Arg, ArgAction, ArgMatches, Command, Error};
use std::alloc::{AllocError, Global};

/// What is wrong with the words of the command line.
#[derive(Drop)]
pub enum WordsFault {
    /// `clap` refused the words or ran out of memory, or has the help or the version to show.
    Words(Error),
    /// A list isn't decimal numbers below 2^64 with one comma between two, or upkeep has more than 1,000 times or one above 2^62.
    List,
    /// The configuration has the fault of this number, as in `PlanFault`.
    Configuration(u8),
    /// Memory was refused.
    NoMemory,
}

impl From<AllocError> for WordsFault {
    ghost from_gives = { λ _ e. e ≡ words_faults.NoMemory };

    fn from(_e: AllocError) -> WordsFault {
        WordsFault::NoMemory
    }
}

impl From<Error> for WordsFault {
    ghost from_gives = { λ error e. e ≡ words_faults.Words error };

    fn from(error: Error) -> WordsFault {
        WordsFault::Words(error)
    }
}

impl From<PlanFault> for WordsFault {
    ghost from_gives = { λ fault e. e ≡ words_fault_of fault };

    fn from(fault: PlanFault) -> WordsFault {
        match fault {
            PlanFault::List => WordsFault::List,
            PlanFault::Configuration(number) => WordsFault::Configuration(number),
            PlanFault::NoMemory => WordsFault::NoMemory,
        }
    }
}

fn stripes_option<'a>(alloc: Global) -> Arg<'a>
    ensures rule { rule_of result ≡ stripes_rule }
    ensures local { result.global ≡ false }
{
    Arg::new(alloc, "stripes")
        .long("stripes")
        .action(ArgAction::Set)
        .value_parser(clap::value_parser!(u32))
        .value_name("n")
        .help("how many stripes the store has: 1, 2, 4, 8, 16, 32 or 64{n}[default: 1]")
}

fn sizes_option<'a>(alloc: Global) -> Arg<'a>
    ensures rule { rule_of result ≡ sizes_rule }
    ensures local { result.global ≡ false }
{
    Arg::new(alloc, "sizes")
        .long("sizes")
        .action(ArgAction::Set)
        .value_name("n,n,..")
        .help(
            "the sizes of the slab classes in bytes, rising, each from 65{n}to 1,048,576 [default: 43 sizes from 96 to 1,048,576]",
        )
}

fn upkeep_option<'a>(alloc: Global) -> Arg<'a>
    ensures rule { rule_of result ≡ upkeep_rule }
    ensures local { result.global ≡ false }
{
    Arg::new(alloc, "upkeep")
        .long("upkeep")
        .action(ArgAction::Set)
        .value_name("m,m,..")
        .help(
            "the times at which the maintainer juggles and the crawler crawls{n}every slab class, beside the scripts: at most 1,000, each at most{n}2^62 [default: none]",
        )
}

// An option of this name, which takes one number below 2^64.
fn number_option<'a>(alloc: Global, name: &'a str, help: &'a str) -> Arg<'a>
    ensures rule { rule_of result ≡ number_rule name.now }
    ensures local { result.global ≡ false }
{
    Arg::new(alloc, name)
        .long(name)
        .action(ArgAction::Set)
        .value_parser(clap::value_parser!(u64))
        .value_name("n")
        .help(help)
}

fn temp_option<'a>(alloc: Global) -> Arg<'a>
    ensures rule { rule_of result ≡ temp_rule }
    ensures local { result.global ≡ false }
{
    Arg::new(alloc, "temp")
        .long("temp")
        .action(ArgAction::SetTrue)
        .value_parser(clap::value_parser!(bool))
        .help("items that expire within the seconds of --temp-ttl begin in TEMP,{n}and not in HOT")
}

fn follow_option<'a>(alloc: Global) -> Arg<'a>
    ensures rule { rule_of result ≡ follow_rule }
    ensures local { result.global ≡ false }
{
    Arg::new(alloc, "follow")
        .long("follow")
        .action(ArgAction::SetTrue)
        .value_parser(clap::value_parser!(bool))
        .help(
            "answers each request at once, and not when the input has ended;{n}the input is then one script",
        )
}

// The command `mcseg` with all its options.
fn command_of<'a>(alloc: Global) -> Result<Command<'a>, AllocError>
    ensures { IfOk result (λ command. app_of command ≡ mcseg) }
{
    let chunks = "how many chunks every class has, from 1 to 1,048,576{n}[default: 1,024]";
    let temp_ttl =
        "within how many seconds an item of TEMP expires, from 1 to{n}2,592,000 [default: 61]";
    let events =
        "how many events a history may count, from 16 to{n}4,294,967,296 [default: 1,048,576]";
    Command::new(alloc, "mcseg")
        .version(VERSION)
        .about(ABOUT)
        .after_help(AFTER)
        .arg(stripes_option(alloc))?
        .arg(sizes_option(alloc))?
        .arg(number_option(alloc, "chunks", chunks))?
        .arg(temp_option(alloc))?
        .arg(number_option(alloc, "temp-ttl", temp_ttl))?
        .arg(number_option(alloc, "events", events))?
        .arg(upkeep_option(alloc))?
        .arg(follow_option(alloc))
}

// The number given to `--stripes`, if any.
fn stripes_at(matches: &ArgMatches) -> Option<u32>
    ensures { IsNumberRead (2 ^ 32) (one_text (found_of matches.now) (codes "stripes")) result }
{
    matches.get_one::<u32>("stripes")
}

// The number given to the option of this name, if any.
fn number_at(matches: &ArgMatches, name: &str) -> Option<u64>
    ensures { IsNumberRead (2 ^ 64) (one_text (found_of matches.now) name.now) result }
{
    matches.get_one::<u64>(name)
}

// Whether `--temp` was given.
fn temp_at(matches: &ArgMatches) -> bool
    ensures { IsYesRead (one_text (found_of matches.now) (codes "temp")) result }
{
    matches.get_flag("temp")
}

// Whether `--follow` was given.
fn follow_at(matches: &ArgMatches) -> bool
    ensures { IsYesRead (one_text (found_of matches.now) (codes "follow")) result }
{
    matches.get_flag("follow")
}

// What the options ask for, except `--sizes` and `--upkeep`.
fn options_of(matches: &ArgMatches) -> Options
    ensures { AreFound (found_of matches.now) result }
{
    Options {
        stripes: stripes_at(matches),
        chunks: number_at(matches, "chunks"),
        temp: temp_at(matches),
        temp_ttl: number_at(matches, "temp-ttl"),
        events: number_at(matches, "events"),
        follow: follow_at(matches),
    }
}

/// Reads the words of the command line, the first of which is the program's name, and makes the plan that they ask for. It keeps
/// no events. Otherwise it is the usual configuration, no upkeep and an input that is answered once it has ended, changed as the
/// options say.
///
/// *Errors*: `Words` if `clap` refuses the words, has the help or the version to show, or runs out of memory. Otherwise `List` if
/// the sizes or the times of upkeep are no list as `plan_for` takes it. Otherwise `Configuration` if the sizes or a number are
/// out of range. `NoMemory` if memory is refused.
pub fn read_words(alloc: Global, words: &[&str]) -> Result<Plan, WordsFault>
    ensures config { IfOk result (λ plan. fault_of plan.config ≡ None) }
    ensures taken { IfOk result (λ plan. refusals (texts words.now) ≡ []) }
    ensures asked { IfOk result (λ plan. (sizes : Option (List ℕ)) × (options : Options)
        × AreAsked (texts words.now) sizes plan.upkeep options × (plan.config ≡ asked sizes options) × (plan.follow ≡ options.follow)) }
    ensures words { (error : Refusal) → result ≡ Err (words_faults.Words error) → HasKind (refusals (texts words.now)) error }
    ensures list { result ≡ Err words_faults.List
        → (refusals (texts words.now) ≡ []) × IsBadList (sizes_in (texts words.now)) (upkeep_in (texts words.now)) }
    ensures configuration { (n : ℕ) → result ≡ Err (words_faults.Configuration n) → (refusals (texts words.now) ≡ [])
        × ((sizes : Option (List ℕ)) × (upkeep : List ℕ) × (options : Options) × AreAsked (texts words.now) sizes upkeep options
        × IsFault n (asked sizes options)) }
{
    let matches = command_of(alloc)?.try_get_matches_from(words)?;
    let sizes = matches.get_str("sizes").map(|text| text.as_bytes());
    let upkeep = matches.get_str("upkeep").map(|text| text.as_bytes());
    let options = options_of(&matches);
    Ok(plan_for(alloc, sizes, upkeep, options)?)
}
