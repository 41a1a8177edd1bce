//! Makes the plan that the options ask for.
ghost use Rattle.std.specs.Prelude.{◌≡◌, ℕ, List, IfOk, Err, Option, None, MatchOption};
ghost use Rattle.std.specs.{Bool.Decides, Option.option_copied, Option.option_map};
ghost use Rattle.mc_item.specs.Config.{fault_of};
ghost use Rattle.mc_options.specs.Asked.{AreMoments, AreMomentsNamed, AreNamed, IsBadList, IsFault, IsListOf, IsNoList, NamesNoMoments, NamesNone, asked};
ghost use Rattle.mc_options.specs.Asked.{fault_number};
ghost use Rattle.mc_options.specs.declared.plans.PlanFault.TheVariants as faults;

use mc_item::{Config, ConfigFault, NoMemory, Numbers, number_of};
use std::alloc::Global;

// How many times `--upkeep` may name.
const MOST_MOMENTS: usize = 1000;

// The latest time (moment) of upkeep, in seconds.
const MAX_MOMENT: u64 = 1 << 62;

/// What the command line asks for: a store's configuration, the times of upkeep, and whether the input is one script that is
/// answered as it comes.
#[derive(Drop)]
pub struct Plan {
    pub config: Config,
    pub upkeep: Numbers,
    pub follow: bool,
}

/// What the options ask for, except `--sizes` and `--upkeep`. `None`: the option is absent.
#[derive(Clone, Copy, Debug, PartialEq, Eq)]
pub struct Options {
    /// How many stripes the store has; 1 if absent.
    pub stripes: Option<u32>,
    /// How many chunks each class has; 1,024 if absent.
    pub chunks: Option<u64>,
    /// Whether items that expire soon begin in TEMP.
    pub temp: bool,
    /// An item begins in TEMP if it expires within this many seconds; 61 if absent.
    pub temp_ttl: Option<u64>,
    /// How many events a history may count; 1,048,576 if absent.
    pub events: Option<u64>,
    /// Whether the input is one script that is answered as it comes.
    pub follow: bool,
}

/// Why no plan is made.
#[derive(Clone, Copy, Debug, PartialEq, Eq)]
pub enum PlanFault {
    /// A list isn't decimal numbers below 2^64 with one comma between two, or upkeep has more than 1,000 times or one above 2^62.
    List,
    /// The configuration has the fault of this number: 1 stripes, 2 sizes, 3 chunks, 4 percents, 5 factors, 6 callers, 7 events.
    Configuration(u8),
    /// Memory was refused.
    NoMemory,
}

impl From<NoMemory> for PlanFault {
    ghost from_gives = { λ _ e. e ≡ faults.NoMemory };

    fn from(_e: NoMemory) -> PlanFault {
        PlanFault::NoMemory
    }
}

// The numbers of a list with one comma between two; `None` if the text isn't such a list.
fn list_in(alloc: Global, text: &[u8]) -> Result<Option<Vec<u64>>, NoMemory>
    ensures { IfOk result (λ list. MatchOption list (IsNoList text.now) (λ numbers. IsListOf text.now numbers.items)) }
{
    let mut numbers = Vec::new(alloc);
    for digits in text.split(|byte| *byte == b',') {
        match number_of(digits) {
            Some(number) => numbers.push(number)?,
            None => {
                return Ok(None);
            }
        }
    }
    Ok(Some(numbers))
}

// The fault's number, in the order in which faults are checked.
fn fault_number(fault: ConfigFault) -> u8
    ensures { result ≡ fault_number fault }
{
    match fault {
        ConfigFault::Stripes => 1,
        ConfigFault::Sizes => 2,
        ConfigFault::Chunks => 3,
        ConfigFault::Percent => 4,
        ConfigFault::Factor => 5,
        ConfigFault::Callers => 6,
        ConfigFault::Events => 7,
    }
}

// The numbers of an option's list, if the option is given.
fn named(alloc: Global, text: Option<&[u8]>) -> Result<Option<Vec<u64>>, PlanFault>
    ensures ok { IfOk result (λ numbers. AreNamed (option_copied text.entry) (option_map (λ v. v.items) numbers)) }
    ensures list { result ≡ Err faults.List → NamesNone (option_copied text.entry) }
    ensures sound { (n : ℕ) → result ≡ Err (faults.Configuration n) → ⊥ }
{
    let Some(text) = text else {
        return Ok(None);
    };
    match list_in(alloc, text)? {
        Some(numbers) => Ok(Some(numbers)),
        None => Err(PlanFault::List),
    }
}

// Whether these may be the times of upkeep.
fn are_moments(numbers: &[u64]) -> bool
    ensures { Decides result (AreMoments numbers.now) }
{
    numbers.len() <= MOST_MOMENTS && numbers.iter().all(|moment| *moment <= MAX_MOMENT)
}

// The times that `--upkeep` names; none if it isn't given.
fn moments_named(alloc: Global, text: Option<&[u8]>) -> Result<Numbers, PlanFault>
    ensures ok { IfOk result (λ moments. AreMomentsNamed (option_copied text.entry) moments) }
    ensures list { result ≡ Err faults.List → NamesNoMoments (option_copied text.entry) }
    ensures sound { (n : ℕ) → result ≡ Err (faults.Configuration n) → ⊥ }
{
    match named(alloc, text)? {
        None => Ok(Numbers::from_vec(Vec::new(alloc))),
        Some(moments) => {
            if are_moments(&moments) {
                Ok(Numbers::from_vec(moments))
            } else {
                Err(PlanFault::List)
            }
        }
    }
}

// The configuration with these sizes and 1,024 chunks for each, if sizes are given.
fn with_sizes(alloc: Global, given: Config, sizes: Option<Vec<u64>>) -> Result<Config, NoMemory>
    ensures { IfOk result (λ config. config ≡ Rattle.mc_options.specs.Asked.with_sizes (option_map (λ v. v.items) sizes) given) }
{
    let Some(sizes) = sizes else {
        return Ok(given);
    };
    let mut config = given;
    config.chunks = Numbers::from_vec(vec![in alloc; 1024; sizes.len()]?);
    config.sizes = Numbers::from_vec(sizes);
    Ok(config)
}

// The configuration with this many chunks for every class, if a number is given.
fn with_chunks(alloc: Global, given: Config, chunks: Option<u64>) -> Result<Config, NoMemory>
    ensures { IfOk result (λ config. config ≡ Rattle.mc_options.specs.Asked.with_chunks chunks given) }
{
    let Some(limit) = chunks else {
        return Ok(given);
    };
    let mut config = given;
    let classes = config.sizes.as_slice().len();
    config.chunks = Numbers::from_vec(vec![in alloc; limit; classes]?);
    Ok(config)
}

// The configuration that is asked for.
fn config_of(alloc: Global, sizes: Option<Vec<u64>>, options: Options) -> Result<Config, NoMemory>
    ensures { IfOk result (λ config. config ≡ asked (option_map (λ v. v.items) sizes) options) }
{
    let mut sized = with_sizes(alloc, Config::usual(alloc, 3)?, sizes)?;
    sized.stripes = options.stripes.unwrap_or(sized.stripes);
    let mut config = with_chunks(alloc, sized, options.chunks)?;
    config.temp = options.temp;
    config.keeps_events = false;
    config.temp_ttl = options.temp_ttl.unwrap_or(config.temp_ttl);
    config.max_events = options.events.unwrap_or(config.max_events);
    Ok(config)
}

// The plan of a configuration, of times of upkeep and of how the input is answered, if the configuration has no fault.
fn plan_of(config: Config, upkeep: Numbers, follow: bool) -> Result<Plan, PlanFault>
    ensures config { IfOk result (λ plan. (plan.config ≡ config) × (fault_of config ≡ None)) }
    ensures upkeep { IfOk result (λ plan. plan.upkeep ≡ upkeep) }
    ensures follow { IfOk result (λ plan. plan.follow ≡ follow) }
    ensures list { result ≡ Err faults.List → ⊥ }
    ensures fault { (n : ℕ) → result ≡ Err (faults.Configuration n) → IsFault n config }
{
    match config.check() {
        Ok(config) => Ok(Plan {
            config,
            upkeep,
            follow,
        }),
        Err(fault) => Err(PlanFault::Configuration(fault_number(fault))),
    }
}

/// Makes the plan that the options ask for. It keeps no events. Otherwise it is, without options, the usual configuration, of one
/// stripe and 3 callers, no upkeep, and an input that is answered once it has ended. `sizes` has the slab classes' sizes in bytes,
/// such as "96,1024", instead of the usual 43. `upkeep` has the times for which maintainer and crawler work: at most 1,000, each at
/// most 2^62. Both are decimal numbers with one comma between two, and nothing else. The other options are in `options`. If its
/// `chunks` are absent, each class has 1,024.
///
/// *Errors*: `List` if a text is no such list, whatever the other options are. Otherwise `Configuration` if the sizes or a number
/// are out of range. `NoMemory` if memory is refused.
pub fn plan_for(
    alloc: Global,
    sizes: Option<&[u8]>,
    upkeep: Option<&[u8]>,
    options: Options,
) -> Result<Plan, PlanFault>
    ensures ok { IfOk result (λ plan. (numbers : Option (List ℕ)) × AreNamed (option_copied sizes.entry) numbers × (plan.config ≡ asked numbers options)
        × (fault_of plan.config ≡ None)
        × AreMomentsNamed (option_copied upkeep.entry) plan.upkeep × (plan.follow ≡ options.follow)) }
    ensures list { result ≡ Err faults.List → IsBadList (option_copied sizes.entry) (option_copied upkeep.entry) }
    ensures configuration { (n : ℕ) → result ≡ Err (faults.Configuration n)
        → (numbers : Option (List ℕ)) × (moments : List ℕ) × AreNamed (option_copied sizes.entry) numbers × AreMomentsNamed (option_copied upkeep.entry) moments
        × IsFault n (asked numbers options) }
{
    let numbers = named(alloc, sizes)?;
    let moments = moments_named(alloc, upkeep)?;
    let config = config_of(alloc, numbers, options)?;
    plan_of(config, moments, options.follow)
}
