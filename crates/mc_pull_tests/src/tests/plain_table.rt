//! The table of the segments as a plain program: the first row that fits, and the outcome that it names.
use mc_item::Seg;
use mc_pull::Done;
use mc_segment::Survey;

/// How a tail is judged: by a survey, to be taken from COLD, or to be forced out of HOT.
#[derive(Clone, Copy, Debug, PartialEq, Eq)]
pub enum Way {
    Plain,
    Evict,
    Force,
}

/// The rows of the table, and an entry whose item is gone. A move to COLD by a survey is told apart by its cause, and
/// what a survey leaves there by whether its bytes are just the limit, or its age is just the greatest.
#[derive(Clone, Copy, Debug, PartialEq, Eq)]
pub enum Row {
    Stranger,
    Dead,
    HotActive,
    HotForced,
    Over,
    Old,
    Kept,
    AtLimit,
    AtAge,
    WarmActive,
    ColdTaken,
    ColdActive,
    ColdKept,
    TempAlive,
}

/// What is known of an item: the moment at which it dies, its hits (of which two make it active), and whether the stripe has it.
#[derive(Clone, Copy)]
pub struct Known {
    pub dies: Option<u64>,
    pub hits: u64,
    pub held: bool,
}

impl Known {
    /// Whether the item is dead at a moment.
    pub(super) fn is_dead(self, moment: u64) -> bool {
        match self.dies {
            Some(dies) => dies <= moment,
            None => false,
        }
    }
}

/// The shares of HOT and WARM, in percent of the bytes and in hundredths of the age.
#[derive(Clone, Copy)]
pub struct Shares {
    pub hot_percent: u64,
    pub warm_percent: u64,
    pub hot_factor: u64,
    pub warm_factor: u64,
}

// The row of an entry of HOT or WARM that is alive and not active, by a survey.
fn due_row(bytes: u128, limit: u128, age: u128, greatest_age: u128) -> Row {
    if bytes > limit {
        Row::Over
    } else if age > greatest_age {
        Row::Old
    } else if bytes == limit {
        Row::AtLimit
    } else if age == greatest_age && age > 0 {
        Row::AtAge
    } else {
        Row::Kept
    }
}

/// What becomes of an entry of HOT or WARM that is alive and not active, by its list's bytes, its age and a survey.
pub(super) fn due_of(seg: Seg, bytes: u64, age: u64, survey: Survey, shares: Shares) -> Row {
    let (percent, factor) = match seg {
        Seg::Hot => (shares.hot_percent, shares.hot_factor),
        _ => (shares.warm_percent, shares.warm_factor),
    };
    let limit = survey.total as u128 * percent as u128 / 100;
    let greatest_age = survey.cold_age as u128 * factor as u128 / 100;
    due_row(bytes as u128, limit, age as u128, greatest_age)
}

/// The first row that fits an entry whose item is there, if a list is judged in this way at all. `due` is what becomes of an
/// entry of HOT or WARM that is not active.
pub(super) fn row_of(seg: Seg, way: Way, dead: bool, active: bool, due: Row) -> Option<Row> {
    match (seg, way, dead, active) {
        (_, _, true, _) => Some(Row::Dead),
        (Seg::Hot, _, _, true) => Some(Row::HotActive),
        (Seg::Hot, Way::Force, _, _) => Some(Row::HotForced),
        (Seg::Hot | Seg::Warm, Way::Plain, _, false) => Some(due),
        (Seg::Warm, Way::Plain, _, true) => Some(Row::WarmActive),
        (Seg::Cold, Way::Evict, _, _) => Some(Row::ColdTaken),
        (Seg::Cold, Way::Plain, _, true) => Some(Row::ColdActive),
        (Seg::Cold, Way::Plain, _, false) => Some(Row::ColdKept),
        (Seg::Temp, Way::Plain, _, _) => Some(Row::TempAlive),
        _ => None,
    }
}

/// The outcome that a row names.
pub(super) fn done_of(row: Row) -> Done {
    match row {
        Row::Stranger => Done::Stranger,
        Row::Dead => Done::Reclaimed,
        Row::HotActive | Row::ColdActive => Done::ToWarm,
        Row::HotForced | Row::Over | Row::Old => Done::ToCold,
        Row::WarmActive => Done::WithinWarm,
        Row::ColdTaken => Done::Evicted,
        Row::Kept | Row::AtLimit | Row::AtAge => Done::Stayed,
        Row::ColdKept | Row::TempAlive => Done::Stayed,
    }
}
