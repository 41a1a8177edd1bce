//! Makes the events that leave the lists as they are: surveys and refusals.
ghost use Rattle.std.specs.Prelude.{◌≡◌, ◌≤◌, ◌+◌, Some, false, length, slice_get, IfOk, OnOk, OnErr};
ghost use Rattle.mc_rule.specs.{Lists.lists_of, Segment.total_of, Segment.cold_age_of};
ghost use Rattle.mc_segment.specs.ClassCalls.{survey_of, surveyed_event, refused_event, MayCome, Makes, Stays, MayEnd, ChangesLists};

use crate::shown::push_whole;
use crate::state::ClassState;
use mc_item::{ClassEvent, Fault, Refused, Seg, Surveyed, Who};

/// A survey: the place of its event in the history, the bytes of HOT, WARM and COLD together, and the age of COLD's tail in
/// seconds. That age is 0 if COLD is empty.
#[derive(Clone, Copy, Debug, PartialEq, Eq)]
pub struct Survey {
    pub place: u64,
    pub total: u64,
    pub cold_age: u64,
}

impl ClassState {
    // Notes an event that leaves the lists and the limit of chunks as they are, and returns its place in the history.
    fn note(&mut self, event: ClassEvent) -> Result<u64, Fault>
        requires lawful { MayCome self.old event }
        requires stays { ChangesLists (lists_of self.old.history) (lists_of self.old.history) (λ _. false) event }
        ensures place { IfOk result (λ place. place ≡ length self.old.history) }
        ensures noted { IfOk result (λ place. slice_get self.new.history place ≡ Some event) }
        ensures ok { OnOk result (Makes self.old self.new event) }
        ensures err { OnErr result (Stays self.old self.new) }
        ensures refusal { MayEnd self.old result }
        ensures room { self.old.room ≤ self.new.room + 1 }
    {
        if !self.has_places(1) {
            return Err(Fault::HistoryFull);
        }
        self.history.reserve(1)?;
        let place = self.history.len() as u64;
        push_whole(&mut self.history, event);
        Ok(place)
    }

    // The bytes of HOT, WARM and COLD together.
    fn total(&self) -> u64
        ensures { result ≡ total_of (lists_of self.now.history) }
    {
        self.bytes(Seg::Hot) + self.bytes(Seg::Warm) + self.bytes(Seg::Cold)
    }

    // The age of COLD's tail in seconds, or 0 if COLD is empty.
    fn cold_age(&self, moment: u64) -> u64
        ensures { result ≡ cold_age_of moment (lists_of self.now.history) }
    {
        match self.from_tail(Seg::Cold, 0) {
            None => 0,
            Some(entry) => moment.saturating_sub(entry.time),
        }
    }

    /// Surveys the class at a moment, which is in seconds, and notes the survey as an event. Returns the survey with the event's
    /// place in the history. Errors: as for `unlink`.
    pub fn survey(&mut self, who: Who, moment: u64) -> Result<Survey, Fault>
        ensures value { IfOk result (λ survey. survey ≡ survey_of self.old moment) }
        ensures noted { IfOk result (λ survey. slice_get self.new.history survey.place ≡ Some (surveyed_event self.old who moment)) }
        ensures ok { OnOk result (Makes self.old self.new (surveyed_event self.old who moment)) }
        ensures err { OnErr result (Stays self.old self.new) }
        ensures refusal { MayEnd self.old result }
        ensures room { self.old.room ≤ self.new.room + 1 }
    {
        let total = self.total();
        let cold_age = self.cold_age(moment);
        let event = ClassEvent::Surveyed(Surveyed {
            who,
            moment,
            total,
            cold_age,
        });
        let place = self.note(event)?;
        Ok(Survey {
            place,
            total,
            cold_age,
        })
    }

    /// Notes that no chunk was found in a full class, and returns the event's place in the history. Errors: as for `unlink`.
    pub fn refuse(&mut self, who: Who) -> Result<u64, Fault>
        requires { MayCome self.old (refused_event who) }
        ensures place { IfOk result (λ place. place ≡ length self.old.history) }
        ensures noted { IfOk result (λ place. slice_get self.new.history place ≡ Some (refused_event who)) }
        ensures ok { OnOk result (Makes self.old self.new (refused_event who)) }
        ensures err { OnErr result (Stays self.old self.new) }
        ensures refusal { MayEnd self.old result }
        ensures room { self.old.room ≤ self.new.room + 1 }
    {
        self.note(ClassEvent::Refused(Refused { who }))
    }
}
