//! What the rows of scripts do, and what they tell.
ghost use Rattle.std.specs.Prelude.{◌≡◌, ◌<◌, ◌≤◌, length};

use super::asking::{self, Ask, command_of, text_of_figures, text_of_reply, text_of_value};
use super::opening::Shape;
use super::running::{Act, Row};
use mc_item::{ClassNo, Reply, StripeNo, Who};
use mc_store::{LockNo, Named, Pass, Placed, Store};
use std::alloc::Global;
use std::process::Abort;
use std::sync::Wait;

// A number as a text.
fn digits<R: Abort>(rt: &R, alloc: Global, number: u64) -> String {
    number.to_string(alloc).expect(rt, "digits")
}

// A caller and a turn as a text.
fn turn_of<R: Abort>(rt: &R, alloc: Global, who: Who) -> String {
    format!(in alloc; "{} {}", who.caller, who.turn).expect(rt, "a text")
}

// The places of answered commands as a text.
fn places_of<R: Abort>(rt: &R, alloc: Global, places: &[Placed]) -> String {
    let mut text = String::new(alloc);
    for placed in places {
        let one = format!(in alloc; "{} {} {};", placed.turn, placed.stripe.0, placed.place).expect(
            rt, "a text",
        );
        text.push_str(one.as_str()).expect(rt, "a text");
    }
    text
}

/// What a row is told by: the store with its shape, and the row's moment.
#[derive(Drop)]
pub(super) struct Desk<'a, N: Named, R> {
    pub(super) rt: &'a R,
    pub(super) alloc: Global,
    pub(super) store: &'a Store<N>,
    pub(super) shape: Shape,
    pub(super) moment: u32,
}

impl<'a, N: Named, R: Abort> Desk<'a, N, R> {
    // The class of this number, which the store has.
    fn class_of(&self, class: u32) -> ClassNo
        requires { length N.config.sizes ≡ self.now.shape.classes }
        ensures { (0 < result.0) × (result.0 ≤ length N.config.sizes) }
    {
        assert!(self.rt; class > 0 && class as usize <= self.shape.classes);
        ClassNo(class)
    }

    // What a class says whose figures are read.
    fn figured(&self, pass: &mut Pass<N>, class: u32) -> String
        requires { length N.config.sizes ≡ self.now.shape.classes }
    {
        match self.store.figures(pass, self.class_of(class)) {
            Ok(figures) => text_of_figures(self.rt, self.alloc, figures),
            Err(_) => format!(in self.alloc; "busy").expect(self.rt, "a text"),
        }
    }

    // How many items a class's figures have.
    fn items_of(&self, pass: &mut Pass<N>, class: u32) -> u64
        requires { length N.config.sizes ≡ self.now.shape.classes }
    {
        let class = self.class_of(class);
        let [hot, warm, cold, temp] = asking::figures(self.rt, self.store, pass, class).counts;
        hot.wrapping_add(warm).wrapping_add(cold).wrapping_add(temp)
    }

    // How many events a pass counts of a stripe.
    fn of_stripe(&self, pass: &mut Pass<N>, stripe: u32) -> u64
        requires { N.config.stripes ≡ self.now.shape.stripes }
    {
        assert!(self.rt; stripe < self.shape.stripes);
        self.store.events(pass, LockNo::Stripe(StripeNo(stripe)))
    }

    // How many events a pass counts of a class.
    fn of_class(&self, pass: &mut Pass<N>, class: u32) -> u64
        requires { length N.config.sizes ≡ self.now.shape.classes }
    {
        self.store.events(pass, LockNo::Class(self.class_of(class)))
    }
}

impl<'a, N: Named, R: Abort + Wait> Desk<'a, N, R> {
    // What a command is answered; the cas number that it shows is noted.
    fn replied(&self, pass: &mut Pass<N>, letter: u8, what: Ask, shown: &mut u64) -> String {
        let command = command_of(self.rt, self.alloc, letter, what, *shown);
        let reply = asking::answer(self.rt, self.alloc, self.store, pass, command, self.moment);
        if let Reply::Value { cas, .. } = &reply {
            *shown = *cas;
        }
        text_of_reply(self.rt, self.alloc, &reply)
    }

    // What is answered of a key's value.
    fn value_of(&self, pass: &mut Pass<N>, letter: u8) -> String {
        let command = command_of(self.rt, self.alloc, letter, Ask::Get, 0);
        let reply = asking::answer(self.rt, self.alloc, self.store, pass, command, self.moment);
        text_of_value(self.rt, self.alloc, &reply)
    }

    // What a class says that is juggled.
    fn juggled(&self, pass: &mut Pass<N>, class: u32) -> String
        requires { length N.config.sizes ≡ self.now.shape.classes }
    {
        let class = self.class_of(class);
        let moves = asking::juggle(self.rt, self.store, pass, class, self.moment);
        format!(in self.alloc; "reclaimed {}, moved {}", moves.reclaimed, moves.moved).expect(
            self.rt, "a text",
        )
    }

    // What a class says that is crawled.
    fn crawled(&self, pass: &mut Pass<N>, class: u32) -> String
        requires { length N.config.sizes ≡ self.now.shape.classes }
    {
        let class = self.class_of(class);
        let found = asking::crawl(self.rt, self.alloc, self.store, pass, class, self.moment);
        format!(in self.alloc;
            "seen {}, reclaimed {}, no expiry {}, passed {}",
            found.seen, found.reclaimed, found.no_expiry, found.passed
        )
        .expect(self.rt, "a text")
    }

    // What a class says that has a new limit of chunks.
    fn limited(&self, pass: &mut Pass<N>, class: u32, chunks: u64) -> String
        requires { length N.config.sizes ≡ self.now.shape.classes }
    {
        assert!(self.rt; chunks > 0 && chunks <= 1 << 20);
        asking::limit(self.rt, self.store, pass, self.class_of(class), chunks);
        digits(self.rt, self.alloc, chunks)
    }

    // How many events a stripe has.
    fn visited(&self, stripe: u32) -> u64
        requires { N.config.stripes ≡ self.now.shape.stripes }
    {
        assert!(self.rt; stripe < self.shape.stripes);
        self.store.visit_stripe(
            self.rt,
            StripeNo(stripe),
            |state| state.history().len() as u64,
        )
    }

    // How many events or items a row counts.
    fn counted(&self, pass: &mut Pass<N>, act: Act) -> u64
        requires { (N.config.stripes ≡ self.now.shape.stripes) × (length N.config.sizes ≡ self.now.shape.classes) }
    {
        match act {
            Act::OfStripe(stripe) => self.of_stripe(pass, stripe),
            Act::OfClass(class) => self.of_class(pass, class),
            Act::Visit(stripe) => self.visited(stripe),
            Act::Items(class) => self.items_of(pass, class),
            _ => 0,
        }
    }

    // What a caller's row tells.
    fn tell(&self, pass: &mut Pass<N>, act: Act, shown: &mut u64) -> String
        requires { (N.config.stripes ≡ self.now.shape.stripes) × (length N.config.sizes ≡ self.now.shape.classes) }
    {
        match act {
            Act::On(letter, what) => self.replied(pass, letter, what, shown),
            Act::Value(letter) => self.value_of(pass, letter),
            Act::Juggle(class) => self.juggled(pass, class),
            Act::Crawl(class) => self.crawled(pass, class),
            Act::Limit(class, chunks) => self.limited(pass, class, chunks),
            Act::Figures(class) => self.figured(pass, class),
            Act::Turn => turn_of(self.rt, self.alloc, pass.next_who()),
            Act::Places => places_of(self.rt, self.alloc, pass.places()),
            other => digits(self.rt, self.alloc, self.counted(pass, other)),
        }
    }

    /// What a row tells, and does in one of the passes. The cas number that was shown last may become another.
    pub(super) fn tell_row(&self, passes: &mut Vec<Pass<N>>, row: &Row, shown: &mut u64) -> String
        requires { (N.config.stripes ≡ self.now.shape.stripes) × (length N.config.sizes ≡ self.now.shape.classes) }
    {
        let callers = passes.len() as u64;
        let pass = passes.get_mut(row.0).expect(self.rt, "a caller");
        match row.2 {
            Act::Callers => digits(self.rt, self.alloc, callers),
            act => self.tell(pass, act, shown),
        }
    }
}
