//! The events of any history, whether a stripe's, a class's or a caller's.
use crate::call_event::{Asking, CallEvent};
use crate::class_event::ClassEvent;
use crate::stripe_event::StripeEvent;

/// An event of some history.
#[derive(Drop)]
pub enum Event {
    Stripe(StripeEvent),
    Class(ClassEvent),
    Call(CallEvent),
}

/// A type whose values can be appended to a history on a board (mc_board): `entry` is the event that a value stands for.
pub trait Logged {
    ghost use Rattle.mc_item.specs.declared.event.Event.{Event};

    ghost entry: { Self → Event };
}

impl Logged for StripeEvent {
    ghost use Rattle.mc_item.specs.declared.event.Event.TheVariants.{Stripe};

    ghost entry = { Stripe };
}

impl Logged for ClassEvent {
    ghost use Rattle.mc_item.specs.declared.event.Event.TheVariants.{Class};

    ghost entry = { Class };
}

impl Logged for CallEvent {
    ghost use Rattle.mc_item.specs.declared.event.Event.TheVariants.{Call};

    ghost entry = { Call };
}

impl<'a> Logged for Asking<'a> {
    ghost use Rattle.mc_item.specs.declared.event.Event.TheVariants.{Call};
    ghost use Rattle.mc_item.specs.declared.call_event.CallEvent.TheVariants as calls;

    ghost entry = { λ a. Call (calls.Asked (record { command = a.command.now; moment = a.moment })) };
}
