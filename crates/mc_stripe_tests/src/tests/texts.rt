//! Texts of what a stripe has and answers.
use super::b;
use mc_item::{Item, Reply};
use mc_stripe::StripeState;
use std::alloc::Global;
use std::process::Abort;

/// A text of its own.
pub(super) fn text<R: Abort>(rt: &R, alloc: Global, got: &str) -> String {
    format!(in alloc; "{got}").expect(rt, "a text")
}

// An item's text, where there is one.
fn item_text<R: Abort>(rt: &R, alloc: Global, found: Option<&Item>) -> String {
    match found {
        Some(item) => format!(in alloc; "{item:?}").expect(rt, "a text"),
        None => text(rt, alloc, "none"),
    }
}

/// The text of the item under the key `b`.
pub(super) fn text_of_item<R: Abort>(rt: &R, alloc: Global, stripe: &StripeState) -> String {
    let key = b(rt, alloc);
    item_text(rt, alloc, stripe.find(&key))
}

/// A reply's text.
pub(super) fn reply_text<R: Abort>(rt: &R, alloc: Global, reply: &Reply) -> String {
    format!(in alloc; "{reply:?}").expect(rt, "a text")
}
