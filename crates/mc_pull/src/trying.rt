//! A law of the search for a chunk.
ghost use Rattle.std.specs.Prelude.{List, false};
ghost use Rattle.mc_item.specs.declared.{class_event.ClassEvent.ClassEvent, item.StripeNo.StripeNo};
ghost use Rattle.mc_pull.specs.{Rounds.IsRoom, Rounds.Rounds, Tried.AreHad, Tried.IsTried};
ghost use Rattle.mc_pull.specs.declared.looking.Answer.{Answer};

/// Shows that a search that found no chunk, by a gate that had one stripe at hand, has tried. It evicted, moved or reclaimed an
/// entry, or that stripe has no key among the five entries nearest to COLD's tail and to HOT's.
pub fn a_search_in_vain_has_tried()
    ensures { (r : Rounds) (before after : List ClassEvent) (xs : List Answer) (number : StripeNo) → IsRoom r before xs after false → AreHad number xs
        → IsTried r.config.stripes number r.who before after }
{}
