//! An example with two chunks and three sets: the histories that such a run leaves are legal and lawful, and agree.
ghost use Rattle.std.specs.Prelude.{[], ◌∷◌};
ghost use Rattle.mc_item.specs.Stripe.{IsLegal};
ghost use Rattle.mc_rule.specs.{Agreement.Agree, Belonging.Belong, Lawful.IsLawfulHistoryByLists};
ghost use Rattle.mc_evidence.specs.Example.{class_before, class_story, first_class, small_rule, small_site, stripe_before, stripe_story};

/// The definitions hold of a run of three sets with one eviction. Before it, the first item and its entry belong together.
pub fn a_run_with_an_eviction_agrees()
    ensures legal { IsLegal small_site stripe_story }
    ensures lawful { IsLawfulHistoryByLists 2 small_rule class_story }
    ensures belong { Belong small_site first_class stripe_before class_before (97 ∷ []) 0 }
    ensures agree { Agree small_site small_rule first_class stripe_story class_story }
{}
