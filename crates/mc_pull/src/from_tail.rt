//! A law of walks.
ghost use Rattle.std.specs.Prelude.{◌≡◌, ◌≤◌, ◌++◌, ◌∷◌, [], List, true, length};
ghost use Rattle.mc_item.specs.declared.class_event.ClassEvent.{ClassEvent};
ghost use Rattle.mc_pull.specs.{Looks.done_in, Pulled.is_end_if, Walk.Pull, Walk.IsWalk};
ghost use Rattle.mc_pull.specs.WalkRule.{entries_at_start, history_after, HasEnded, IsNextLook};
ghost use Rattle.mc_pull.specs.declared.{looking.Answer.Answer, pulled.Pulled.Pulled};

/// Shows what every walk does. It looks at no more than five entries, nor than its list had. Each look is at the entry next to
/// those that it passed, from the tail, and adds just that entry's events. After an answer that ends a walk it looks at nothing
/// more. It ends with such an answer, after five looks, after as many as the list had entries, or, if it looks for a chunk, once
/// there is one.
pub fn walks_go_from_the_tail()
    ensures few { (p : Pull) (xs : List Answer) (after : List ClassEvent) (pulled : Pulled) → IsWalk p xs after pulled
        → (length xs ≤ 5) × (length xs ≤ entries_at_start p) }
    ensures next { (p : Pull) (xs ys : List Answer) (a : Answer) (after : List ClassEvent) (pulled : Pulled)
        → IsWalk p (xs ++ a ∷ ys) after pulled → IsNextLook p xs a }
    ensures stops { (p : Pull) (xs ys : List Answer) (a : Answer) (after : List ClassEvent) (pulled : Pulled)
        → IsWalk p (xs ++ a ∷ ys) after pulled → is_end_if (done_in a.judged) ≡ true → ys ≡ [] }
    ensures ends { (p : Pull) (xs : List Answer) (after : List ClassEvent) (pulled : Pulled) → IsWalk p xs after pulled
        → (after ≡ history_after p xs) × HasEnded p xs after }
{}
