//! Laws of answers and sessions. The body of each is empty: its contract is the law.

ghost use Rattle.std.specs.Prelude.{◌≡◌, ◌<◌, ◌≤◌, ◌++◌, ◌↔◌, Bool, Contains, List, Option, drop, slice_get, sum, take, true, ℕ};
ghost use Rattle.std.specs.List.{concat, filter_map, flat_map};
ghost use Rattle.std.specs.{Cmp.IsTotalOrder, declared.cmp.Ordering.Ordering};
ghost use Rattle.bd_cursor_model.specs.Answer.{Position, Selection, answer, batches, before, ordered, rest};
ghost use Rattle.bd_cursor_model.specs.Laws.{DocumentRequest, GivesInTurn, IsAscending, IsEnough, IsFair, IsPositionAfter, IsSelectionOf, IsStrictOrder};
ghost use Rattle.bd_cursor_model.specs.Laws.{answered_calls, attempt_replies, batches_to, found_in, new_state, part_request, replies};
ghost use Rattle.bd_cursor_model.specs.Laws.{state_after_all, state_after_attempts};
ghost use Rattle.bd_cursor_model.specs.Session.{Call, PositionedToken, Query, State, find_call, given_by, remaining_after, opened, reply, resume_call, state_after};

/// Of two different places, one comes before the other.
#[tactic(auto, using(crate::proofs::AnswerLemmas::before_strict))]
pub fn places_are_ordered()
    ensures { (by : ℕ → ℕ → Ordering) → IsTotalOrder by → IsStrictOrder (before by) }
{}

/// An answer is in its order, so no place comes twice. Before skip and limit it has exactly the matches.
pub fn answers_are_ordered()
    ensures ascends { (a : Selection) → IsTotalOrder a.by → IsAscending (before a.by) (ordered a) }
    ensures matches { (a : Selection) (p : ℕ) →
        Contains (ordered a) p ↔ ((p < a.count) × (a.matches_at p ≡ true)) }
    ensures answer { (a : Selection) → IsTotalOrder a.by → IsAscending (before a.by) (answer a) }
{}

/// The batches of an answer, joined, are its first places, as many as the sizes say.
#[tactic(auto, using(crate::proofs::AnswerLemmas::batches_joined))]
pub fn batches_are_the_first()
    ensures { (ps sizes : List ℕ) → concat (batches ps sizes) ≡ take (sum sizes) ps }
{}

/// A position within what remains after a token, or within the whole answer, is enough to resume: exactly the rest follows, whoever
/// made the token.
#[tactic(auto, using(crate::proofs::AnswerLemmas::rest_follows))]
pub fn rests_follow()
    ensures { (a : Selection) → IsTotalOrder a.by →
        (most : ℕ) → a.limit ≤ most → (t : Option PositionedToken) (k : ℕ) (m : Position) →
        IsPositionAfter most (given_by t) k (remaining_after a t) m →
        rest a m ≡ drop k (remaining_after a t) }
{}

/// After any calls on a session, a cursor returns its answer in batches of the requested sizes, and each token resumes with exactly
/// the rest, whatever other calls come between. Calls that are refused because memory runs out have no effect: the others have the
/// same replies without them, and lead to the same state.
pub fn sessions_keep_to_the_answer()
    ensures find { (earlier later : List Call) (q : Query) (hint : Option (List ℕ)) (id : ℕ) →
        IsFair q →
        let s = state_after_all new_state earlier in reply s (find_call q hint) ≡ opened id →
        GivesInTurn q id (answer q.selection) later
        (batches_to id later (replies (state_after s (find_call q hint)) later)) }
    ensures resume { (earlier later : List Call)
        (q : Query) (hint : Option (List ℕ)) (t : PositionedToken) (id : ℕ) → IsFair q →
        let s = state_after_all new_state earlier in reply s (resume_call q hint t) ≡ opened id →
        GivesInTurn q id (rest q.selection t.position) later
        (batches_to id later (replies (state_after s (resume_call q hint t)) later)) }
    ensures out_of_memory { (s : State) (attempts : List (Call × Bool)) →
        (state_after_attempts s attempts ≡ state_after_all s (answered_calls attempts))
        × (filter_map (λ r. r) (attempt_replies s attempts) ≡ replies s (answered_calls attempts)) }
{}

/// A collection may be split into parts that are searched separately: the same request over the results of the parts, joined in
/// their order, has the answer of the whole, also in the order of ties. The same is true of any one stretch of it, with a limit of
/// that stretch. `T` is the type of documents; their answer is the documents at the places of the answer of any such selection.
#[tactic(auto, using(crate::proofs::PartsLemmas::parts_give, crate::proofs::PartsLemmas::stretch_gives, crate::proofs::PartsLemmas::answer_gives))]
pub fn parts_give_the_whole<T>()
    ensures parts { (r : DocumentRequest T) → IsTotalOrder r.by → (limit : ℕ) →
        IsEnough r limit → (parts : List (List T)) → found_in r (flat_map (λ ds. ds) parts)
        ≡ found_in r (flat_map (found_in (part_request r limit)) parts) }
    ensures stretch { (r : DocumentRequest T) → IsTotalOrder r.by → (limit : ℕ) →
        IsEnough r limit → (prefix stretch back : List T) → found_in r (prefix ++ (stretch ++ back))
        ≡ found_in r (prefix ++ (found_in (part_request r limit) stretch ++ back)) }
    ensures places { (r : DocumentRequest T) (ds : List T) (a : Selection) → IsSelectionOf r ds a →
        filter_map (slice_get ds) (answer a) ≡ found_in r ds }
{}
