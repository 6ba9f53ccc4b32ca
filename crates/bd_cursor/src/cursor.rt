//! An open cursor, its batches, and the places that remain.

ghost use Rattle.std.specs.Prelude.{◌≡◌, ◌<◌, ℕ, IfNone, IfOk, IfSome, IsOk, List, None, OnErr, OnOk, Some, [], drop, if◌then◌else◌, length, map, option_map, slice_get, slice_set, take};
ghost use Rattle.bd_cursor_model.specs.Answer.{at_most, limited, is_empty};
ghost use Rattle.bd_cursor_model.specs.Session.{OpenCursor, batch_of, cursor_of, digest_after, given_by, remaining_after, moved, token_after, with_moved, without};
ghost use Rattle.bd_cursor_model.specs.Source.{HandsOut};
ghost use Rattle.bd_bson_dump.specs.Collection.{documents};
ghost use Rattle.bd_bson_dump.specs.declared.collection.Dump.{Dump};
ghost use Rattle.bd_query_filter.specs.Filter.{filter_tree};
ghost use Rattle.bd_cursor_sort.specs.Selection.{matches_at_of, query_of, selection_of};
ghost use Rattle.bd_value.specs.Tree.{Doc};
ghost use Rattle.bd_cursor.specs.Access.{IsAccessOf};
ghost use Rattle.bd_cursor.specs.SessionView.{given_batch, positioned_token, open_cursor, places_remaining, scan_remaining};
ghost use Rattle.bd_cursor.specs.inside.SessionView.{scan_remaining_in};

use crate::access::{Access, PlaceList};
use crate::session::DigestedDump;
use bd_bson_dump::Dump;
use bd_cursor_request::{Batch, Request, Token, request_digest};
use bd_cursor_sort::is_match;
use bd_query_filter::Filter;
use bd_value::NoMemory;
use std::alloc::Global;

/// An open cursor.
#[derive(Drop)]
pub(crate) struct Cursor {
    pub id: u64,
    pub request: Request,
    /// The token after what it returned last, or the one that it was opened with.
    pub token: Option<Token>,
    pub remaining: Remainder,
}

impl Cursor {
    /// Returns the next n documents, or all that remain if there are fewer. An empty batch takes no memory.
    pub(crate) fn next(
        &mut self,
        alloc: Global,
        documents: &mut DigestedDump,
        n: u64,
    ) -> Result<Batch, NoMemory>
        ensures batch { IfOk result (λ batch.
            given_batch batch ≡ batch_of (open_cursor documents.old.dump self.old) n) }
        ensures moved { OnOk result (open_cursor documents.old.dump self.new
            ≡ moved (open_cursor documents.old.dump self.old) n) }
        ensures none { (batch_of (open_cursor documents.old.dump self.old) n).places ≡ [] →
            IsOk result }
        ensures dump { documents.new.dump ≡ documents.old.dump }
        ensures err { OnErr result (self.new ≡ self.old) }
    {
        let (places, end) = self
            .remaining
            .take(alloc, &documents.dump, &self.request, n)?;
        let token = token_after(documents, &self.request, self.token, &places);
        self.token = token;
        Ok(Batch { places, token, end })
    }
}

/// The token after some more places.
fn token_after(
    documents: &mut DigestedDump,
    request: &Request,
    token: Option<Token>,
    places: &[u32],
) -> Option<Token>
    ensures token { option_map positioned_token result
        ≡ token_after (query_of documents.old.dump request.now).digest
        (option_map positioned_token token) places.now }
    ensures dump { documents.new.dump ≡ documents.old.dump }
{
    let Some(last) = places.last() else {
        return token;
    };
    let (given, digest) = given_before(documents, request, token);
    Some(Token {
        given: given.saturating_add(places.len() as u64),
        last: *last,
        digest,
    })
}

/// How many documents were returned up to a token, and the digest of the next token: that of the last one, or for the first token
/// that of the dump and the request.
fn given_before(
    documents: &mut DigestedDump,
    request: &Request,
    token: Option<Token>,
) -> (u64, [u8; 32])
    ensures given { result.0 ≡ given_by (option_map positioned_token token) }
    ensures digest { result.1 ≡ digest_after
        (query_of documents.old.dump request.now).digest (option_map positioned_token token) }
    ensures dump { documents.new.dump ≡ documents.old.dump }
{
    match token {
        Some(token) => {
            let digest = token.digest;
            (token.given, digest)
        }
        None => {
            let dump = documents.digest();
            let digest = request_digest(&dump, request);
            (0, digest)
        }
    }
}

/// The position of a cursor among the open ones.
#[tactic(auto, using(crate::proofs::SessionLemmas::cursor_at, crate::proofs::SessionLemmas::moved_at, crate::proofs::SessionLemmas::none_before))]
pub(crate) fn place_of(cursors: &[Cursor], id: u64) -> Option<usize>
    ensures none { (dump : Dump) →
        IfNone result (cursor_of id (map (open_cursor dump) cursors.now) ≡ None) }
    ensures below { IfSome result (λ i. i < length cursors.now) }
    ensures it { (dump : Dump) →
        IfSome result (λ i. cursor_of id (map (open_cursor dump) cursors.now)
        ≡ slice_get (map (open_cursor dump) cursors.now) i) }
    ensures moved { (dump : Dump) → IfSome result (λ i. (c : OpenCursor) (n : ℕ) →
        cursor_of id (map (open_cursor dump) cursors.now) ≡ Some c →
        with_moved id n (map (open_cursor dump) cursors.now)
        ≡ slice_set (map (open_cursor dump) cursors.now) i (moved c n)) }
{
    for i in 0..cursors.len() {
        if cursors[i].id == id {
            return Some(i);
        }
    }
    None
}

/// Removes a cursor.
pub(crate) fn close(cursors: &mut Vec<Cursor>, id: u64)
    ensures { (dump : Dump) → map (open_cursor dump) cursors.new.items
        ≡ without id (map (open_cursor dump) cursors.old.items) }
{
    cursors.retain(|cursor| cursor.id != id);
}

/// Removes a cursor that is at its end.
pub(crate) fn close_at_end(cursors: &mut Vec<Cursor>, id: u64, end: bool)
    ensures { (dump : Dump) → map (open_cursor dump) cursors.new.items ≡ (if end then without id
        (map (open_cursor dump) cursors.old.items) else map (open_cursor dump) cursors.old.items) }
{
    if end {
        close(cursors, id);
    }
}

/// The places that remain for a cursor.
#[derive(Drop)]
pub(crate) enum Remainder {
    /// If each document is examined and there is no sort, they are searched when they are requested.
    Scanned(ScanPosition),
    /// Otherwise all of them are known.
    Listed(PlaceList),
}

impl Remainder {
    /// What remains of a request on an access path: its answer, or the rest of it after a token.
    #[tactic(auto, using(bd_bson_dump::proofs::CollectionLemmas::documents_length))]
    pub(crate) fn of(
        alloc: Global,
        dump: &Dump,
        request: &Request,
        access: Access<'_>,
        token: Option<Token>,
    ) -> Result<Remainder, NoMemory>
        requires leads { IsAccessOf dump.now request.now access }
        requires in_range { IfSome token (λ t. t.last < length (documents dump.now)) }
        ensures { IfOk result (λ remaining. places_remaining
            (selection_of (documents dump.now) request.now) remaining ≡ remaining_after
            (selection_of (documents dump.now) request.now) (option_map positioned_token token)) }
    {
        if access.is_scan() && request.sort.is_empty() {
            return Ok(Remainder::Scanned(ScanPosition::of(request, token)));
        }
        if let Some(token) = token {
            let most = most_remaining(request.limit, token.given);
            let places = access.places(alloc, dump, request, Some(token.last), most)?;
            return Ok(Remainder::Listed(PlaceList::new(places, 0)));
        }
        let most = most_needed(request);
        let places = access.places(alloc, dump, request, None, most)?;
        Ok(Remainder::Listed(PlaceList::new(places, request.skip)))
    }

    /// Takes the next n places, or all that remain if there are fewer, and says whether nothing remains then.
    pub(crate) fn take(
        &mut self,
        alloc: Global,
        dump: &Dump,
        request: &Request,
        n: u64,
    ) -> Result<(Vec<u32>, bool), NoMemory>
        ensures places { let a = selection_of (documents dump.now) request.now in IfOk result (λ r.
            r.0.items ≡ take n (places_remaining a self.old)) }
        ensures end { let a = selection_of (documents dump.now) request.now in IfOk result (λ r.
            r.1 ≡ is_empty (drop n (places_remaining a self.old))) }
        ensures remaining { let a = selection_of (documents dump.now) request.now in
            IfOk result (λ r. places_remaining a self.new ≡ drop n (places_remaining a self.old)) }
        ensures none { let a = selection_of (documents dump.now) request.now in
            take n (places_remaining a self.old) ≡ [] → IsOk result }
        ensures err { OnErr result (self.new ≡ self.old) }
    {
        match self {
            Remainder::Scanned(position) => {
                let mut moved = *position;
                let places = moved.take(alloc, dump, &request.filter, n)?;
                let end = moved.is_empty(dump, &request.filter);
                *position = moved;
                Ok((places, end))
            }
            Remainder::Listed(listed) => {
                let places = listed.take(alloc, n)?;
                Ok((places, listed.is_empty()))
            }
        }
    }
}

/// How many places may still be returned after `given`; all without a limit.
fn most_remaining(limit: u64, given: u64) -> Option<u64>
    ensures { (ps : List ℕ) → at_most result ps ≡ limited limit given ps }
{
    if limit == 0 {
        None
    } else {
        Some(limit.saturating_sub(given))
    }
}

/// How many of the first places an answer needs, those to be skipped included; all without a limit.
fn most_needed(request: &Request) -> Option<u64>
    ensures { let skip = request.now.skip in (ps : List ℕ) →
        length (at_most result ps) < 18446744073709551615 →
        drop skip (at_most result ps) ≡ limited request.now.limit 0 (drop skip ps) }
{
    if request.limit == 0 {
        None
    } else {
        Some(request.skip.saturating_add(request.limit))
    }
}

/// The position of a cursor without a sort: it resumes there, and examines no document twice.
#[derive(Clone, Copy)]
pub(crate) struct ScanPosition {
    /// The match that was found and not returned yet.
    pub found: Option<u32>,
    /// The first document that was not examined.
    pub next: u32,
    /// How many matches are still to be skipped.
    pub skip: u64,
    /// How many may still be returned; all if None.
    pub most: Option<u64>,
}

impl ScanPosition {
    /// What remains of a request without a sort: its answer, or the rest of it after a token.
    fn of(request: &Request, token: Option<Token>) -> ScanPosition
        requires { IfSome token (λ t. t.last < 4294967295) }
        ensures { (ds : List Doc) → request.now.sort.items ≡ [] →
            scan_remaining (length ds) (matches_at_of ds (filter_tree request.now.filter)) result
            ≡ remaining_after (selection_of ds request.now) (option_map positioned_token token) }
    {
        let (next, skip, given) = match token {
            Some(token) => (token.last + 1, 0, token.given),
            None => (0, request.skip, 0),
        };
        ScanPosition {
            found: None,
            next,
            skip,
            most: most_remaining(request.limit, given),
        }
    }

    /// Takes the next n places, or all that remain if there are fewer. If memory runs out, its position is meaningless.
    #[tactic(auto, using(std::proofs::lemmas::List::drop_at, crate::proofs::CursorLemmas::drop_beyond))]
    fn take(
        &mut self,
        alloc: Global,
        dump: &Dump,
        filter: &Filter,
        n: u64,
    ) -> Result<Vec<u32>, NoMemory>
        ensures places { IfOk result (λ v.
            v.items ≡ take n (scan_remaining_in dump.now filter.now self.old)) }
        ensures remaining { OnOk result (scan_remaining_in dump.now filter.now self.new
            ≡ drop n (scan_remaining_in dump.now filter.now self.old)) }
        ensures none { take n (scan_remaining_in dump.now filter.now self.old) ≡ [] →
            IsOk result }
    {
        let mut places = Vec::new(alloc);
        while (places.len() as u64) < n {
            match self.next_match(dump, filter) {
                Some(place) => places.push(place)?,
                None => break,
            }
        }
        Ok(places)
    }

    /// Whether nothing remains.
    fn is_empty(&mut self, dump: &Dump, filter: &Filter) -> bool
        ensures empty { result ≡ is_empty (scan_remaining_in dump.now filter.now self.old) }
        ensures remaining { scan_remaining_in dump.now filter.now self.new
            ≡ scan_remaining_in dump.now filter.now self.old }
    {
        if self.most == Some(0) {
            return true;
        }
        self.look(dump, filter);
        self.found.is_none()
    }

    /// Returns the next place, if any.
    fn next_match(&mut self, dump: &Dump, filter: &Filter) -> Option<u32>
        ensures { HandsOut result (scan_remaining_in dump.now filter.now self.old)
            (scan_remaining_in dump.now filter.now self.new) }
    {
        if self.most == Some(0) {
            return None;
        }
        self.look(dump, filter);
        let place = self.found?;
        self.found = None;
        self.most = self.most.map(|n| n.saturating_sub(1));
        Some(place)
    }

    /// Searches the next match, unless one was found.
    fn look(&mut self, dump: &Dump, filter: &Filter)
        ensures remaining { scan_remaining_in dump.now filter.now self.new
            ≡ scan_remaining_in dump.now filter.now self.old }
        ensures most { self.new.most ≡ self.old.most }
        ensures none { self.new.found ≡ None → scan_remaining_in dump.now filter.now self.new ≡ [] }
    {
        while self.found.is_none() && self.next < dump.len() {
            let place = self.next;
            self.next += 1;
            if is_match(dump, filter, place) {
                if self.skip > 0 {
                    self.skip -= 1;
                } else {
                    self.found = Some(place);
                }
            }
        }
    }
}
