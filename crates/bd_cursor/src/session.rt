//! Cursors over a dump.

ghost use Rattle.std.specs.Prelude.{◌≡◌, Some};
ghost use Rattle.std.specs.Option.{ForSome};
ghost use Rattle.sha2.specs.Sha256.{sha256};
ghost use Rattle.bd_cursor_model.specs.Laws.{IsFair};
ghost use Rattle.bd_bson_dump.specs.Collection.{bytes_of};
ghost use Rattle.bd_index.specs.IndexView.{AreIndexesOf, AreIndexesOf-prop};
ghost use Rattle.bd_cursor_sort.specs.Selection.{query_of};

use crate::access::{Access, Choice, index_on};
use crate::cursor::{Cursor, Remainder, close, close_at_end, place_of};
use crate::explaining::{Explain, explain_access};
use bd_bson_dump::Dump;
use bd_cursor_request::{Batch, Made, Refused, Request, Token, dump_digest, request_digest};
use bd_index::Index;
use bd_path::Path;
use bd_value::{GREATEST_COUNT, MOST_CURSORS, MOST_INDEXES, NoMemory};
use std::alloc::Global;

/// The last number of a cursor.
const LAST_ID: u64 = 9_223_372_036_854_775_807;

/// A dump, its indexes, and the cursors over it. A call that is refused changes nothing.
#[derive(Drop)]
pub struct Session {
    alloc: Global,
    documents: DigestedDump,
    indexes: Vec<Index>,
    next_id: u64,
    cursors: Vec<Cursor>,
    ghost indexed: { AreIndexesOf
        documents.dump indexes.items } by { AreIndexesOf-prop documents.dump indexes.items },
}

impl Session {
    ghost use Rattle.std.specs.Prelude.{◌≤◌, ◌<◌, IfErr, IfOk, IfSome, IsFalse, IsOk, IsTrue, List, None, OnOk, Option, Some, ℕ, false, length, option_map, true};
    ghost use Rattle.bd_path.specs.PathNames.{path_text};
    ghost use Rattle.bd_cursor_model.specs.Laws.{new_state};
    ghost use Rattle.bd_cursor_model.specs.Session.{Call, drop_call, dropped, explained, find_call, gave, is_full, kill_call, killed, made, next_call};
    ghost use Rattle.bd_cursor_model.specs.Session.{open_reply, opened, reply, resume_call};
    ghost use Rattle.bd_bson_dump.specs.Collection.{documents};
    ghost use Rattle.bd_index.specs.IndexView.{IsIndexOf};
    ghost use Rattle.bd_cursor.specs.Access.{by_none, index_key, way_of};
    ghost use Rattle.bd_cursor.specs.SessionView.{IsRefusedCall, Steps, dump_of, given_batch, positioned_token, path_index_key};
    ghost use Rattle.bd_cursor.specs.inside.SessionView.{IsGranted, IsOpening};
    ghost use Rattle.bd_cursor.specs.SessionView.{explain_request, hint_of, make_index, make_of, state_of};
    ghost use Rattle.bd_cursor.specs.Explanation.{explain_doc};
    ghost use Rattle.bd_cursor_request.specs.Results.{made_counts};

    /// A session with no index and no cursor. It takes no memory.
    pub fn new(alloc: Global, dump: Dump) -> Session
        ensures state { state_of result ≡ new_state }
        ensures dump { dump_of result ≡ dump }
    {
        Session {
            alloc,
            documents: DigestedDump::new(dump),
            indexes: Vec::new(alloc),
            next_id: 1,
            cursors: Vec::new(alloc),
        }
    }

    /// The dump. It takes no memory.
    pub fn dump(&self) -> &Dump
        ensures { result.now ≡ dump_of self.now }
    {
        &self.documents.dump
    }

    /// Creates an index on a path, with an entry for each key of each document, and returns how many entries it has.
    ///
    /// # Errors
    ///
    /// In this order: `IndexThere` if the path has an index, sparse or not, `TooManyIndexes` if there are 16. `NoMemory`
    /// if memory runs out.
    pub fn create_index(&mut self, path: Path) -> Result<Made, Refused>
        ensures steps { Steps (λ m. made (made_counts m))
            (make_index false (dump_of self.old) path) self.old result self.new }
    {
        self.make(path, false)
    }

    /// Creates a sparse index on a path: without an entry for a missing field. It returns how many entries the index has, and
    /// whether some document has two keys, those for missing fields included.
    ///
    /// # Errors
    ///
    /// Those of `create_index`.
    pub fn create_sparse_index(&mut self, path: Path) -> Result<Made, Refused>
        ensures steps { Steps (λ m. made (made_counts m))
            (make_index true (dump_of self.old) path) self.old result self.new }
    {
        self.make(path, true)
    }

    /// Drops the index on a path. Each cursor continues as before. It takes no memory.
    ///
    /// # Errors
    ///
    /// `NoIndex` if the path has none.
    pub fn drop_index(&mut self, path: &Path) -> Result<(), Refused>
        ensures steps { Steps (λ _.
            dropped) (drop_call (path_text path.now)) self.old result self.new }
    {
        if index_on(&self.indexes, path).is_none() {
            return Err(Refused::NoIndex);
        }
        self.indexes
            .retain(|index| path.as_str() != index.path().as_str());
        Ok(())
    }

    /// How the documents of a request are found, and how many entries and documents are read for them.
    ///
    /// # Errors
    ///
    /// `NoIndex` if the requested index does not exist. `NoMemory` if memory runs out.
    pub fn explain(&self, request: &Request, choice: &Choice) -> Result<Explain, Refused>
        ensures steps { Steps (λ e. explained (explain_doc e))
            (explain_request (dump_of self.now) request.now choice.now) self.now result self.now }
        // A scan takes no memory.
        ensures scan { way_of choice.now ≡ by_none → IsOk result }
    {
        let dump = &self.documents.dump;
        let access = Access::of(self.alloc, dump, &self.indexes, request, choice)?;
        let explanation = explain_access(self.alloc, dump, request, &access)?;
        Ok(explanation)
    }

    /// Opens a cursor on the answer of a request, and returns its number: 1 for the first cursor of a session, and one more each
    /// time.
    ///
    /// # Errors
    ///
    /// In this order: `NoIndex` if the requested index does not exist, `TooManyCursors` if 64 are open. `NoMemory`
    /// if memory runs out.
    pub fn find(&mut self, request: Request, choice: Choice) -> Result<u64, Refused>
        ensures steps { Steps opened (find_call
            (query_of (dump_of self.old) request) (hint_of choice)) self.old result self.new }
    {
        self.open(request, &choice, None)
    }

    /// Opens a cursor on what follows a token in the answer of its request, and returns its number.
    ///
    /// # Errors
    ///
    /// In this order: `ForeignToken` if the token is of another dump or request, `TokenPlace` if its document number is after the
    /// last one, `NoIndex`, `TooManyCursors`. `NoMemory` if memory runs out.
    #[tactic(auto, using(crate::proofs::SessionLemmas::steps_from))]
    pub fn resume(
        &mut self,
        request: Request,
        choice: Choice,
        token: &Token,
    ) -> Result<u64, Refused>
        ensures steps { Steps opened
            (resume_call (query_of (dump_of self.old) request) (hint_of choice)
            (positioned_token token.now)) self.old result self.new }
    {
        let token = *token;
        if let Err(why) = self.may_resume(&request, token) {
            return Err(why);
        }
        self.open(request, &choice, Some(token))
    }

    /// The next n documents of a cursor, or all that remain if there are fewer; n is 0 to 2,147,483,647. If nothing remains
    /// after them, the cursor is closed.
    ///
    /// # Errors
    ///
    /// In this order: `NoCursor` if no cursor has the number, `Range` if `n` is above 2,147,483,647. `NoMemory` if memory
    /// runs out.
    pub fn next(&mut self, id: u64, n: u64) -> Result<Batch, Refused>
        ensures steps { Steps (λ batch.
            gave (given_batch batch)) (next_call id n) self.old result self.new }
    {
        let Some(place) = place_of(&self.cursors, id) else {
            return Err(Refused::NoCursor);
        };
        if n > GREATEST_COUNT {
            return Err(Refused::Range);
        }
        let Ok(batch) = self.cursors[place].next(self.alloc, &mut self.documents, n) else {
            return Err(Refused::NoMemory);
        };
        close_at_end(&mut self.cursors, id, batch.end);
        Ok(batch)
    }

    /// Closes a cursor. Its number is not used again. It takes no memory.
    ///
    /// # Errors
    ///
    /// `NoCursor` if no cursor has the number.
    pub fn kill(&mut self, id: u64) -> Result<(), Refused>
        ensures steps { Steps (λ _. killed) (kill_call id) self.old result self.new }
    {
        let Some(_place) = place_of(&self.cursors, id) else {
            return Err(Refused::NoCursor);
        };
        close(&mut self.cursors, id);
        Ok(())
    }

    /// Creates an index, sparse or not.
    fn make(&mut self, path: Path, sparse: bool) -> Result<Made, Refused>
        ensures steps { Steps (λ m. made (made_counts m))
            (make_index sparse (dump_of self.old) path) self.old result self.new }
    {
        self.may_make(&path, sparse)?;
        let index = self.build(path, sparse)?;
        self.add(index)
    }

    /// An index of the dump, sparse or not.
    fn build(&self, path: Path, sparse: bool) -> Result<Index, NoMemory>
        ensures index { IfOk result (IsIndexOf (dump_of self.now)) }
        ensures index_key_is { IfOk result (λ index. index_key index ≡ path_index_key sparse path) }
    {
        if sparse {
            Index::build_sparse(self.alloc, &self.documents.dump, path)
        } else {
            Index::build(self.alloc, &self.documents.dump, path)
        }
    }

    /// Whether an index may be created, and why not.
    fn may_make(&self, path: &Path, sparse: bool) -> Result<(), Refused>
        ensures granted { OnOk result (IsGranted self.now (path_index_key sparse path.now)) }
        ensures refused { IfErr result (IsRefusedCall
            (reply (state_of self.now) (make_index sparse (dump_of self.now) path.now))) }
    {
        if index_on(&self.indexes, path).is_some() {
            return Err(Refused::IndexThere);
        }
        if self.indexes.len() >= MOST_INDEXES {
            return Err(Refused::TooManyIndexes);
        }
        Ok(())
    }

    /// Adds an index of the dump that may be created, and returns its counts.
    fn add(&mut self, index: Index) -> Result<Made, Refused>
        requires index { IsIndexOf (dump_of self.old) index }
        requires granted { IsGranted self.old (index_key index) }
        ensures steps { Steps (λ m. made (made_counts m))
            (make_of (documents (dump_of self.old)) (index_key index)) self.old result self.new }
    {
        let entries = index.entries();
        let multikey = index.multikey();
        self.indexes.push(index)?;
        Ok(Made { entries, multikey })
    }

    /// Whether a token is of the request to this dump, and its document number exists.
    fn may_resume(&mut self, request: &Request, token: Token) -> Result<(), Refused>
        ensures in_range { OnOk result (token.last < length (documents (dump_of self.new))) }
        ensures opens { OnOk result ((hint : Option (List ℕ)) →
            IsOpening (resume_call (query_of (dump_of self.old) request.now) hint
            (positioned_token token)) (state_of self.new)
            (query_of (dump_of self.new) request.now) hint (Some (positioned_token token))) }
        ensures refused { IfErr result (λ why. (hint : Option (List ℕ)) →
            IsRefusedCall (reply (state_of self.old) (resume_call
            (query_of (dump_of self.old) request.now) hint (positioned_token token))) why) }
        ensures same { state_of self.new ≡ state_of self.old }
        ensures dump { dump_of self.new ≡ dump_of self.old }
    {
        let dump = self.documents.digest();
        let digest = request_digest(&dump, request);
        if token.digest != digest {
            return Err(Refused::ForeignToken);
        }
        if token.last >= self.documents.dump.len() {
            return Err(Refused::TokenPlace);
        }
        Ok(())
    }

    /// Whether one more cursor may be open. If not, a requested index that does not exist is reported first.
    fn may_open(&self, choice: &Choice) -> Result<(), Refused>
        ensures opened { OnOk result (IsFalse (is_full (state_of self.now))) }
        ensures number { OnOk result (self.now.next_id ≤ 9223372036854775807) }
        ensures refused { IfErr result
            (IsRefusedCall (open_reply (state_of self.now) (hint_of choice.now))) }
    {
        if self.cursors.len() < MOST_CURSORS && self.next_id <= LAST_ID {
            return Ok(());
        }
        match choice {
            Choice::Index(path) if index_on(&self.indexes, path).is_none() => Err(Refused::NoIndex),
            _ => Err(Refused::TooManyCursors),
        }
    }

    /// Opens a cursor on what remains of a request.
    fn open(&mut self, request: Request, by: &Choice, token: Option<Token>) -> Result<u64, Refused>
        requires { IfSome token (λ t. t.last < length (documents (dump_of self.old))) }
        ensures steps { (call : Call) →
            IsOpening call (state_of self.old) (query_of (dump_of self.old) request)
            (hint_of by.now) (option_map positioned_token token) →
            Steps opened call self.old result self.new }
    {
        self.may_open(by)?;
        let data = &self.documents;
        let access = Access::of(self.alloc, &data.dump, &self.indexes, &request, by)?;
        let remaining = Remainder::of(self.alloc, &data.dump, &request, access, token)?;
        let id = self.next_id;
        self.cursors.push(Cursor {
            id,
            request,
            token,
            remaining,
        })?;
        self.next_id += 1;
        Ok(id)
    }
}

/// A dump, and the digest of its bytes once it was needed.
#[derive(Drop)]
pub(crate) struct DigestedDump {
    pub dump: Dump,
    digest: Option<[u8; 32]>,
    ghost is_digest: { ForSome digest (λ d. d ≡ sha256 (bytes_of dump)) },
}

impl DigestedDump {
    /// A dump whose digest was not needed yet.
    pub(crate) fn new(dump: Dump) -> DigestedDump
        ensures { result.dump ≡ dump }
    {
        DigestedDump { dump, digest: None }
    }

    /// The digest of its bytes. It takes no memory.
    pub(crate) fn digest(&mut self) -> [u8; 32]
        ensures digest { result ≡ sha256 (bytes_of self.old.dump) }
        // It is stored, and not computed again.
        ensures stored { self.new.digest ≡ Some result }
        ensures dump { self.new.dump ≡ self.old.dump }
    {
        if let Some(digest) = self.digest {
            return digest;
        }
        let digest = dump_digest(self.dump.bytes());
        self.digest = Some(digest);
        digest
    }
}

/// A request puts the documents of a dump into one order, up to ties, and its limit can be counted. So the laws of sessions apply:
/// a cursor returns the answer of its request in batches, and each token resumes with the rest.
#[tactic(auto, using(crate::proofs::CursorLemmas::requested_total))]
pub fn requests_are_fair(dump: &Dump, request: &Request)
    ensures { IsFair (query_of dump.now request.now) }
{
    let _limit = request.limit;
}
