//! How the documents of a request are found, and what is read for them.

ghost use Rattle.std.specs.Prelude.{◌≡◌, ◌<◌, All, IfOk, IsOk, count_by, length};
ghost use Rattle.std.specs.List.{range_with_len};
ghost use Rattle.bd_cursor_model.specs.Answer.{matching};
ghost use Rattle.bd_bson_dump.specs.Collection.{documents};
ghost use Rattle.bd_query_filter.specs.Filter.{filter_tree};
ghost use Rattle.bd_cursor_sort.specs.Selection.{selection_of, matches_at_of};
ghost use Rattle.bd_cursor.specs.Access.{IsAccessOf, access_path, scanned};
ghost use Rattle.bd_cursor.specs.Explanation.{explained_access, explain_doc};

use crate::access::Access;
use bd_bson_dump::Dump;
use bd_cursor_request::Request;
use bd_cursor_sort::is_match;
use bd_query_filter::Filter;
use bd_value::NoMemory;
use std::alloc::Global;

/// How documents are found.
#[derive(Clone, Copy, Debug)]
pub enum Plan {
    /// Each document is examined.
    Scan,
    /// Those with an entry inside the bounds of an index.
    Index,
    /// All, in the order of an index.
    Walk,
}

/// How the documents of a request are found, and how many of them.
#[derive(Debug, Drop)]
pub struct Explain {
    pub plan: Plan,
    /// The path of the index; None for a scan.
    pub index: Option<String>,
    /// How many entries of the index are read.
    pub entries: u64,
    /// How many documents are examined.
    pub documents: u64,
    /// How many match, before skip and limit.
    pub matches: u64,
}

/// What is read on an access path. It fails only if memory runs out.
pub(crate) fn explain_access(
    alloc: Global,
    dump: &Dump,
    request: &Request,
    access: &Access<'_>,
) -> Result<Explain, NoMemory>
    requires { IsAccessOf dump.now request.now access.now }
    ensures explained { IfOk result (λ e. explain_doc e ≡ explained_access (documents dump.now)
        (length (matching (selection_of (documents dump.now) request.now)))
        (access_path access.now)) }
    // A scan takes no memory.
    ensures scan { access_path access.now ≡ scanned → IsOk result }
{
    match access {
        Access::Scan => Ok(Explain {
            plan: Plan::Scan,
            index: None,
            entries: 0,
            documents: u64::from(dump.len()),
            matches: count_matches(dump, &request.filter),
        }),
        Access::Bounded { index, bounds } => {
            let found = index.places(alloc, dump, bounds.as_ref())?;
            Ok(Explain {
                plan: Plan::Index,
                index: Some(String::from_str(alloc, index.path().as_str())?),
                entries: found.entries,
                documents: found.places.len() as u64,
                matches: count_among(dump, &request.filter, &found.places),
            })
        }
        Access::Walk { index, .. } => Ok(Explain {
            plan: Plan::Walk,
            index: Some(String::from_str(alloc, index.path().as_str())?),
            entries: index.entries(),
            documents: u64::from(dump.len()),
            matches: count_matches(dump, &request.filter),
        }),
    }
}

/// How many documents match.
#[tactic(auto, using(crate::proofs::AccessLemmas::count_more))]
fn count_matches(dump: &Dump, filter: &Filter) -> u64
    ensures { result ≡ count_by (matches_at_of (documents dump.now) (filter_tree filter.now))
        (range_with_len 0 (length (documents dump.now))) }
{
    let mut count = 0;
    for place in 0..dump.len() {
        if is_match(dump, filter, place) {
            count += 1;
        }
    }
    count
}

/// How many of the documents at these places match.
fn count_among(dump: &Dump, filter: &Filter, places: &[u32]) -> u64
    requires { All (λ p. p < length (documents dump.now)) places.now }
    ensures { result
        ≡ count_by (matches_at_of (documents dump.now) (filter_tree filter.now)) places.now }
{
    let mut count = 0;
    for place in places {
        if is_match(dump, filter, *place) {
            count += 1;
        }
    }
    count
}
