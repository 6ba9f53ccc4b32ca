//! Laws of the check results of the documents of a dump. The body of each is empty: its contract is the law.

ghost use Rattle.std.specs.Prelude.{◌≡◌, ◌<◌, ◌+◌, ◌∷◌, [], ℕ, List, length, take, drop, slice_index, Option, None, Some, Ok, Err};
ghost use Rattle.std.specs.List.{AllByRecursion};
ghost use Rattle.bd_value.specs.Tree.{Doc};
ghost use Rattle.bd_bson_check.specs.Fault.{Fault as FaultView};
ghost use Rattle.bd_bson_check.specs.FirstFault.{fault_under};
ghost use Rattle.bd_bson_check.specs.Dump.{AreJoined, IsDumpScan, frame_length};
ghost use Rattle.bd_bson_check.specs.declared.fault.FaultKind.{FaultKind as Kind};
ghost use Rattle.bd_bson_check.specs.declared.profile.Profile.{Profile};
ghost use Rattle.bd_bson_dump.specs.CheckResults.{BeginAs, check_results, check_results_at};

/// Under a profile documents are checked in turn, each by the bytes that its length counts, whatever was found before it. The check ends at
/// the end of the bytes, and at a fault of a length itself.
pub fn checks_in_turn()
    ensures end { (p : Profile) (base : ℕ) → check_results_at p base [] ≡ [] }
    ensures turn { (p : Profile) (base n : ℕ) (bytes : List ℕ) →
        frame_length bytes ≡ Ok (Some n) → check_results_at p base bytes
        ≡ fault_under p base (take n bytes) ∷ check_results_at p (base + n) (drop n bytes) }
    ensures last { (p : Profile) (base : ℕ) (bytes : List ℕ) (kind : Kind) →
        frame_length bytes ≡ Err kind → check_results_at p base bytes
        ≡ Some (record { kind = kind; offset = base; path = [] }) ∷ [] }
{}

/// The first document with a fault is the one at which a scan ends, and its fault is the scan's. So bytes are documents
/// joined exactly if no document has a fault.
pub fn checks_as_the_scan()
    ensures begin { (ds : List Doc) (end : Option FaultView) (bytes : List ℕ) →
        IsDumpScan ds end bytes → BeginAs ds end (check_results bytes) }
    ensures whole { (bytes : List ℕ) → ((i : ℕ) → slice_index bytes i < 256) →
        AllByRecursion (λ v. v ≡ None) (check_results bytes) →
        (ds : List Doc) × AreJoined ds bytes }
{}
