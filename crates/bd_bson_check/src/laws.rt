//! Laws of faults and of dumps. The body of each is empty: its contract is the law.

ghost use Rattle.std.specs.Prelude.{◌≡◌, ◌≤◌, ◌<◌, ◌++◌, ◌⊎◌, ℕ, ℤ, List, length, slice_index, Option, None};
ghost use Rattle.bd_value.specs.Limits.{longest_input};
ghost use Rattle.bd_value.specs.Tree.{Doc};
ghost use Rattle.bd_bson_view.specs.Spelling.{IsDocument, IsDocumentBy, valued};
ghost use Rattle.bd_bson_view.specs.declared.raw_parts.ElementType.{ElementType};
ghost use Rattle.bd_bson_check.specs.Fault.{Fault as FaultView};
ghost use Rattle.bd_bson_check.specs.FirstFault.{ReportsNoNumber, fault_under, first_fault};
ghost use Rattle.bd_bson_check.specs.declared.profile.Profile.TheVariants.{All};
ghost use Rattle.bd_bson_check.specs.Dump.{IsDump, AreJoined, IsDumpScan, FailsAfter};

/// Bytes within the limit of a dump are a dump of documents or have one first fault, never both; and each in only one way, by
/// `scans_in_one_way`.
pub fn dump_or_fault()
    ensures either { (bytes : List ℕ) → ((i : ℕ) → slice_index bytes i < 256) →
        length bytes ≤ longest_input → ((ds : List Doc) × IsDump ds bytes)
        ⊎ ((ds : List Doc) × (f : FaultView) × FailsAfter ds f bytes) }
    ensures never_both { (bytes : List ℕ) (ds es : List Doc) (f : FaultView) →
        IsDump ds bytes → FailsAfter es f bytes → ⊥ }
{}

/// Any bytes are documents in turn and then end, or fail after these, and in only one way.
pub fn scans_in_one_way()
    ensures some { (bytes : List ℕ) → ((i : ℕ) → slice_index bytes i < 256) →
        (ds : List Doc) × (end : Option FaultView) × IsDumpScan ds end bytes }
    ensures one { (bytes : List ℕ) (ds es : List Doc) (end other : Option FaultView) →
        IsDumpScan ds end bytes → IsDumpScan es other bytes → (ds ≡ es) × (end ≡ other) }
{}

/// Documents at the start of bytes are the first of their scan.
pub fn scans_on()
    ensures { (ds : List Doc) (prefix rest : List ℕ) →
        ((i : ℕ) → slice_index rest i < 256) → AreJoined ds prefix → (more : List Doc)
        × (end : Option FaultView) × IsDumpScan (ds ++ more) end (prefix ++ rest) }
{}

/// Bytes have no fault exactly if they spell some document.
pub fn no_fault_where_spelled()
    ensures none { (base : ℕ) (bytes : List ℕ) (d : Doc) →
        IsDocument d bytes → first_fault base bytes ≡ None }
    ensures spelled { (base : ℕ) (bytes : List ℕ) → ((i : ℕ) → slice_index bytes i < 256) →
        first_fault base bytes ≡ None → (d : Doc) × IsDocument d bytes }
{}

/// The first fault under the 19 types is that under all types, unless it is a double or a decimal128; or neither has one.
pub fn other_faults_are_first_faults()
    ensures { (base : ℕ) (bytes : List ℕ) → ReportsNoNumber (first_fault base bytes) →
        fault_under All base bytes ≡ first_fault base bytes }
{}

/// A document has no fault under all types.
pub fn documents_have_no_fault()
    ensures { (base : ℕ) (bytes : List ℕ) (d : Doc) → IsDocument d bytes →
        fault_under All base bytes ≡ None }
{}

/// Bytes have no fault under all types exactly if they are a document by value, whatever a number is worth.
pub fn sound_bytes_are_documents()
    ensures none { (worth : ElementType → List ℕ → ℤ) (base : ℕ) (bytes : List ℕ) (d : Doc) →
        IsDocumentBy (valued worth) d bytes → fault_under All base bytes ≡ None }
    ensures some { (worth : ElementType → List ℕ → ℤ) (base : ℕ) (bytes : List ℕ) →
        ((i : ℕ) → slice_index bytes i < 256) → fault_under All base bytes ≡ None →
        (d : Doc) × IsDocumentBy (valued worth) d bytes }
{}
