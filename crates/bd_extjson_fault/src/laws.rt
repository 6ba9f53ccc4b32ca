//! Laws of the fault of a text.
ghost use Rattle.std.specs.Prelude.{◌≡◌, ◌≢◌, ◌↔◌, ℕ, List, length, None, true, is_some};
ghost use Rattle.std.specs.Result.{result_ok};
ghost use Rattle.json.specs.Json.{Json, member, no_members};
ghost use Rattle.json.specs.Word.{after_number};
ghost use Rattle.bd_extjson_wrapper.specs.Wrapper.{single};
ghost use Rattle.bd_extjson_wrapper.specs.declared.wrapper.Wrapper.{Wrapper};
ghost use Rattle.bd_extjson_fault.specs.FaultOffset.{CannotContinue, CouldUntilThere, StaysWithMore};
ghost use Rattle.bd_extjson_fault.specs.JsonFault.{IsLocated, ReportsBadUtf8};
ghost use Rattle.bd_extjson_fault.specs.JsonSyntax.{beyond_number};
ghost use Rattle.bd_extjson_fault.specs.TextFault.{text_fault};
ghost use Rattle.bd_extjson_fault.specs.TreeFault.{members_fault};
ghost use Rattle.bd_extjson_fault.specs.declared.json_fault.JsonFaultKind.TheVariants as kinds;

/// The fault of a text is at a byte in it, or at its end, and never that memory ran out. Bytes that are not UTF-8 are not
/// JSON, at the first that is not.
#[tactic(auto, using(crate::proofs::TextFaultLemmas::reported_located, crate::proofs::TextFaultLemmas::reported_utf8, crate::proofs::TextFaultLemmas::reported_kind))]
pub fn fault_is_located()
    ensures located { (text : List ℕ) → IsLocated (length text) (text_fault text) }
    ensures utf8 { (text : List ℕ) → ReportsBadUtf8 text (text_fault text) }
    ensures kind { (text : List ℕ) → (text_fault text).kind ≢ kinds.NoMemory }
{}

/// A text that is not JSON cannot continue at its fault. Whatever follows the text, the fault stays; and each text with the
/// same bytes up to and with that of the fault has it too, unless an escape of a surrogate begins there.
#[tactic(auto, using(crate::proofs::FaultOffsetLemmas::stays_with_more, crate::proofs::FaultOffsetLemmas::cannot_continue))]
pub fn fault_is_not_early()
    ensures more { (text : List ℕ) → StaysWithMore text }
    ensures byte { (text : List ℕ) → CannotContinue text }
{}

/// Until its fault a text that is not JSON could continue: the bytes before it begin some text that is JSON. Only those that
/// end within an escape of a surrogate may begin none, since a lone one is reported at its backslash.
#[tactic(auto, using(crate::proofs::FaultOffsetLemmas::could_until_there))]
pub fn fault_is_not_late()
    ensures { (text : List ℕ) → CouldUntilThere text }
{}

/// A number is skipped here exactly if the grammar of JSON skips one, and the rest is the same.
#[tactic(auto, using(crate::proofs::NumberLemmas::number_agrees))]
pub fn passes_numbers_of_json()
    ensures { (text : List ℕ) → result_ok (beyond_number text) ≡ after_number text }
{}

/// An object of one name has no fault exactly if its wrapper means a value.
pub fn wrapper_is_value_or_fault()
    ensures { (wrapper : Wrapper) → (name : List ℕ) → (part : Json)
        → (members_fault wrapper (member name part no_members) ≡ None)
        ↔ (is_some (single wrapper part) ≡ true) }
{}
