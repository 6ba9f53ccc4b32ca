//! Laws of the commands. The body of each is empty: its contract is the law.

ghost use Rattle.std.specs.Prelude.{◌≡◌, ◌<◌, ◌++◌, ℕ, List, Option, None, Result, Ok, slice_index};
ghost use Rattle.bd_value.specs.{Tree.Doc};
ghost use Rattle.bd_cursor_model.specs.{Session.State, Laws.new_state};
ghost use Rattle.bd_io_device.specs.{declared.reading.ReadFault.ReadFault};
ghost use Rattle.bd_bson_check.specs.Dump.{AreJoined};
ghost use Rattle.bd_cli_args.specs.FindOptions.{FindOptions};
ghost use Rattle.bd_io_lines.specs.{Lines.commands_of, Lines.text_lines, Serving.RepliesInTurn};
ghost use Rattle.bd_cli_service.specs.Talk.{RepliesInText};
ghost use Rattle.bd_bson_check.specs.Fault.{Fault};
ghost use Rattle.bd_bson_dump.specs.CheckResults.{check_results};
ghost use Rattle.bd_cli_scan.specs.{Check.IsOutputOfCheck, Check.check_result_lines, Dump.IsOutputOfDump};
ghost use Rattle.bd_cli_scan.specs.Output.{Transcript, lines};
ghost use Rattle.bd_cli_files.specs.Pack.{IsOutputOfPack, PacksLines};
ghost use Rattle.bd_cli_files.specs.declared.pack.BadLine.{BadLine};
ghost use Rattle.bd_cli_find.specs.Find.{IsOutputOfFind};

/// One thing is printed for each input, and for each list of bytes there is something to print; so also for `check`, for `pack`, and
/// for `find` with any options. `serve` has one text of replies to each text of commands.
pub fn prints_one_thing()
    ensures one { (bytes : List ℕ) (fault : Option ReadFault) (output other : Transcript) →
        IsOutputOfDump bytes fault output → IsOutputOfDump bytes fault other → output ≡ other }
    ensures some { (bytes : List ℕ) → ((i : ℕ) → slice_index bytes i < 256) →
        (output : Transcript) × IsOutputOfDump bytes None output }
    ensures checked_one { (bytes : List ℕ) (fault : Option ReadFault) (output other : Transcript) →
        IsOutputOfCheck bytes fault output → IsOutputOfCheck bytes fault other → output ≡ other }
    ensures checked_some { (bytes : List ℕ) →
        (output : Transcript) × IsOutputOfCheck bytes None output }
    ensures found_one { (options : FindOptions) (input : Result (List ℕ) ReadFault)
        (output other : Transcript) → IsOutputOfFind options input output →
        IsOutputOfFind options input other → output ≡ other }
    ensures found_some { (options : FindOptions) (bytes : List ℕ) →
        ((i : ℕ) → slice_index bytes i < 256) →
        (output : Transcript) × IsOutputOfFind options (Ok bytes) output }
    ensures packed_one { (input : Result (List ℕ) ReadFault) (output other : Transcript) →
        IsOutputOfPack input output → IsOutputOfPack input other → output ≡ other }
    // The documents of a text, and its bad line, are determined too.
    ensures lines_one { (text : List ℕ) (ds es : List Doc) (bad other : Option BadLine) →
        PacksLines 1 (text_lines text) ds bad → PacksLines 1 (text_lines text) es other →
        (ds ≡ es) × (bad ≡ other) }
    ensures packed_some { (text : List ℕ) →
        (output : Transcript) × IsOutputOfPack (Ok text) output }
    ensures served_one { (bytes : List ℕ)
        (ds : List Doc) (commands replies other : List ℕ) (s t : State) →
        RepliesInTurn (RepliesInText bytes ds) new_state (commands_of commands) replies s →
        RepliesInTurn (RepliesInText bytes ds) new_state (commands_of commands) other t →
        (replies ≡ other) × (s ≡ t) }
{}

/// For each input `check` and `dump` have the same status: there is a document with a fault exactly if there is a first fault.
pub fn check_has_the_status_of_dump()
    ensures { (bytes : List ℕ) (fault : Option ReadFault) (output other : Transcript) →
        IsOutputOfDump bytes fault output →
        IsOutputOfCheck bytes fault other → output.status ≡ other.status }
{}

/// What `dump` and `check` wrote before a write failed, or before memory ran out, is a prefix of the output for the input, whatever
/// bytes follow those that were read. For `pack` and `find` their clauses say so themselves.
pub fn prints_a_prefix()
    ensures dump { (bytes given rest : List ℕ) (output : Transcript)
        (ds : List Doc) (prefix more : List ℕ) → ((i : ℕ) → slice_index bytes i < 256) →
        bytes ≡ given ++ rest → IsOutputOfDump bytes None output → AreJoined ds given →
        lines ds ≡ prefix ++ more → (after : List ℕ) × (output.out ≡ prefix ++ after) }
    ensures check { (bytes : List ℕ) (output : Transcript)
        (vs more : List (Option Fault)) → IsOutputOfCheck bytes None output →
        check_results bytes ≡ vs ++ more →
        (after : List ℕ) × (output.out ≡ check_result_lines 0 vs ++ after) }
{}
