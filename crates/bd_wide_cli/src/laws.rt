//! Laws of what is printed: the contract of each is the law.

ghost use Rattle.std.specs.Prelude.{◌≡◌, ◌↔◌, ℕ, List, [], ◌∷◌, ◌++◌, Err, None, Ok, Option, Some, false, map};
ghost use Rattle.csv.specs.Reading.{AreRecords, default_config};
ghost use Rattle.csv.specs.Writing.{default_writer, read_back, row_text};
ghost use Rattle.csv.specs.declared.parser.State.TheVariants.{StartRecord};
ghost use Rattle.bd_value.specs.Tree.{Doc};
ghost use Rattle.bd_io_device.specs.Devices.{Over, Reader};
ghost use Rattle.bd_extjson.specs.Read.{ReadsAs};
ghost use Rattle.bd_extjson_fault.specs.declared.json_fault.JsonFault.{JsonFault};
ghost use Rattle.bd_path.specs.Reach.{Names};
ghost use Rattle.bd_cursor_request.specs.{Request.Request, declared.token.Token.Token};
ghost use Rattle.bd_cli_args.specs.FindOptions.{FindOptions};
ghost use Rattle.bd_cli_files.specs.Pack.{advised};
ghost use Rattle.bd_cli.specs.Serve.{serve_run};
ghost use Rattle.bd_cli_find.specs.{Find.find_run, Options.requested_by};
ghost use Rattle.bd_cli_scan.specs.{Dump.ArePieces, Output.Transcript, Output.refusal_output};
ghost use Rattle.bd_wide_dump.specs.WideText.{IsLineOf};
ghost use Rattle.bd_wide_dump.specs.declared.format.JsonFormat.TheVariants.{Canonical};
ghost use Rattle.bd_wide_layout.specs.Layout.{IsPieceOfBytes, LayoutView, closing, csv, opening};
ghost use Rattle.bd_wide_layout.specs.Options.{layout_named};
ghost use Rattle.bd_wide_number.specs.declared.number.Number.{Number};
ghost use Rattle.bd_wide_service.specs.Serve.{wide_serve_run};
ghost use Rattle.bd_wide_substitute.specs.Both.{IsRead, IsUnread};
ghost use Rattle.bd_wide_cli.specs.Command.{query_text};
ghost use Rattle.bd_wide_cli.specs.Dump.{AreRows, laid_out};
ghost use Rattle.bd_wide_cli.specs.Plain.{AskForDocuments, GivesNoNumber, IsReadAlike, no_words, plain_find_run};

use bd_io_device::Input;
use bd_wide_substitute::texts_without_values_stay;

/// The header and the rows of documents are read back by RFC 4180 as the names of the header and the texts of the fields of each
/// document. A row of no field is read as an empty field.
pub fn csv_is_read_back()
    ensures { (names : List (List ℕ)) (columns : List Names) (number : ℕ) (ds : List Doc)
        (pieces : List ℕ) → let header = row_text default_writer names in
        ArePieces (laid_out (csv columns header)) number ds pieces →
        (rows : List (List (List ℕ))) × AreRows columns ds rows
        × AreRecords default_config StartRecord (header ++ pieces)
        (map read_back (names ∷ rows)) }
{}

/// Without a word of a layout nothing changes: each document is its canonical line, and nothing is around the lines.
pub fn documents_are_lines()
    ensures { (layout : LayoutView) × (layout_named no_words ≡ Some layout)
        × (opening layout ≡ []) × (closing layout ≡ [])
        × ((number : ℕ) (bytes piece : List ℕ) →
        IsPieceOfBytes layout number bytes piece ↔ IsLineOf Canonical bytes piece) }
{}

/// A text that `bsonfind` reads as a document has no double, no decimal128, and no date or UUID that is a text: it is the same document
/// for `bsonwide`, and has no fault.
pub fn reads_as_bsonfind()
    ensures read { (text : List ℕ) (d wholes texts : Doc) (numbers : List Number) →
        ReadsAs text d → IsRead text wholes texts numbers →
        (numbers ≡ []) × (wholes ≡ d) × (texts ≡ d) }
    ensures never_unread { (text : List ℕ) (d : Doc) (fault : JsonFault) →
        ReadsAs text d → IsUnread text fault → ⊥ }
{
    texts_without_values_stay();
}

/// `find` prints what `bsonfind find` prints with the same words, but for the name of the program before a message: over a file that
/// `bsonfind` takes, and over one that it refuses for another fault than a double or a decimal128. Options that `bsonfind` refuses are
/// refused with the same message, after which may be what to write instead, and the file is not read.
pub fn finds_as_bsonfind()
    ensures taken { (options : FindOptions) (w : Request × Option Token) (file : Over Reader) →
        requested_by options ≡ Ok w → GivesNoNumber file →
        (output : Transcript) → (plain_find_run options file).IsOutput output →
        (find_run options file).IsOutput output }
    ensures refused { (options : FindOptions) (message : List ℕ) (file : Over Reader) →
        requested_by options ≡ Err message → IsReadAlike (query_text None options) →
        (output : Transcript) → (plain_find_run options file).IsOutput output →
        (advice : Option (List ℕ)) × (output ≡ refusal_output (advised message advice))
        × (file.after ≡ file.before) }
{
    texts_without_values_stay();
}

/// `serve` prints what `bsonfind serve` prints, but for the name of the program before a message: over a file that `bsonfind` takes,
/// and over one that it refuses for another fault than a double or a decimal128, if no command asks for the numbers of documents.
pub fn serves_as_bsonfind<C: Input>(old: &C, new: &C)
    ensures { (file : Over Reader) → GivesNoNumber file →
        AskForDocuments (C.state old.now) (C.state new.now) → (output : Transcript) →
        (wide_serve_run C.state C.read_gives old.now new.now false file).IsOutput output →
        (serve_run C.state C.read_gives old.now new.now file).IsOutput output }
{}
