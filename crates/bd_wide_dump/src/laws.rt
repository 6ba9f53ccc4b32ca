//! Laws of lines. The body of each is empty: its contract is the law.

ghost use Rattle.std.specs.Prelude.{◌≡◌, ℕ, ℤ, List, [], ◌∷◌, ◌++◌, Some, length, map};
ghost use Rattle.std.specs.List.{flat_map};
ghost use Rattle.csv.specs.Reading.{AreRecords, default_config};
ghost use Rattle.csv.specs.Writing.{default_writer, read_back, row_text};
ghost use Rattle.csv.specs.declared.parser.State.TheVariants.{StartRecord};
ghost use Rattle.bd_value.specs.Tree.{Doc, doc, fields_of};
ghost use Rattle.bd_bson_view.specs.Spelling.{IsDocument, IsDocumentBy, NumberKind, number_size, number_type, valued};
ghost use Rattle.bd_extjson_text.specs.Text.{text};
ghost use Rattle.bd_wide_dump.specs.Csv.{follow};
ghost use Rattle.bd_wide_dump.specs.CsvRows.{path_rows, pretty_rows, written_rows};
ghost use Rattle.bd_wide_dump.specs.Pretty.{indented, squeezed};
ghost use Rattle.bd_wide_dump.specs.Projected.{projected};
ghost use Rattle.bd_wide_dump.specs.ProjectedRows.{rows};
ghost use Rattle.bd_wide_dump.specs.Raw.{raw};
ghost use Rattle.bd_wide_dump.specs.RelaxedDate.{IsDateText};
ghost use Rattle.bd_wide_dump.specs.WideText.{AreBytes, IsLineOf};
ghost use Rattle.bd_wide_dump.specs.declared.format.JsonFormat.TheVariants.{Canonical};
ghost use Rattle.bd_wide_dump.specs.declared.pretty.Position.TheVariants.{Outside};

/// Numbers of different types or bits are different whole numbers.
pub fn numbers_differ()
    ensures { (k j : NumberKind) (v w : List ℕ) → AreBytes v → AreBytes w →
        length v ≡ number_size k → length w ≡ number_size j →
        raw (number_type k) v ≡ raw (number_type j) w → (k ≡ j) × (v ≡ w) }
{}

/// The line of a document of the nineteen kinds is its text and a newline: what `bsonfind` prints.
pub fn plain_lines()
    ensures { (d : Doc) (bytes line : List ℕ) → IsDocument d bytes → IsLineOf Canonical bytes line
        → line ≡ text (doc (fields_of d)) ++ 10 ∷ [] }
{}

/// Bytes are at most one document of all types.
pub fn one_wide_document()
    ensures { (d e : Doc) (bytes : List ℕ) → IsDocumentBy (valued raw) d bytes →
        IsDocumentBy (valued raw) e bytes → d ≡ e }
{}

/// Worked projections have their results.
pub fn projections_as_worked()
    ensures { map (λ row. projected row.0 (fields_of row.1)) rows
        ≡ map (λ row. fields_of row.2) rows }
{}

/// A date has one text in relaxed form.
pub fn one_date_text()
    ensures { (z : ℤ) (x y : List ℕ) → IsDateText z x → IsDateText z y → x ≡ y }
{}

/// A text of JSON on many lines is the text but for white space between tokens.
pub fn only_white_space_is_more()
    ensures { (text : List ℕ) → squeezed Outside (indented text) ≡ squeezed Outside text }
{}

/// Rows of CSV, one after the other, are read back as the texts of their fields. A row of no field is read as an empty field.
pub fn csv_rows_read_back()
    ensures { (rows : List (List (List ℕ))) → AreRecords default_config StartRecord
        (flat_map (row_text default_writer) rows) (map read_back rows) }
{}

/// Worked paths lead to their values.
pub fn paths_as_worked()
    ensures { map (λ row. follow (Some (doc (fields_of row.0))) row.1) path_rows
        ≡ map (λ row. row.2) path_rows }
{}

/// Worked rows of CSV have their texts.
pub fn csv_rows_as_worked()
    ensures { map (λ row. row_text default_writer row.0) written_rows
        ≡ map (λ row. row.1) written_rows }
{}

/// Worked texts on many lines are these.
pub fn pretty_texts_as_worked()
    ensures { map (λ row. indented row.0) pretty_rows ≡ map (λ row. row.1) pretty_rows }
{}
