//! A law of a collection that is split into parts. Its body is empty: its contract is the law.

ghost use Rattle.std.specs.Prelude.{◌≡◌, ℕ, List, None, Ok, Option};
ghost use Rattle.std.specs.List.{All, flat_map};
ghost use Rattle.bd_value.specs.{Tree.Doc};
ghost use Rattle.bd_cursor_model.specs.Laws.{IsEnough};
ghost use Rattle.bd_bson_check.specs.Dump.{IsDumpScan};
ghost use Rattle.bd_query_filter.specs.Filter.{Filter};
ghost use Rattle.bd_io_lines.specs.Lines.{text_lines};
ghost use Rattle.bd_path.specs.Sort.{SortPath};
ghost use Rattle.bd_cli_args.specs.FindOptions.{FindOptions};
ghost use Rattle.bd_cursor_request.specs.{Request.Request, declared.token.Token.Token};
ghost use Rattle.bd_cli_find.specs.Find.{IsReadBack, IsOutputOfFind, document_request, documents_output};
ghost use Rattle.bd_cli_find.specs.Options.{requested_by};
ghost use Rattle.bd_cli_scan.specs.{Output.Transcript, Output.lines};
ghost use Rattle.bd_cli_files.specs.{Pack.PacksLines};
ghost use Rattle.bd_extjson_pack.specs.Packable.{plain};

/// A collection may be split between documents, and `find` may search each part: without a skip, and either without a limit or
/// with one that is at least the skip plus the limit of the whole search. The lines of the parts, joined and packed, are a dump
/// for which `find` prints the same lines as for the whole, if the text of each document is read back as that document. Without
/// a batch and a token these lines are the whole output of `find`.
pub fn parts_print_the_whole()
    ensures output { (f : Filter) (ss : List SortPath) (skip limit most : ℕ)
        (parts : List (List Doc)) → IsEnough (document_request f ss skip limit) most →
        lines (documents_output f ss skip limit (flat_map (documents_output f ss 0 most) parts))
        ≡ lines (documents_output f ss skip limit (flat_map (λ ds. ds) parts)) }
    ensures printed { (options : FindOptions) (r : Request) (token : Option Token)
        (ds : List Doc) (bytes : List ℕ) (output : Transcript) →
        options.batch ≡ None → options.after ≡ None → requested_by options ≡ Ok (r, token) →
        IsDumpScan ds None bytes → IsOutputOfFind options (Ok bytes) output →
        output.out ≡ lines (documents_output r.filter r.sorts r.skip r.limit ds) }
    ensures joined { (f : Filter) (ss : List SortPath) (most : ℕ) (parts : List (List Doc)) →
        flat_map (λ ds. lines (documents_output f ss 0 most ds)) parts
        ≡ lines (flat_map (documents_output f ss 0 most) parts) }
    ensures packed { (ds : List Doc) → All IsReadBack ds →
        PacksLines 1 (text_lines (lines ds)) ds None × IsDumpScan ds None (flat_map plain ds) }
{}
