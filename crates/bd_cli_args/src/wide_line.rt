//! The command line of `bsonwide`: which arguments are accepted, and the command that they mean.

ghost use Rattle.std.specs.Prelude.{◌≡◌, ◌⊎◌, map, true, false, IfErr, IfOk, IsSome, None, Some};
ghost use Rattle.clap.specs.Words.{app_of, found_of, rows_of, rule_of, takes};
ghost use Rattle.clap.specs.declared.builder.command.Command.TheViews.{out-Command as fields_of};
ghost use Rattle.bd_cli_args.specs.CommandLine.{words_of};
ghost use Rattle.bd_cli_args.specs.inside.FileCommands.{IsBuiltAs};
ghost use Rattle.bd_cli_args.specs.declared.order.WordsFault.TheVariants.{NoMemory};
ghost use Rattle.bd_cli_args.specs.WideLine.{conflicts, conflicts_in, counts_more, dump_app, fault_for, find_app, flag_in, flag_rule, form_in, is_input, is_serve_of_input, lays_out, layout_in, line_app, meant, option_in, order_of, ordered_by, parser_refusal, prints_no_text, queries_twice, serve_app, serves_input, with_flags, with_layout};

use crate::command_line::{find_command, options_of, text_of, with_options};
use crate::file_commands::{Made, explain_error, of_file, program_command};
use crate::order::{FindOptions, WordsFault};
use clap::{Arg, ArgAction, ArgMatches, Command};
use std::alloc::Global;
use std::marker::Model;

/// A command with its file. The file `-` is standard input.
#[derive(Debug, Drop)]
pub enum WideOrder {
    /// The text of each document, as these options lay it out.
    Dump {
        file: String,
        layout: LayoutOptions,
    },
    /// A line for each document that has a fault.
    Check {
        file: String,
    },
    /// Each line of text as a document.
    Pack {
        file: String,
    },
    /// The documents that the options select, in this form.
    Find {
        file: String,
        /// The file of the query, in place of that of the options.
        query_file: Option<String>,
        options: FindOptions,
        /// How their texts are laid out. In accepted arguments none of these options is given beside another form.
        layout: LayoutOptions,
        form: Form,
    },
    /// A session over the dump `file`. `file` is never `-` in accepted arguments: the commands come from standard input.
    Serve {
        file: String,
        /// Whether a dump without doubles and decimal128 is served by value too.
        by_value: bool,
    },
}

/// How the texts of documents are laid out, as the options say it.
#[derive(Debug, Drop)]
pub struct LayoutOptions {
    /// The word of `--type`.
    pub output: Option<String>,
    /// The word of `--jsonFormat`.
    pub format: Option<String>,
    /// The text of `--fields`.
    pub fields: Option<String>,
    /// Whether `--noId` is given.
    pub no_id: bool,
    /// Whether `--noHeaderLine` is given.
    pub no_header: bool,
    /// Whether `--jsonArray` is given.
    pub is_array: bool,
    /// Whether `--pretty` is given.
    pub is_pretty: bool,
}

impl Model for LayoutOptions {
    ghost use Rattle.std.specs.Prelude.{option_map, string_bytes};
    ghost use Rattle.bd_cli_args.specs.LayoutOptions as options;

    ghost Value = { options.LayoutOptions };

    ghost view = { λ o. record {
      output = option_map string_bytes o.output;
      format = option_map string_bytes o.format;
      fields = option_map string_bytes o.fields;
      no_id = o.no_id;
      no_header = o.no_header;
      is_array = o.is_array;
      is_pretty = o.is_pretty;
    } };
}

/// What `find` prints of the documents that it finds.
#[derive(Debug, Clone, Copy, Drop, PartialEq)]
pub enum Form {
    /// Their texts.
    Lines,
    /// Their bytes.
    Bson,
    /// How many they are.
    Count,
}

/// The command that the arguments mean, without the program's name.
///
/// `dump FILE [LAYOUT]`, `check FILE`, `pack FILE` and `serve FILE [--byValue]` are accepted, and
/// `find FILE [--query Q | --queryFile FILE] [--sort S] [--skip N] [--limit N] [--batch N] [--index PATH] [--after TOKEN]
/// [LAYOUT | --bson | --count]`, N from 0 to 2,147,483,647, with the options in any order, each at most once, and FILE before or
/// after them. `--skip` and `--limit` are 0 by default. `--count` takes neither `--batch` nor `--bson` beside it, and only one of
/// the two files is `-`. LAYOUT is any of `--type TYPE`, `--jsonFormat FORMAT`, `--fields FIELDS`, `--noId`, `--noHeaderLine`,
/// `--jsonArray` and `--pretty`. A file whose name looks like a flag comes after `--`. The file of `serve` is not `-`, since the
/// commands of a session come from standard input.
///
/// # Errors
///
/// - `Help` if the arguments request help by a flag, such as `--help` and `check -h`.
/// - `Usage` if they are invalid otherwise.
/// - `NoMemory` if memory runs out.
pub fn parse_wide_words(alloc: Global, words: &[String]) -> Result<WideOrder, WordsFault>
    ensures order { IfOk result (λ o. order_of (words_of words.now) ≡ Some (meant o)) }
    ensures only_taken { IfOk result (λ _. fault_for (words_of words.now) ≡ None) }
    ensures never_of_input { IfOk result (λ o. is_serve_of_input (meant o) ≡ false) }
    ensures fault { IfErr result (λ f. (f ≡ NoMemory) ⊎ (fault_for (words_of words.now) ≡ Some f)) }
    ensures taken { takes line_app (words_of words.now) ≡ true →
        conflicts_in (words_of words.now) ≡ false → serves_input (words_of words.now) ≡ false →
        IfErr result (λ f. f ≡ NoMemory) }
{
    let order = order_in(alloc, words)?;
    if orders_serve_of_input(&order) {
        return Err(WordsFault::Usage);
    }
    Ok(order)
}

fn orders_serve_of_input(order: &WideOrder) -> bool
    ensures { result ≡ is_serve_of_input (meant order.now) }
{
    matches!(order, WideOrder::Serve { file, .. } if file.as_str() == "-")
}

/// The command of arguments as the parser reads them, including `serve` of standard input.
fn order_in(alloc: Global, words: &[String]) -> Result<WideOrder, WordsFault>
    ensures order { IfOk result (λ o. order_of (words_of words.now) ≡ Some (meant o)) }
    ensures only_taken { IfOk result (λ _. parser_refusal (words_of words.now) ≡ None) }
    ensures fault { IfErr result (λ f. (f ≡ NoMemory)
        ⊎ (parser_refusal (words_of words.now) ≡ Some f)) }
    ensures taken { takes line_app (words_of words.now) ≡ true →
        conflicts_in (words_of words.now) ≡ false → IfErr result (λ f. f ≡ NoMemory) }
{
    let command = line_command(alloc)?;
    let matches = match command.try_get_matches_from(words) {
        Ok(matches) => matches,
        Err(error) => return Err(explain_error(&error)),
    };
    let Some((name, inner)) = matches.subcommand() else {
        unreachable!()
    };
    if conflicts(inner) {
        return Err(WordsFault::Usage);
    }
    order_named(alloc, name, inner)
}

/// Whether options do not go together.
fn conflicts(matches: &ArgMatches<'_>) -> bool
    ensures { result ≡ conflicts (rows_of (found_of matches.now)) }
{
    counts_more(matches) || queries_twice(matches) || prints_no_text(matches)
}

/// Whether `--bson` or `--count` is given, and an option of a layout beside it.
fn prints_no_text(matches: &ArgMatches<'_>) -> bool
    ensures { result ≡ prints_no_text (rows_of (found_of matches.now)) }
{
    (is_set(matches, "bson") || is_set(matches, "count")) && lays_out(matches)
}

/// Whether an option of a layout is given.
fn lays_out(matches: &ArgMatches<'_>) -> bool
    ensures { result ≡ lays_out (rows_of (found_of matches.now)) }
{
    (is_given(matches, "type") || is_given(matches, "jsonFormat") || is_given(matches, "fields"))
        || (is_set(matches, "noId") || is_set(matches, "noHeaderLine"))
        || (is_set(matches, "jsonArray") || is_set(matches, "pretty"))
}

/// Whether `--count` is given, and `--bson` or `--batch` beside it.
fn counts_more(matches: &ArgMatches<'_>) -> bool
    ensures { result ≡ counts_more (rows_of (found_of matches.now)) }
{
    is_set(matches, "count") && (is_set(matches, "bson") || is_given(matches, "batch"))
}

/// Whether `--query` and `--queryFile` are given, or the dump and the query are both read from standard input.
fn queries_twice(matches: &ArgMatches<'_>) -> bool
    ensures { result ≡ queries_twice (rows_of (found_of matches.now)) }
{
    is_given(matches, "query") && is_given(matches, "queryFile")
        || is_input(matches, "file") && is_input(matches, "queryFile")
}

/// Whether an option is given.
fn is_given(matches: &ArgMatches<'_>, name: &str) -> bool
    ensures { result ≡ option_in name.now (rows_of (found_of matches.now)) }
{
    matches.get_str(name).is_some()
}

/// Whether FILE or an option is given as standard input, `-`.
#[tactic(auto, using(crate::proofs::WideLineLemmas::readings))]
fn is_input(matches: &ArgMatches<'_>, name: &str) -> bool
    ensures { result ≡ is_input name.now (rows_of (found_of matches.now)) }
{
    matches.get_str(name).is_some_and(|text| text == "-")
}

/// Whether a flag is given.
#[tactic(auto, using(crate::proofs::WideLineLemmas::readings))]
fn is_set(matches: &ArgMatches<'_>, name: &str) -> bool
    ensures { result ≡ flag_in name.now (rows_of (found_of matches.now)) }
{
    matches.get_str(name).is_some_and(|text| text == "true")
}

/// The options of a layout in these matches.
fn layout_of(alloc: Global, matches: &ArgMatches<'_>) -> Result<LayoutOptions, WordsFault>
    ensures options { IfOk result (λ o. o ≡ layout_in (rows_of (found_of matches.now))) }
    ensures fault { IfErr result (λ f. f ≡ NoMemory) }
{
    let output = text_of(alloc, matches, "type")?;
    let format = text_of(alloc, matches, "jsonFormat")?;
    let fields = text_of(alloc, matches, "fields")?;
    Ok(LayoutOptions {
        output,
        format,
        fields,
        no_id: is_set(matches, "noId"),
        no_header: is_set(matches, "noHeaderLine"),
        is_array: is_set(matches, "jsonArray"),
        is_pretty: is_set(matches, "pretty"),
    })
}

/// The form that the flags request.
fn form_of(matches: &ArgMatches<'_>) -> Form
    ensures { result ≡ form_in (rows_of (found_of matches.now)) }
{
    if is_set(matches, "count") {
        Form::Count
    } else if is_set(matches, "bson") {
        Form::Bson
    } else {
        Form::Lines
    }
}

/// The command `name` with these matches.
#[tactic(auto, using(crate::proofs::WideLineLemmas::no_file, crate::proofs::WideLineLemmas::readings))]
fn order_named(alloc: Global, name: &str, matches: &ArgMatches<'_>) -> Result<WideOrder, WordsFault>
    requires { IsSome (ordered_by name.now (rows_of (found_of matches.now))) }
    ensures order { IfOk result (λ o. ordered_by name.now (rows_of (found_of matches.now)) ≡ Some
        (meant o)) }
    ensures fault { IfErr result (λ f. f ≡ NoMemory) }
{
    let Some(file) = matches.get_str("file") else {
        unreachable!()
    };
    let file = String::from_str(alloc, file)?;
    match name {
        "dump" => {
            let layout = layout_of(alloc, matches)?;
            Ok(WideOrder::Dump { file, layout })
        }
        "check" => Ok(WideOrder::Check { file }),
        "pack" => Ok(WideOrder::Pack { file }),
        "find" => {
            let query_file = text_of(alloc, matches, "queryFile")?;
            let options = options_of(alloc, matches)?;
            let layout = layout_of(alloc, matches)?;
            let form = form_of(matches);
            Ok(WideOrder::Find {
                file,
                query_file,
                options,
                layout,
                form,
            })
        }
        "serve" => {
            let by_value = is_set(matches, "byValue");
            Ok(WideOrder::Serve { file, by_value })
        }
        _ => unreachable!(),
    }
}

/// The program's whole command line.
fn line_command<'a>(alloc: Global) -> Made<'a>
    ensures { IfOk result (IsBuiltAs line_app) }
{
    let line = program_command(alloc, "bsonwide", &FILE_COMMANDS, flagged_command(alloc)?)?;
    let line = line.subcommand(dump_command(alloc)?)?;
    line.subcommand(serve_command(alloc)?)
}

/// The command `dump` with a file and a layout.
fn dump_command<'a>(alloc: Global) -> Made<'a>
    ensures { IfOk result (IsBuiltAs dump_app) }
{
    with_layout(alloc, of_file(alloc, "dump")?)
}

/// The options of a layout that take a text.
const LAYOUT_OPTIONS: [(&str, bool); 3] = [
    ("type", false),
    ("jsonFormat", false),
    ("fields", false),
];

/// The flags of a layout.
const LAYOUT_FLAGS: [&str; 4] = ["noId", "noHeaderLine", "jsonArray", "pretty"];

/// A command with the options of a layout added.
fn with_layout<'a>(alloc: Global, command: Command<'a>) -> Made<'a>
    requires { (fields_of command).has_globals ≡ false }
    ensures { IfOk result (IsBuiltAs (with_layout (app_of command.entry))) }
{
    let with = with_options(alloc, command, &LAYOUT_OPTIONS)?;
    with_flags(alloc, with, &LAYOUT_FLAGS)
}

/// A command with these flags added.
fn with_flags<'a>(alloc: Global, command: Command<'a>, names: &[&'a str]) -> Made<'a>
    requires { (fields_of command).has_globals ≡ false }
    ensures app { IfOk result (λ c.
        app_of c ≡ with_flags (app_of command.entry) (map (λ name. name.now) names.now)) }
    ensures local { IfOk result (λ c. (fields_of c).has_globals ≡ false) }
{
    let mut with = command;
    for name in names {
        with = with.arg(flag_argument(alloc, name))?;
    }
    Ok(with)
}

/// The command `serve` with its flag.
fn serve_command<'a>(alloc: Global) -> Made<'a>
    ensures { IfOk result (IsBuiltAs serve_app) }
{
    of_file(alloc, "serve")?.arg(flag_argument(alloc, "byValue"))
}

/// The command `find` with all its options and flags.
fn flagged_command<'a>(alloc: Global) -> Made<'a>
    ensures { IfOk result (IsBuiltAs find_app) }
{
    let command = with_options(alloc, find_command(alloc)?, &[("queryFile", false)])?;
    let command = command.arg(flag_argument(alloc, "count"))?;
    let command = command.arg(flag_argument(alloc, "bson"))?;
    with_layout(alloc, command)
}

fn flag_argument<'a>(alloc: Global, name: &'a str) -> Arg<'a>
    ensures { (rule_of result ≡ flag_rule name.entry.now) × (result.global ≡ false) }
{
    Arg::new(alloc, name).long(name).action(ArgAction::SetTrue)
}

/// The commands that take only a file.
const FILE_COMMANDS: [&str; 2] = ["check", "pack"];
