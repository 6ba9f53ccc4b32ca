//! Parses the command line, by `clap`: which arguments are accepted, and the command that they mean.

ghost use Rattle.std.specs.Prelude.{◌≡◌, ◌⊎◌, [], ◌∷◌, ℕ, List, map, true, false, IfErr, IfOk, IsErrOf, IsSome, IsTrue, None, Some, option_map, codes, string_bytes};
ghost use Rattle.clap.specs.Words.{app_of, first_of, found_of, rows_of, rule_of, takes};
ghost use Rattle.clap.specs.declared.builder.command.Command.TheViews.{out-Command as fields_of};
ghost use Rattle.bd_cli_args.specs.CommandLine.{GivesOrder, IsFileCommand, OrderView, fault_for, find_app, find_options_in, is_file_word, is_help_line, is_serve_of_input, line_app, meant, option_number, option_rule, order_of, ordered_by, parser_refusal, serves_input, with_options, words_of};
ghost use Rattle.bd_cli_args.specs.inside.CommandLine.{is_serve_input_line};
ghost use Rattle.bd_cli_args.specs.inside.FileCommands.{IsBuiltAs};
ghost use Rattle.bd_cli_args.specs.declared.order.WordsFault.TheVariants.{NoMemory};

use crate::file_commands::{Made, explain_error, of_file, program_command};
use crate::order::{FindOptions, Order, WordsFault};
use bd_value::GREATEST_COUNT;
use clap::builder::ValueParser;
use clap::{Arg, ArgAction, ArgMatches, Command};
use std::alloc::Global;

/// The answer to a request for help and to invalid arguments.
pub const USAGE: &str = "usage: bsonfind dump FILE
       bsonfind check FILE
       bsonfind pack FILE
       bsonfind find FILE [--query Q] [--sort S] [--skip N] [--limit N] [--batch N] [--index PATH] [--after TOKEN]
       bsonfind serve FILE
";

/// The command that the arguments mean, without the program's name.
///
/// `dump FILE`, `check FILE`, `pack FILE` and `serve FILE` are accepted, and
/// `find FILE [--query Q] [--sort S] [--skip N] [--limit N] [--batch N] [--index PATH] [--after TOKEN]`, N from 0 to
/// 2,147,483,647, with the options in any order, each at most once, and FILE before or after them. `--skip` and `--limit` are 0
/// by default. A file whose name looks like a flag comes after `--`, such as `dump -- -x`. The file of `serve` is not `-`, since
/// the commands of a session come from standard input.
///
/// # Errors
///
/// - `Help` if the arguments request help by a flag, such as `--help` and `dump -h`.
/// - `Usage` if they are invalid otherwise. The word `help` as first argument is no command.
/// - `NoMemory` if memory runs out. The word `help` as first argument, `serve -` and `serve -- -` need none.
#[tactic(auto, using(crate::proofs::LineLemmas::help_line_explained, crate::proofs::LineLemmas::help_line_refused, crate::proofs::LineLemmas::line_of_input))]
pub fn parse_words(alloc: Global, words: &[String]) -> Result<Order, WordsFault>
    ensures order { IfOk result (λ o. order_of (words_of words.now) ≡ Some (meant o)) }
    ensures only_taken { IfOk result (λ _. fault_for (words_of words.now) ≡ None) }
    ensures never_of_input { IfOk result (λ o. is_serve_of_input (meant o) ≡ false) }
    ensures fault { IfErr result (λ f. (f ≡ NoMemory) ⊎ (fault_for (words_of words.now) ≡ Some f)) }
    ensures taken { takes line_app (words_of words.now) ≡ true →
        serves_input (words_of words.now) ≡ false → IfErr result (λ f. f ≡ NoMemory) }
    // A command that takes only a file: the file as it is, or after `--`.
    ensures file { (name file : List ℕ) (order : List ℕ → OrderView) → IsFileCommand name order →
        IsTrue (is_file_word file) → is_serve_of_input (order file) ≡ false →
        words_of words.now ≡ name ∷ file ∷ [] → GivesOrder result (order file) }
    ensures escaped { (name file : List ℕ) (order : List ℕ → OrderView) →
        IsFileCommand name order → is_serve_of_input (order file) ≡ false →
        words_of words.now ≡ name ∷ codes "--" ∷ file ∷ [] → GivesOrder result (order file) }
    ensures serve_input { IsTrue (is_serve_input_line (words_of words.now)) →
        IsErrOf result WordsFault.Usage }
    ensures help_word { IsTrue (is_help_line (words_of words.now)) →
        IsErrOf result WordsFault.Usage }
{
    if begins_with_help(words) {
        return Err(WordsFault::Usage);
    }
    if is_plain_serve_of_input(words) {
        return Err(WordsFault::Usage);
    }
    order_taken(alloc, words)
}

fn begins_with_help(words: &[String]) -> bool
    ensures { result ≡ is_help_line (words_of words.now) }
{
    words.first().is_some_and(|word| word.as_str() == "help")
}

/// Whether the arguments are `serve -` or `serve -- -`.
fn is_plain_serve_of_input(words: &[String]) -> bool
    ensures { result ≡ is_serve_input_line (words_of words.now) }
{
    match words {
        [command, file] => command.as_str() == "serve" && file.as_str() == "-",
        [command, escape, file] => {
            command.as_str() == "serve" && escape.as_str() == "--" && file.as_str() == "-"
        }
        _ => false,
    }
}

/// The command of other arguments: `serve` of standard input is refused in whatever form the parser reads it.
fn order_taken(alloc: Global, words: &[String]) -> Result<Order, WordsFault>
    ensures order { IfOk result (λ o. order_of (words_of words.now) ≡ Some (meant o)) }
    ensures only_taken { IfOk result (λ _. fault_for (words_of words.now) ≡ None) }
    ensures never_of_input { IfOk result (λ o. is_serve_of_input (meant o) ≡ false) }
    ensures fault { IfErr result (λ f. (f ≡ NoMemory) ⊎ (fault_for (words_of words.now) ≡ Some f)) }
    ensures taken { takes line_app (words_of words.now) ≡ true →
        serves_input (words_of words.now) ≡ false → IfErr result (λ f. f ≡ NoMemory) }
{
    let order = order_in(alloc, words)?;
    if orders_serve_of_input(&order) {
        return Err(WordsFault::Usage);
    }
    Ok(order)
}

fn orders_serve_of_input(order: &Order) -> bool
    ensures { result ≡ is_serve_of_input (meant order.now) }
{
    matches!(order, Order::Serve { file } if file.as_str() == "-")
}

/// The command of arguments as the parser reads them, including `serve` of standard input.
fn order_in(alloc: Global, words: &[String]) -> Result<Order, WordsFault>
    ensures order { IfOk result (λ o. order_of (words_of words.now) ≡ Some (meant o)) }
    ensures only_taken { IfOk result (λ _. parser_refusal (words_of words.now) ≡ None) }
    ensures fault { IfErr result (λ f. (f ≡ NoMemory)
        ⊎ (parser_refusal (words_of words.now) ≡ Some f)) }
    ensures taken { takes line_app (words_of words.now) ≡ true → IfErr result (λ f. f ≡ NoMemory) }
{
    let command = line_command(alloc)?;
    let matches = match command.try_get_matches_from(words) {
        Ok(matches) => matches,
        Err(error) => return Err(explain_error(&error)),
    };
    let Some((name, inner)) = matches.subcommand() else {
        unreachable!()
    };
    order_named(alloc, name, inner)
}

/// The command `name` with these matches.
#[tactic(auto, using(crate::proofs::LineLemmas::no_file, crate::proofs::LineLemmas::readings))]
fn order_named(alloc: Global, name: &str, matches: &ArgMatches<'_>) -> Result<Order, WordsFault>
    requires { IsSome (ordered_by name.now (rows_of (found_of matches.now))) }
    ensures order { IfOk result (λ o.
        ordered_by name.now (rows_of (found_of matches.now)) ≡ Some (meant o)) }
    ensures fault { IfErr result (λ f. f ≡ NoMemory) }
{
    let Some(file) = matches.get_str("file") else {
        unreachable!()
    };
    let file = String::from_str(alloc, file)?;
    match name {
        "dump" => Ok(Order::Dump { file }),
        "check" => Ok(Order::Check { file }),
        "pack" => Ok(Order::Pack { file }),
        "find" => {
            let options = options_of(alloc, matches)?;
            Ok(Order::Find { file, options })
        }
        "serve" => Ok(Order::Serve { file }),
        _ => unreachable!(),
    }
}

/// The options in these matches.
pub(crate) fn options_of(alloc: Global, matches: &ArgMatches<'_>) -> Result<FindOptions, WordsFault>
    ensures options { IfOk result (λ o. o ≡ find_options_in (rows_of (found_of matches.now))) }
    ensures fault { IfErr result (λ f. f ≡ NoMemory) }
{
    let query = text_of(alloc, matches, "query")?;
    let sort = text_of(alloc, matches, "sort")?;
    let index = text_of(alloc, matches, "index")?;
    let after = text_of(alloc, matches, "after")?;
    Ok(FindOptions {
        query,
        sort,
        skip: number_of(matches, "skip").unwrap_or(0),
        limit: number_of(matches, "limit").unwrap_or(0),
        batch: number_of(matches, "batch"),
        index,
        after,
    })
}

/// The text of an option, if it is given.
#[tactic(auto, using(crate::proofs::LineLemmas::readings))]
pub(crate) fn text_of(
    alloc: Global,
    found: &ArgMatches<'_>,
    name: &str,
) -> Result<Option<String>, WordsFault>
    ensures text { IfOk result (λ o.
        option_map string_bytes o ≡ first_of name.now (rows_of (found_of found.now))) }
    ensures fault { IfErr result (λ f. f ≡ NoMemory) }
{
    match found.get_str(name) {
        Some(text) => Ok(Some(String::from_str(alloc, text)?)),
        None => Ok(None),
    }
}

/// The number of an option, if it is given.
fn number_of(matches: &ArgMatches<'_>, name: &str) -> Option<u32>
    ensures { result ≡ option_number name.now (rows_of (found_of matches.now)) }
{
    matches.get_one::<u32>(name)
}

/// The program's whole command line.
fn line_command<'a>(alloc: Global) -> Made<'a>
    ensures { IfOk result (IsBuiltAs line_app) }
{
    program_command(alloc, "bsonfind", &FILE_COMMANDS, find_command(alloc)?)
}

/// The commands that take only a file.
const FILE_COMMANDS: [&str; 4] = ["dump", "check", "pack", "serve"];

/// The options of `find`, and whether each takes a number instead of a text.
const OPTIONS: [(&str, bool); 7] = [
    ("query", false),
    ("sort", false),
    ("skip", true),
    ("limit", true),
    ("batch", true),
    ("index", false),
    ("after", false),
];

/// The command `find` with all its options.
pub(crate) fn find_command<'a>(alloc: Global) -> Made<'a>
    ensures { IfOk result (IsBuiltAs find_app) }
{
    with_options(alloc, of_file(alloc, "find")?, &OPTIONS)
}

/// A command with these options added, and whether each takes a number.
pub(crate) fn with_options<'a>(
    alloc: Global,
    command: Command<'a>,
    options: &[(&'a str, bool)],
) -> Made<'a>
    requires { (fields_of command).has_globals ≡ false }
    ensures app { IfOk result (λ c.
        app_of c ≡ with_options (app_of command.entry) (map (λ o. (o.0.now, o.1)) options.now)) }
    ensures local { IfOk result (λ c. (fields_of c).has_globals ≡ false) }
{
    let mut with = command;
    for (name, takes_number) in options {
        with = with.arg(option_argument(alloc, name, *takes_number))?;
    }
    Ok(with)
}

fn option_argument<'a>(alloc: Global, name: &'a str, takes_number: bool) -> Arg<'a>
    ensures { (rule_of result ≡ option_rule name.entry.now takes_number) × (result.global ≡ false) }
{
    let text = Arg::new(alloc, name).long(name).action(ArgAction::Set);
    if takes_number {
        text.value_parser(ValueParser::unsigned(0, GREATEST_COUNT))
    } else {
        text
    }
}
