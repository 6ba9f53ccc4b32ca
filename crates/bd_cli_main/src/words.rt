//! What arguments say without a parser.

ghost use Rattle.std.specs.Prelude.{◌≡◌, codes};
ghost use Rattle.std.specs.Str.{bytes_eq};
ghost use Rattle.bd_cli_args.specs.CommandLine.{words_of};
ghost use Rattle.bd_cli_main.specs.Words.{is_version_line};

/// Whether a FILE is standard input.
pub fn is_standard_input(file: &str) -> bool
    ensures { result ≡ bytes_eq file.now (codes "-") }
{
    file == "-"
}

/// Whether the version is requested, and nothing else.
pub fn requests_version(words: &[String]) -> bool
    ensures { result ≡ is_version_line (words_of words.now) }
{
    match words {
        [word] => word.as_str() == "--version",
        _ => false,
    }
}
