//! The values of the options.
ghost use Rattle.std.specs.Prelude.{◌≡◌, option_map};
ghost use Rattle.clap.specs.Words.{first_of, found_of, rows_of};
ghost use Rattle.hp_words.specs.Options.{is_from_word, is_given, options_in, texts_of};

use clap::ArgMatches;
use clap::parser::ValueSource;

/// The values of the options as they stand in the words, and which of those without a value are there.
#[derive(Clone, Copy)]
pub struct Options<'a> {
    pub workers: Option<&'a str>,
    pub chunk: Option<&'a str>,
    pub cuts: Option<&'a str>,
    pub guess: Option<&'a str>,
    pub report: bool,
    pub html: bool,
    pub select: Option<&'a str>,
    pub make: Option<&'a str>,
    pub drill: Option<&'a str>,
    pub bytes: Option<&'a str>,
}

/// The value of an option.
fn value<'a>(matches: &ArgMatches<'a>, name: &str) -> Option<&'a str>
    ensures { option_map (λ text. text.now) result ≡ first_of name.now (rows_of (found_of matches.now)) }
{
    matches.get_str(name)
}

/// Whether a value comes from a word, and is no default.
fn is_from_word(source: Option<ValueSource>) -> bool
    ensures { result ≡ is_from_word source }
{
    matches!(source, Some(ValueSource::CommandLine))
}

/// Whether an option stands in a word.
fn is_given(matches: &ArgMatches<'_>, name: &str) -> bool
    ensures { result ≡ is_given name.now (rows_of (found_of matches.now)) }
{
    is_from_word(matches.value_source(name))
}

/// The options of what clap found.
pub fn options_found<'a>(matches: &ArgMatches<'a>) -> Options<'a>
    ensures { texts_of result ≡ options_in (rows_of (found_of matches.now)) }
{
    Options {
        workers: value(matches, "workers"),
        chunk: value(matches, "chunk"),
        cuts: value(matches, "cuts"),
        guess: value(matches, "guess"),
        report: is_given(matches, "report"),
        html: is_given(matches, "html"),
        select: value(matches, "select"),
        make: value(matches, "make"),
        drill: value(matches, "drill"),
        bytes: value(matches, "bytes"),
    }
}
