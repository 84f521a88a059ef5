//! What the words ask for, from the values of their options.
ghost use Rattle.std.specs.Prelude.{◌≡◌, IfOk, IfSome, map, string_bytes, option_map};
ghost use Rattle.hp_words.specs.Settings.{asks_for_page_alone, cutting_of, drill_of, elements_of, form_of, guess_of, has_separator, make_of, page_of, setting_of, settings};
ghost use Rattle.hp_words.specs.Options.{texts_of};
ghost use Rattle.hp_words.specs.Within.{IsWithin};

use crate::command::find_options;
use crate::numbers::{number, number_or, places, small_number};
use crate::options::Options;
use crate::setting::{CutSetting, OutputForm, PageSetting, SelectorText, Setting};
use crate::words::Words;
use hp_predict::GuessKind;
use hp_text::NoMemory;
use std::alloc::Global;

/// The most workers.
const MAX_WORKERS: u32 = 64;

/// How many workers there are where the words don't say.
const DEFAULT_WORKERS: u32 = 4;

/// The least size of a chunk, in bytes.
const MIN_CHUNK: u32 = 64;

/// The size of a chunk where the words don't say, in bytes.
const DEFAULT_CHUNK: u32 = 65_536;

/// The most bytes of a page, and of a chunk.
const MAX_BYTES: u32 = 16_777_216;

/// The most bytes of a selector.
const MAX_SELECTOR: usize = 1_024;

/// What the words ask for. `None` exactly where they are wrong usage. It fails only for want of memory.
pub fn read_setting(alloc: Global, words: &Words) -> Result<Option<Setting>, NoMemory>
    ensures setting { IfOk result (λ setting. setting ≡ settings words.now) }
    ensures within { IfOk result (λ setting. IfSome setting IsWithin) }
{
    setting_in(alloc, words.as_slice())
}

/// What a list of words asks for.
fn setting_in(alloc: Global, words: &[String]) -> Result<Option<Setting>, NoMemory>
    ensures { IfOk result (λ setting. setting ≡ settings (map string_bytes words.now)) }
{
    if has_separator(words) {
        return Ok(None);
    }
    match find_options(alloc, words)? {
        Some(options) => setting_of(alloc, &options),
        None => Ok(None),
    }
}

/// Whether a word is `--`.
fn has_separator(words: &[String]) -> bool
    ensures { result ≡ has_separator (map string_bytes words.now) }
{
    words.iter().any(|word| word.as_str() == "--")
}

/// The setting of the options.
fn setting_of(alloc: Global, options: &Options<'_>) -> Result<Option<Setting>, NoMemory>
    ensures { IfOk result (λ setting. setting ≡ setting_of (texts_of options.now)) }
{
    match (options.make, options.drill, options.bytes) {
        (None, None, None) => page_of(alloc, options),
        (Some(seed), None, Some(bytes)) => Ok(make_of(seed, bytes, options)),
        (None, Some(seed), Some(bytes)) => Ok(drill_of(seed, bytes, options)),
        _ => Ok(None),
    }
}

/// How the page on the standard input is parsed.
fn page_of(alloc: Global, options: &Options<'_>) -> Result<Option<Setting>, NoMemory>
    ensures { IfOk result (λ setting. setting ≡ page_of (texts_of options.now)) }
{
    let Some(workers) = number_or(DEFAULT_WORKERS, options.workers, 1, MAX_WORKERS) else {
        return Ok(None);
    };
    let Some(guess) = guess_of(options.guess) else {
        return Ok(None);
    };
    let Some(cutting) = cutting_of(alloc, options.cuts, options.chunk)? else {
        return Ok(None);
    };
    let Some(form) = form_of(alloc, options.html, options.select)? else {
        return Ok(None);
    };
    Ok(Some(Setting::Page(PageSetting {
        workers,
        cutting,
        guess,
        report: options.report,
        form,
    })))
}

/// Where the page is cut. Listed cuts and the size of a chunk exclude each other.
fn cutting_of(
    alloc: Global,
    cuts: Option<&str>,
    chunk: Option<&str>,
) -> Result<Option<CutSetting>, NoMemory>
    ensures { IfOk result (λ cutting. cutting ≡ cutting_of (option_map (λ text. text.now) cuts.entry) (option_map (λ text. text.now) chunk.entry)) }
{
    match (cuts, chunk) {
        (None, chunk) => Ok(number_or(DEFAULT_CHUNK, chunk, MIN_CHUNK, MAX_BYTES).map(
            |size| CutSetting::AtTags { size },
        )),
        (Some(cuts), None) => Ok(places(alloc, cuts)?.map(|places| CutSetting::Listed { places })),
        (Some(_), Some(_)) => Ok(None),
    }
}

/// The predictor of this name.
fn guess_of(name: Option<&str>) -> Option<GuessKind>
    ensures { result ≡ guess_of (option_map (λ text. text.now) name.entry) }
{
    match name {
        None | Some("prescan") => Some(GuessKind::Prescan),
        Some("quiet") => Some(GuessKind::Quiet),
        Some("contrary") => Some(GuessKind::Contrary),
        Some(_) => None,
    }
}

/// As what the tree is written. HTML and a selector exclude each other.
fn form_of(
    alloc: Global,
    html: bool,
    selector: Option<&str>,
) -> Result<Option<OutputForm>, NoMemory>
    ensures { IfOk result (λ form. form ≡ form_of html (option_map (λ text. text.now) selector.entry)) }
{
    match (html, selector) {
        (false, None) => Ok(Some(OutputForm::PrintedTree)),
        (true, None) => Ok(Some(OutputForm::HtmlText)),
        (false, Some(text)) => elements_of(alloc, text),
        (true, Some(_)) => Ok(None),
    }
}

/// The elements that a selector matches are written, where its text isn't too long.
fn elements_of(alloc: Global, text: &str) -> Result<Option<OutputForm>, NoMemory>
    ensures { IfOk result (λ form. form ≡ elements_of text.now) }
{
    if text.len() > MAX_SELECTOR {
        return Ok(None);
    }
    let selector = SelectorText::new(alloc, text)?;
    Ok(Some(OutputForm::Elements { selector }))
}

/// Whether an option is given that no mode allows.
fn asks_for_page_alone(options: &Options<'_>) -> bool
    ensures { result ≡ asks_for_page_alone (texts_of options.now) }
{
    options.cuts.is_some()
        || options.guess.is_some()
        || options.report
        || options.html
        || options.select.is_some()
}

/// The page of a seed is written, with no other option.
fn make_of(seed: &str, bytes: &str, options: &Options<'_>) -> Option<Setting>
    ensures { result ≡ make_of seed.now bytes.now (texts_of options.now) }
{
    if asks_for_page_alone(options) || options.workers.is_some() || options.chunk.is_some() {
        return None;
    }
    let seed = number(seed, 0, u64::MAX)?;
    let bytes = small_number(bytes, 1, MAX_BYTES)?;
    Some(Setting::Make { seed, bytes })
}

/// The page of a seed is parsed in each way, with no option but workers and chunk.
fn drill_of(seed: &str, bytes: &str, options: &Options<'_>) -> Option<Setting>
    ensures { result ≡ drill_of seed.now bytes.now (texts_of options.now) }
{
    if asks_for_page_alone(options) {
        return None;
    }
    let seed = number(seed, 0, u64::MAX)?;
    let bytes = small_number(bytes, 1, MAX_BYTES)?;
    let workers = number_or(DEFAULT_WORKERS, options.workers, 1, MAX_WORKERS)?;
    let chunk = number_or(DEFAULT_CHUNK, options.chunk, MIN_CHUNK, MAX_BYTES)?;
    Some(Setting::Drill {
        seed,
        bytes,
        workers,
        chunk,
    })
}
