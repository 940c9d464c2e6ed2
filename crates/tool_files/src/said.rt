//! The message about words that ask for nothing.

use crate::help::WORDS;
use crate::options::{View, Word};
use crate::request::Refusal;
use crate::shown::Shown;
use std::alloc::Global;
use std::fmt;
use strsim::osa_distance;

/// Says why words ask for nothing, and which words would ask for something.
#[derive(Clone, Copy, Drop)]
pub struct Said<'w> {
    refusal: Refusal<'w>,
    nearest: Option<&'static str>,
}

impl<'w> Said<'w> {
    /// Makes the text of a refusal. The call takes memory to find the nearest name, and without memory it says none.
    pub fn new(alloc: Global, refusal: Refusal<'w>) -> Said<'w> {
        let nearest = match refusal {
            Refusal::UnknownWord(name) => nearest_to(alloc, name, &WORDS),
            Refusal::UnknownOption { word, option } => nearest_to(alloc, option, options_of(word)),
            _ => None,
        };
        Said { refusal, nearest }
    }
}

impl fmt::Display for Said<'_> {
    fn fmt<W: fmt::Write>(&self, f: &mut fmt::Formatter<W>) -> fmt::Result {
        match self.refusal {
            Refusal::NoWord => f.write_str("no word")?,
            Refusal::UnknownWord(name) => write!(f, "no word \"{}\"", Shown(name))?,
            Refusal::UnknownOption { word, option } => {
                write!(f, "{} has no option \"{}\"", name_of(word), Shown(option))?;
            }
            Refusal::NoValue(option) => write!(f, "{option} wants a value: {}", values_of(option))?,
            Refusal::NeedlessValue(option) => write!(f, "{option} takes no value")?,
            Refusal::BadValue { option, value } => {
                write!(
                    f,
                    "{option} {}: {}",
                    Shown(value),
                    values_for(option, value)
                )?;
            }
            Refusal::NeedlessOrder => f.write_str("--order wants --deterministic")?,
            Refusal::Clash(first, second) => write!(f, "{first} and {second} exclude each other")?,
            Refusal::Needless(word) => write!(f, "\"{}\" is one word too many", Shown(word))?,
        }
        if let Some(name) = self.nearest {
            write!(f, "; did you mean \"{name}\"?")?;
        }
        match self.refusal {
            Refusal::NoWord | Refusal::UnknownWord(_) => {
                f.write_str("\ncbor: the words are")?;
                write_list(f, &WORDS)
            }
            Refusal::UnknownOption { word, .. } => {
                write!(f, "\ncbor: the options of {} are", name_of(word))?;
                write_list(f, options_of(word))
            }
            _ => Ok(()),
        }
    }
}

/// Returns the name of a word.
fn name_of(word: Word) -> &'static str {
    match word {
        Word::Check => "check",
        Word::Show(View::Titles) => "dump",
        Word::Show(View::Notation) => "diag",
        Word::Show(View::Json) => "json",
        Word::Encode => "encode",
        Word::Canon => "canon",
        Word::Recode => "recode",
    }
}

/// Returns the names of a word's options.
pub fn options_of(word: Word) -> &'static [&'static str] {
    match word {
        Word::Check => &[
            "--strict",
            "--deterministic",
            "--order",
            "--depth",
            "--one",
            "--skip",
            "--items",
            "--index",
            "--names",
            "--hex",
            "--help",
        ],
        Word::Show(View::Titles) => &[
            "--strict",
            "--depth",
            "--skip",
            "--items",
            "--max",
            "--embedded",
            "--offsets",
            "--color",
            "--hex",
            "--help",
        ],
        Word::Show(View::Notation) => &[
            "--strict",
            "--depth",
            "--skip",
            "--items",
            "--pretty",
            "--exact",
            "--embedded",
            "--hex",
            "--help",
        ],
        Word::Show(View::Json) => &[
            "--strict", "--lossy", "--depth", "--one", "--skip", "--items", "--hex", "--help",
        ],
        Word::Encode => &["--depth", "--one", "--help"],
        Word::Canon => &["--order", "--depth", "--help"],
        Word::Recode => &["--depth", "--skip", "--items", "--help"],
    }
}

/// Returns the values that an option takes.
fn values_of(option: &str) -> &'static str {
    match option {
        "--depth" => "a number of at most 256",
        "--order" => "bytewise or length-first",
        "--skip" | "--items" | "--max" => "a number below 2^64",
        "--embedded" => "tagged, or no value",
        _ => "always, never or auto",
    }
}

/// Returns the text about a value that an option does not take. A number passes the limit.
fn values_for(option: &str, value: &str) -> &'static str {
    let bytes = value.as_bytes();
    let is_number = bytes.first().is_some_and(|byte| *byte != b'0')
        && bytes.iter().all(|byte| byte.is_ascii_digit());
    match option {
        "--depth" if is_number => "at most 256",
        _ => values_of(option),
    }
}

/// Writes names after a space each, with commas between them.
fn write_list<W: fmt::Write>(f: &mut fmt::Formatter<W>, names: &[&'static str]) -> fmt::Result {
    let mut comma = "";
    for name in names {
        write!(f, "{comma} {name}")?;
        comma = ",";
    }
    Ok(())
}

/// Returns the name that is nearest to a word, if at most two edits lead from the word to the name.
fn nearest_to(alloc: Global, word: &str, names: &[&'static str]) -> Option<&'static str> {
    if word.len() > 32 {
        return None;
    }
    let mut best = None;
    let mut least = 3;
    for name in names {
        let Ok(distance) = osa_distance(alloc, word, name) else {
            return best;
        };
        if distance > 0 && distance < least {
            least = distance;
            best = Some(*name);
        }
    }
    best
}
