//! The requests of lines.

ghost use Rattle.std.specs.Prelude.{IfNone, IfOk, IfSome};

use crate::number::{MOST_DEPTH, MOST_NUMBER, MOST_SIZE, limit_of, number_up_to};
use crate::word::bytes_of;
use std::alloc::{AllocError, Global};

/// A number, and bytes.
#[derive(Drop)]
pub struct Numbered {
    /// The size of a buffer, a count of elements or a depth, by the request.
    pub number: usize,
    /// The bytes that are read or copied.
    pub bytes: Vec<u8>,
}

impl Numbered {
    ghost use Rattle.tool_requests.specs.declared.request.Numbered.{Numbered};
    ghost use Rattle.tool_requests.specs.Request.{SpellsNumbered};

    /// Reads two words, with exactly one space between them: a number of at most `most`, and bytes.
    ///
    /// The call returns `None` for other words. The error says that there is no memory for the bytes.
    fn parse(alloc: Global, most: u32, words: &str) -> Result<Option<Numbered>, AllocError>
        ensures some { IfOk result (λ found. IfSome found (SpellsNumbered most words.now)) }
        ensures none { IfOk result (λ found. IfNone found
            ((asked : Numbered) → SpellsNumbered most words.now asked → ⊥)) }
    {
        let Some((first, word)) = words.split_once(' ') else {
            return Ok(None);
        };
        let Some(number) = number_up_to(most, first) else {
            return Ok(None);
        };
        match bytes_of(alloc, word)? {
            Some(bytes) => Ok(Some(Numbered { number, bytes })),
            None => Ok(None),
        }
    }
}

/// A limit on the length of segments, and the value that is written.
#[derive(Drop)]
pub struct Limited {
    /// How many bytes a segment has at most, if there is a limit.
    pub limit: Option<usize>,
    /// The bytes that are written.
    pub bytes: Vec<u8>,
}

impl Limited {
    ghost use Rattle.tool_requests.specs.declared.request.Limited.{Limited};
    ghost use Rattle.tool_requests.specs.Request.{SpellsLimited};

    /// Reads two words, with exactly one space between them: a limit, and bytes.
    ///
    /// The call returns `None` for other words. The error says that there is no memory for the bytes.
    fn parse(alloc: Global, words: &str) -> Result<Option<Limited>, AllocError>
        ensures some { IfOk result (λ found. IfSome found (SpellsLimited words.now)) }
        ensures none { IfOk result (λ found. IfNone found ((asked : Limited) → SpellsLimited words.now asked → ⊥)) }
    {
        let Some((first, word)) = words.split_once(' ') else {
            return Ok(None);
        };
        let Some(limit) = limit_of(first) else {
            return Ok(None);
        };
        match bytes_of(alloc, word)? {
            Some(bytes) => Ok(Some(Limited { limit, bytes })),
            None => Ok(None),
        }
    }
}

/// The first word of a line.
#[derive(Drop)]
enum Command {
    Heads,
    Chunks,
    Bytes,
    Text,
    Recode,
    Strict,
    Skip,
}

impl Command {
    ghost use Rattle.std.specs.Prelude.{◌≡◌};
    ghost use Rattle.tool_requests.specs.Request.{name_of};
    ghost use Rattle.tool_requests.specs.declared.request.Command.{Command};

    /// Returns the command of this name, if there is one.
    fn named(name: &str) -> Option<Command>
        ensures some { IfSome result (λ command. name.now ≡ name_of command) }
        ensures none { IfNone result ((command : Command) → name.now ≡ name_of command → ⊥) }
    {
        match name {
            "heads" => Some(Command::Heads),
            "chunks" => Some(Command::Chunks),
            "bytes" => Some(Command::Bytes),
            "text" => Some(Command::Text),
            "recode" => Some(Command::Recode),
            "strict" => Some(Command::Strict),
            "skip" => Some(Command::Skip),
            _ => None,
        }
    }
}

/// The request of a line.
#[derive(Drop)]
pub enum Request {
    /// `heads HEX`: the headers of the titles that the bytes spell, one after the other.
    Heads(Vec<u8>),
    /// `chunks SIZE HEX`: the string that the bytes begin with, read through a buffer of this size, at most 65,536.
    Chunks(Numbered),
    /// `bytes LIMIT HEX`: the spelling of a byte string.
    Bytes(Limited),
    /// `text LIMIT HEX`: the spelling of a text string.
    Text(Limited),
    /// `recode COUNT HEX`: a copy of `COUNT` elements that the bytes begin with, at most 4,294,967,295.
    Recode(Numbered),
    /// `strict COUNT HEX`: the same copy by a strict decoder.
    Strict(Numbered),
    /// `skip DEPTH HEX`: the item that the bytes begin with, skipped, to a depth of at most 256.
    Skip(Numbered),
}

impl Request {
    ghost use Rattle.std.specs.Prelude.{◌≡◌};
    ghost use Rattle.tool_requests.specs.Request.{Asks, Spells, command_of};
    ghost use Rattle.tool_requests.specs.declared.request.Command.{Command};

    /// Reads a line, given without its line feed. Exactly one space stands between two words.
    ///
    /// The call returns `None` if the line is no request. The error says that there is no memory for the request.
    pub fn parse(alloc: Global, line: &[u8]) -> Result<Option<Request>, AllocError>
        ensures some { IfOk result (λ found. IfSome found (Asks line.now)) }
        ensures none { IfOk result (λ found. IfNone found ((request : Request) → Asks line.now request → ⊥)) }
    {
        match std::str::from_utf8(line) {
            Ok(text) => Request::from_text(alloc, text),
            Err(_) => Ok(None),
        }
    }

    /// Reads a line that is text.
    fn from_text(alloc: Global, text: &str) -> Result<Option<Request>, AllocError>
        ensures some { IfOk result (λ found. IfSome found (Asks text.now)) }
        ensures none { IfOk result (λ found. IfNone found ((request : Request) → Asks text.now request → ⊥)) }
    {
        let Some((name, words)) = text.split_once(' ') else {
            return Ok(None);
        };
        match Command::named(name) {
            Some(command) => Request::of_words(alloc, command, words),
            None => Ok(None),
        }
    }

    /// Reads the words of a request.
    fn of_words(alloc: Global, command: Command, words: &str) -> Result<Option<Request>, AllocError>
        ensures some { IfOk result (λ found. IfSome found (λ request. (command_of request ≡ command)
            × Spells words.now request)) }
        ensures none { IfOk result (λ found. IfNone found ((request : Request)
            → command_of request ≡ command → Spells words.now request → ⊥)) }
    {
        let found = match command {
            Command::Heads => match bytes_of(alloc, words)? {
                Some(bytes) => Request::Heads(bytes),
                None => return Ok(None),
            },
            Command::Chunks => match Numbered::parse(alloc, MOST_SIZE, words)? {
                Some(asked) => Request::Chunks(asked),
                None => return Ok(None),
            },
            Command::Bytes => match Limited::parse(alloc, words)? {
                Some(asked) => Request::Bytes(asked),
                None => return Ok(None),
            },
            Command::Text => match Limited::parse(alloc, words)? {
                Some(asked) => Request::Text(asked),
                None => return Ok(None),
            },
            Command::Recode => match Numbered::parse(alloc, MOST_NUMBER, words)? {
                Some(asked) => Request::Recode(asked),
                None => return Ok(None),
            },
            Command::Strict => match Numbered::parse(alloc, MOST_NUMBER, words)? {
                Some(asked) => Request::Strict(asked),
                None => return Ok(None),
            },
            Command::Skip => match Numbered::parse(alloc, MOST_DEPTH, words)? {
                Some(asked) => Request::Skip(asked),
                None => return Ok(None),
            },
        };
        Ok(Some(found))
    }
}
