//! A request, or why words make none.

ghost use Rattle.std.specs.Prelude.{◌≡◌, IfNone, IfSome};

use crate::options::{Options, Word};

/// The topic of a help text.
#[derive(Clone, Copy)]
pub enum Topic {
    /// The program.
    Program,
    /// A word that looks at files.
    Word(Word),
    /// The word `recode`, with a count or without.
    Recode,
}

impl Topic {
    ghost use Rattle.tool_files.specs.Arguments.{topic_name};
    ghost use Rattle.tool_files.specs.declared.request.Topic.{Topic};

    /// Returns the topic of this name. `help` is the name of the program as a topic.
    pub fn from_name(name: &str) -> Option<Topic>
        ensures some { IfSome result (λ topic. name.now ≡ topic_name topic) }
        ensures none { IfNone result ((topic : Topic) → name.now ≡ topic_name topic → ⊥) }
    {
        match name {
            "help" => Some(Topic::Program),
            "recode" => Some(Topic::Recode),
            _ => match Word::from_name(name) {
                Some(word) => Some(Topic::Word(word)),
                None => None,
            },
        }
    }
}

/// The request of the program's words.
#[derive(Clone, Copy)]
pub enum Request {
    /// A look at files.
    Look {
        /// The word for the look.
        word: Word,
        /// The options of the look.
        options: Options,
    },
    /// A help text.
    Help(Topic),
    /// The version of the program.
    Version,
}

/// Why words ask for nothing. It has the word at fault.
#[derive(Clone, Copy)]
pub enum Refusal<'w> {
    /// There is no word.
    NoWord,
    /// No word has this name.
    UnknownWord(&'w str),
    /// The word has no option of this name.
    UnknownOption {
        /// The word.
        word: Word,
        /// The word in place of the option.
        option: &'w str,
    },
    /// The option wants a value, and no word follows it.
    NoValue(&'w str),
    /// The option takes no value.
    NeedlessValue(&'w str),
    /// The option has no value of this text.
    BadValue {
        /// The option's name.
        option: &'w str,
        /// The text.
        value: &'w str,
    },
    /// An order of keys without `--deterministic`, which alone looks at it.
    NeedlessOrder,
    /// Two options that exclude each other.
    Clash(&'static str, &'static str),
    /// This word follows, and none may.
    Needless(&'w str),
}
