//! The words for a look at files, and their options.

ghost use Rattle.std.specs.Prelude.{◌≡◌, ◌≤◌};
ghost use Rattle.ciborium_ll.specs.Limits.{MOST_LEVELS};

use cbor_deterministic::Order;
use cbor_diag::{Layout, Style};
use cbor_embedded::Embedded;
use cbor_json::Mode;
use ciborium_ll::Spelling;
use tool_verdicts::items::Form;

/// A word for a look at files.
#[derive(Clone, Copy)]
pub enum Word {
    /// It checks the input.
    Check,
    /// It shows the input.
    Show(View),
    /// It encodes the notation of the input.
    Encode,
    /// It writes the input in the deterministic encoding.
    Canon,
    /// It copies the input in its shortest spelling.
    Recode,
}

/// The view of an input.
#[derive(Clone, Copy)]
pub enum View {
    /// Its titles.
    Titles,
    /// Its items, in diagnostic notation.
    Notation,
    /// Its items, as JSON.
    Json,
}

/// When a dump has colors.
#[derive(Clone, Copy)]
pub enum Colors {
    /// If standard output is a terminal, and the environment has no `NO_COLOR`, or an empty one.
    Auto,
    /// Always.
    Always,
    /// Never.
    Never,
}

/// The options of a look at files.
#[derive(Clone, Copy)]
pub struct Options {
    /// The titles that are taken.
    pub spelling: Spelling,
    /// Whether only the deterministic encoding is taken.
    pub deterministic: bool,
    /// The order of keys in the deterministic encoding, if one was given. Otherwise it is the bytewise order.
    pub order: Option<Order>,
    /// Whether exactly one item is wanted, in bytes or in notation.
    pub one: bool,
    /// How many items are passed over.
    pub skip: usize,
    /// How many items after them are looked at, if not all are.
    pub items: Option<usize>,
    /// Whether the place of each item is written.
    pub index: bool,
    /// Whether each answer has the file's name, even for a single file.
    pub names: bool,
    /// Whether the input is hexadecimal digits.
    pub hex: bool,
    /// Whether each line of a dump has its offset.
    pub offsets: bool,
    /// How many lines of a dump a body has at most, if not all are shown.
    pub max: Option<usize>,
    /// When a dump has colors.
    pub colors: Colors,
    /// How items in diagnostic notation are laid out.
    pub layout: Layout,
    /// Whether the notation loses nothing of the bytes.
    pub exact: bool,
    /// Which byte strings are shown as the item that they contain.
    pub embedded: Embedded,
    /// What is written for items that JSON has no form for.
    pub mode: Mode,
    /// How many levels deep tags, arrays and maps may be nested.
    pub depth: usize,
    ghost shallow: { depth ≤ MOST_LEVELS },
}

impl Options {
    ghost use Rattle.tool_files.specs.Orders.{chosen_order};
    ghost use Rattle.tool_files.specs.Shows.{chosen_json, chosen_notation};

    /// Returns the form of items in diagnostic notation.
    pub fn notation(self) -> Form
        ensures { result ≡ chosen_notation self }
    {
        let style = Style {
            layout: self.layout,
            is_exact: self.exact,
        };
        Form::Notation(style, self.embedded)
    }

    /// Returns the form of items as JSON.
    pub fn json(self) -> Form
        ensures { result ≡ chosen_json self }
    {
        Form::Json(self.mode)
    }

    /// Returns the order of keys: the one that was given, or the bytewise order.
    pub fn key_order(self) -> Order
        ensures { result ≡ chosen_order self.order }
    {
        match self.order {
            Some(order) => order,
            None => Order::Bytewise,
        }
    }
}
