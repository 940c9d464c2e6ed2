//! The spaces and line ends around the items of arrays and maps.

ghost use Rattle.std.specs.Prelude.{◌≡◌, ◌<◌, ◌++◌};
ghost use Rattle.ciborium_ll.specs.Encoding.{WritesBytes};
ghost use Rattle.cbor_diag.specs.ItemTexts.{comma, item_space, last_space, nest_last, nest_space, new_line};
ghost use Rattle.cbor_diag.specs.Places.{asks_alone, asks_within, first_line, line_inside, line_within};
ghost use Rattle.ciborium_ll_grammar.specs.declared.limits.TheConstants.{MOST_LEVELS};

use crate::marks::Marked;
use crate::put::put;
use cbor_embedded::{ENCODED_ITEM, Embedded};
use ciborium_ll::Header;
use ciborium_ll::io::Write;

/// How the items of arrays and maps are laid out.
#[derive(Clone, Copy, Debug, PartialEq, Eq)]
pub enum Layout {
    /// All items on one line.
    OneLine,
    /// Each item on a line of its own, indented by two spaces for each level.
    Indented,
}

/// How an item is shown.
#[derive(Clone, Copy, Debug, PartialEq, Eq)]
pub struct Style {
    /// How the items of arrays and maps are laid out.
    pub layout: Layout,
    /// Whether the notation is exact: it shows each title that is longer than need be, the strings of indefinite length
    /// within others, and the bits of each NaN.
    pub is_exact: bool,
}

/// A style, the level that is shown, and which byte strings are shown as the item that they contain.
#[derive(Clone, Copy)]
pub(crate) struct Line {
    pub(crate) style: Style,
    pub(crate) level: usize,
    pub(crate) embedded: Embedded,
    /// Whether a byte string of this line is asked for as an item.
    pub(crate) is_asked: bool,
}

impl Line {
    /// Returns the line of an item that no header contains.
    pub(crate) fn first(style: Style, embedded: Embedded) -> Line
        ensures { result ≡ first_line style embedded }
    {
        Line {
            style,
            level: 0,
            embedded,
            is_asked: asks_alone(embedded),
        }
    }

    /// Returns the line of the content of a header.
    pub(crate) fn within(&self, header: Header) -> Line
        requires { self.now.level < MOST_LEVELS }
        ensures { result ≡ line_within header self.now }
    {
        let level = match header {
            Header::Array(_) | Header::Map(_) => self.level + 1,
            _ => self.level,
        };
        Line {
            style: self.style,
            level,
            embedded: self.embedded,
            is_asked: asks_within(self.embedded, header),
        }
    }

    /// Returns the line of the item that a byte string of this line contains.
    pub(crate) fn inside(&self) -> Line
        ensures { result ≡ line_inside self.now }
    {
        Line {
            style: self.style,
            level: self.level,
            embedded: self.embedded,
            is_asked: asks_alone(self.embedded),
        }
    }

    /// Writes the text before an item: the comma after another item, and the space.
    #[inline(always)]
    #[tactic(auto, using(crate::proofs::ShowLaws::writes))]
    pub(crate) fn before<W: Write>(
        &self,
        writer: &mut W,
        nest: &Marked,
        is_first: bool,
    ) -> Result<(), W::Error>
        ensures { WritesBytes W.Write writer.old result
            (comma is_first ++ nest_space nest.now.header nest.now.mark self.now.style.layout self.now.level is_first)
            writer.new }
    {
        match (self.style.layout, nest.header) {
            _ if is_first => self.space(writer, nest, true),
            (Layout::OneLine, Header::Array(_) | Header::Map(_)) => put(writer, b", "),
            _ => {
                put(writer, b",")?;
                self.space(writer, nest, false)
            }
        }
    }

    /// Writes the space before an item within a tag, an array or a map.
    #[inline(always)]
    fn space<W: Write>(&self, writer: &mut W, nest: &Marked, is_first: bool) -> Result<(), W::Error>
        ensures { WritesBytes W.Write writer.old result
            (nest_space nest.now.header nest.now.mark self.now.style.layout self.now.level is_first) writer.new }
    {
        match nest.header {
            Header::Array(len) | Header::Map(len) => {
                let is_apart = len.is_none() || nest.mark.is_marked();
                self.item_space(writer, is_apart, is_first)
            }
            _ => Ok(()),
        }
    }

    /// Writes the space before an item of an array or a map. `is_apart` says that an underscore follows the bracket.
    #[inline(always)]
    fn item_space<W: Write>(
        &self,
        writer: &mut W,
        is_apart: bool,
        is_first: bool,
    ) -> Result<(), W::Error>
        ensures { WritesBytes W.Write writer.old result (item_space self.now.style.layout self.now.level is_apart is_first)
            writer.new }
    {
        match self.style.layout {
            Layout::Indented => self.begin(writer),
            Layout::OneLine if is_first && !is_apart => Ok(()),
            Layout::OneLine => put(writer, b" "),
        }
    }

    /// Writes the text after the last item, before the closing bracket.
    pub(crate) fn behind<W: Write>(
        &self,
        writer: &mut W,
        nest: &Marked,
        is_empty: bool,
    ) -> Result<(), W::Error>
        ensures { WritesBytes W.Write writer.old result
            (nest_last nest.now.header nest.now.mark self.now.style.layout self.now.level is_empty) writer.new }
    {
        match nest.header {
            Header::Array(len) | Header::Map(len) => {
                let is_apart = len.is_none() || nest.mark.is_marked();
                self.last_space(writer, is_apart, is_empty)
            }
            _ => Ok(()),
        }
    }

    /// Writes the space before the closing bracket of an array or a map. `is_apart` says that an underscore follows the
    /// opening bracket.
    fn last_space<W: Write>(
        &self,
        writer: &mut W,
        is_apart: bool,
        is_empty: bool,
    ) -> Result<(), W::Error>
        ensures { WritesBytes W.Write writer.old result (last_space self.now.style.layout self.now.level is_apart is_empty)
            writer.new }
    {
        match self.style.layout {
            _ if is_empty && is_apart => put(writer, b" "),
            Layout::Indented if !is_empty => self.begin(writer),
            _ => Ok(()),
        }
    }

    /// Begins a line.
    fn begin<W: Write>(&self, writer: &mut W) -> Result<(), W::Error>
        ensures { WritesBytes W.Write writer.old result (new_line self.now.level) writer.new }
    {
        put(writer, b"\n")?;
        'levels: for _level in 0..self.level {
            put(writer, b"  ")?;
        }
        Ok(())
    }
}

/// Returns whether a byte string that no header contains is asked for as an item.
fn asks_alone(embedded: Embedded) -> bool
    ensures { result ≡ asks_alone embedded }
{
    matches!(embedded, Embedded::Everywhere)
}

/// Returns whether a byte string within this header is asked for as an item.
fn asks_within(embedded: Embedded, header: Header) -> bool
    ensures { result ≡ asks_within embedded header }
{
    match (embedded, header) {
        (Embedded::Everywhere, _) => true,
        (Embedded::Tagged, Header::Tag(number)) => number == ENCODED_ITEM,
        _ => false,
    }
}
