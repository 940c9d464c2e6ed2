// SPDX-License-Identifier: Apache-2.0
//! The library for C and C++: a static library with the header `bindings/c/include/ciborium_ll.h`. Each export is the
//! call of the same name of `capi`.
//!
//! No call takes memory, or calls anything outside of this library except memcpy, memmove and memset. C passes a slice
//! as a pointer and a length.
//!
//! Each call answers with the code of a [`CllAnswer`], and most calls fill in a [`CllReport`]. `cll_pull` gives one
//! number of bytes instead.
//!
//! A tag, an array and a map take one level of a `depth`, an empty one too. A string takes none.
//!
//! How many bytes are due after a `Short` is the rest of the title or body that is cut, all bytes of a body that is
//! about to begin, or 1 before a title. All bytes that complete the input are at least that many. At 0 no bytes
//! complete it, and at any other number some do.
//!
//! The place of a `Syntax` is the offset of a title. For a text that is not UTF-8, in a string that no open begins, it
//! is the end of the title less the length of the shortest title. This may lie inside the title.
#![tactic(auto)]

ghost use Rattle.std.specs.Prelude.{◌≡◌, ◌≢◌, ◌↔◌, ◌≤◌, ◌<◌, ◌⊎◌, List, ◌++◌, drop, length, Bool, true, false, ℕ};
ghost use Rattle.ciborium_ll.specs.Types.Spelling.{Spelling};
ghost use Rattle.ciborium_ll.specs.Types.Spelling.TheVariants.{Any, Shortest};
ghost use Rattle.cbor_deterministic.specs.declared.Order.{Order as AnyOrder};
ghost use Rattle.cbor_deterministic.specs.declared.Why.{Why as AnyWhy};
ghost use Rattle.cbor_deterministic.specs.Deterministic.{HasDeterministic};
ghost use Rattle.cbor_deterministic.specs.Refusals.{HasRefusal};
ghost use Rattle.ciborium_ll.specs.Faults.{BeginsWithElements};
ghost use Rattle.ciborium_ll.specs.RecodingTold.{HasRoom};
ghost use Rattle.ciborium_ll_text.specs.Text.{IsCharacters};
ghost use Rattle.cbor_skip.specs.ItemFaults.{BeginsWithItem};
ghost use Rattle.cbor_view.specs.Segments.{SpellsText};
ghost use Rattle.cbor_view.specs.Views.{IsBytesOf, IsTextOf};
ghost use Rattle.capi.specs.declared.answer.CllAnswer.{CllAnswer};
ghost use Rattle.capi.specs.declared.answer.CllAnswer.TheVariants as a;
ghost use Rattle.capi.specs.declared.titles.CllTitle.{CllTitle as AnyTitle};
ghost use Rattle.capi.specs.Answers.{IsCode, Reports, code, version_code};
ghost use Rattle.capi.specs.Checking.{Checks};
ghost use Rattle.capi.specs.Copying.{CopiesInto, CopiesAnyhow};
ghost use Rattle.capi.specs.Counting.{CountsElements, CountsStrictly};
ghost use Rattle.capi.specs.Determining.{Determines, IsNoOrder, named_place, order_code, why_answer};
ghost use Rattle.capi.specs.Feeding.{EndsFed, Feeds, IsKept, IsNoChecker, IsSetUp, TakesWithin};
ghost use Rattle.capi.specs.ItemPieces.{EndsItem, FeedsItem, IsItemCopyKept, IsItemSetUp};
ghost use Rattle.capi.specs.ItemPieces.{IsNoItemCopier};
ghost use Rattle.capi.specs.Lacking.{ElementsLack, ItemLacks};
ghost use Rattle.capi.specs.Pieces.{EndsCopied, FeedsCopied, IsCopierOf, IsCopyKept, IsNoCopier, StaysWithin};
ghost use Rattle.capi.specs.Pulling.{CllPull, BeginsWithTitle};
ghost use Rattle.capi.specs.Pushing.{CllPush};
ghost use Rattle.capi.specs.Rewriting.{Rewrites};
ghost use Rattle.capi.specs.Skipping.{Skips};
ghost use Rattle.capi.specs.Texts.{FindsText};
ghost use Rattle.capi.specs.Titles.{FillsTitles, Gives, HasTitles, StopsTitles};
ghost use Rattle.capi.specs.Viewing.{Finds, GivesBody, IsInteger, ListsItems, StepsOn, TellsHeader, Views};
ghost use Rattle.capi.specs.Widths.{PushesWide};
ghost use Rattle.ciborium_ll.specs.Limits.{MOST_LEVELS};

mod parser;

pub use self::parser::{cll_parser_end, cll_parser_init, cll_parser_init_strict, cll_parser_push};
pub use capi::{
    CllAnswer, CllBody, CllChecker, CllCopier, CllEvent, CllHeader, CllItem, CllItemCopier,
    CllItems, CllParser, CllReport, CllTitle, Span,
};

/// Returns the version, which is 0.1.0: 65536 times its major number, 256 times its minor one, and its patch number.
#[unsafe(no_mangle)]
pub extern "C" fn cll_version() -> u32
    ensures { result ≡ version_code 0 1 0 }
{
    capi::cll_version()
}

/// Reads the title with which the bytes begin (RFC 7049, 2.1 to 2.3) into `header`. `consumed` is how many bytes it
/// read.
///
/// # Errors
///
/// - `Short`: the bytes end before a title or inside it.
/// - `Syntax`: no title begins with the first byte.
///
/// An error leaves `header` as it was, and consumes the first byte, if there is one.
#[unsafe(no_mangle)]
pub extern "C" fn cll_pull(bytes: &[u8], header: &mut CllHeader, consumed: &mut usize) -> u32
    ensures exactly { result ≡ code a.Ok ↔ BeginsWithTitle bytes.now }
    ensures pulled { (answer : CllAnswer) × (result ≡ code answer)
        × CllPull bytes.now answer header.old header.new consumed.new }
{
    capi::cll_pull(bytes, header, consumed)
}

/// Fills `titles` with the headers of the bytes (RFC 7049, 2.1 to 2.3) and the offsets of their titles, one after the
/// other. The body of a string of a definite length is passed over. It has to be there whole, and a text has to be
/// UTF-8. The call says nothing about how the titles nest.
///
/// `written` is how many titles were filled, and `consumed` the end of the last one with its body. The other titles are
/// as they were.
///
/// # Errors
///
/// An error comes after the titles before it were filled.
///
/// - `Short`: the bytes end inside the title or the body that comes next. The place is how many bytes are due.
/// - `Syntax`: no title begins there, or the body that comes next is a text that is not UTF-8.
#[unsafe(no_mangle)]
pub extern "C" fn cll_headers(bytes: &[u8], titles: &mut [CllTitle], report: &mut CllReport) -> u32
    ensures exactly { (taken : ℕ) (entries : List AnyTitle) → (HasTitles (length titles.old) bytes.now taken entries
        ↔ (result ≡ code a.Ok) × Gives titles.old taken entries titles.new report.new) }
    ensures stopped { (taken : ℕ) (entries : List AnyTitle) → (StopsTitles (length titles.old) bytes.now taken entries
        ↔ (result ≢ code a.Ok) × Gives titles.old taken entries titles.new report.new) }
    ensures filled { (answer : CllAnswer) × (result ≡ code answer)
        × FillsTitles bytes.now titles.old answer titles.new report.new }
{
    capi::cll_headers(bytes, titles, report)
}

/// Writes the shortest title of a header to the start of `out` (RFC 7049, 3.9), whole or not at all.
///
/// # Errors
///
/// - `Room`: the title is longer than `out`.
/// - `Argument`: `header` has no kind, or a value or form that its kind does not have.
#[unsafe(no_mangle)]
pub extern "C" fn cll_push(header: &CllHeader, out: &mut [u8], report: &mut CllReport) -> u32
    ensures { (answer : CllAnswer) × (result ≡ code answer) × CllPush header.now out.old answer out.new report.new }
{
    capi::cll_push(header, out, report)
}

/// Writes any title of a header that has `width` bytes after its first one to the start of `out` (RFC 7049, 2.1), whole
/// or not at all.
///
/// # Errors
///
/// - `Room`: the title is longer than `out`.
/// - `Argument`: as of [`cll_push`], or the header has no title of that width.
#[unsafe(no_mangle)]
pub extern "C" fn cll_push_wide(
    header: &CllHeader,
    width: u32,
    out: &mut [u8],
    report: &mut CllReport,
) -> u32
    ensures { (answer : CllAnswer) × (result ≡ code answer)
        × PushesWide header.now width out.old answer out.new report.new }
{
    capi::cll_push_wide(header, width, out, report)
}

/// Copies `count` elements into `out`, each in its shortest spelling (RFC 7049, 3.9). An element is a header that
/// begins no string, or a whole string (2.1 and 2.2). No spelling is longer than the bytes that it is read from.
///
/// # Errors
///
/// - `Short`: the bytes end before `count` elements do.
/// - `Syntax`: no title begins there, its string may not contain the title, or the body of a text is not UTF-8.
/// - `Room`: the shortest title of a header, or a chunk of a body, does not fit.
///
/// The bytes written before an error stand in `out`. With `Room` a beginning of the title or chunk may follow.
///
/// In room for the spelling, or for as many bytes as there are, an error is the first fault. Whether a text that is
/// damaged and cut off is `Short` or `Syntax` depends on the buffer.
#[unsafe(no_mangle)]
pub extern "C" fn cll_recode(
    bytes: &[u8],
    count: u64,
    out: &mut [u8],
    report: &mut CllReport,
) -> u32
    ensures exactly { HasRoom count bytes.now (length out.old)
        → (result ≡ code a.Ok ↔ BeginsWithElements Any count bytes.now) }
    ensures counted { (answer : CllAnswer) × (result ≡ code answer)
        × CountsElements count bytes.now (length out.old) answer out.new report.new }
    ensures due { result ≡ code a.Short → ElementsLack Any count bytes.now report.new.whole report.new.place }
    ensures anyhow { (answer : CllAnswer) × (result ≡ code answer)
        × CopiesAnyhow count bytes.now out.old answer out.new report.new }
    ensures copied { HasRoom count bytes.now (length out.old)
        → (answer : CllAnswer) × (result ≡ code answer) × CopiesInto count bytes.now out.old answer out.new report.new }
{
    capi::cll_recode(bytes, count, out, report)
}

/// Checks that the bytes begin with `count` elements in their shortest spelling (RFC 7049, 2.2.2, 2.3 and 3.9). A
/// shortest spelling has no simple value from 24 to 31, and no string of indefinite length inside another one.
///
/// # Errors
///
/// An error is the first fault, and `consumed` counts the bytes up to it.
///
/// - `Short`: the bytes end before `count` elements do.
/// - `Syntax`: as of [`cll_recode`], or a title that may not stand in a shortest spelling.
#[unsafe(no_mangle)]
pub extern "C" fn cll_strict(bytes: &[u8], count: u64, report: &mut CllReport) -> u32
    ensures exactly { result ≡ code a.Ok ↔ BeginsWithElements Shortest count bytes.now }
    ensures counted { (answer : CllAnswer) × (result ≡ code answer)
        × CountsStrictly count bytes.now answer report.new }
    ensures due { result ≡ code a.Short → ElementsLack Shortest count bytes.now report.new.whole report.new.place }
    ensures checked { (answer : CllAnswer) × (result ≡ code answer) × Checks count bytes.now answer report.new }
{
    capi::cll_strict(bytes, count, report)
}

/// Skips the item with which the bytes begin, with tags, arrays and maps nested at most `depth` levels deep (RFC 7049,
/// 2.1 to 2.4).
///
/// # Errors
///
/// - `Short`: the bytes end before the item does.
/// - `Syntax`: as of [`cll_recode`].
/// - `BreakDue`, `TooDeep`: as [`CllAnswer`] says.
/// - `Argument`: the depth is above 256.
#[unsafe(no_mangle)]
pub extern "C" fn cll_skip(bytes: &[u8], depth: u32, report: &mut CllReport) -> u32
    ensures exactly { depth ≤ MOST_LEVELS → (result ≡ code a.Ok ↔ BeginsWithItem Any depth bytes.now) }
    ensures due { depth ≤ MOST_LEVELS → result ≡ code a.Short → ItemLacks Any depth bytes.now report.new.place }
    ensures argument { MOST_LEVELS < depth → (result ≡ code a.Argument) × Reports report.new 0 0 0 }
    ensures skipped { depth ≤ MOST_LEVELS
        → (answer : CllAnswer) × (result ≡ code answer) × Skips depth bytes.now answer report.new }
{
    capi::cll_skip(bytes, depth, report)
}

/// Checks that the bytes begin with an item in the deterministic encoding, as `cbor_deterministic::deterministic_len`
/// does. `consumed` is its length. `order` is 0 for keys in the order of their bytes (RFC 8949, 4.2.1), and 1 for the
/// shorter key first (4.2.3).
///
/// # Errors
///
/// With a fault, `consumed` and the place are the offset of the first title or key at which the bytes can't go on. With
/// `Short`, `consumed` is the end of the bytes if a body is cut, and the place is 0, which says nothing on how many
/// bytes are due.
///
/// - `Short`, `NotShortest`, `Indefinite`, `TooDeep`: as [`CllAnswer`] says.
/// - `KeyOrder`, `DuplicateKey`: the later of the two keys.
/// - `Syntax`: no title, a simple value from 24 to 31, or the title of a text that is not UTF-8.
/// - `Argument`: the depth is above 256, or there is no such order.
#[unsafe(no_mangle)]
pub extern "C" fn cll_deterministic(
    bytes: &[u8],
    depth: u32,
    order: u32,
    report: &mut CllReport,
) -> u32
    ensures exactly { (keys : AnyOrder) (len : ℕ) → depth ≤ MOST_LEVELS → order ≡ order_code keys
        → (HasDeterministic keys depth bytes.now len ↔ (result ≡ code a.Ok) × (report.new.consumed ≡ len)) }
    ensures refused { (keys : AnyOrder) (why : AnyWhy) (offset : ℕ) → depth ≤ MOST_LEVELS → order ≡ order_code keys
        → HasRefusal keys depth bytes.now why offset
        → (result ≡ code (why_answer why)) × Reports report.new offset 0 (named_place why offset) }
    ensures determined { (keys : AnyOrder) → depth ≤ MOST_LEVELS → order ≡ order_code keys
        → (answer : CllAnswer) × (result ≡ code answer) × Determines keys depth bytes.now answer report.new }
    ensures argument { (MOST_LEVELS < depth) ⊎ IsNoOrder order → (result ≡ code a.Argument) × Reports report.new 0 0 0 }
{
    capi::cll_deterministic(bytes, depth, order, report)
}

/// Writes the deterministic encoding of the item that begins the bytes to the start of `out`, as
/// `cbor_canonical::canonical_into` does. `consumed` is the item's length, and `written` the length of the encoding.
/// `order` is as of [`cll_deterministic`].
///
/// # Errors
///
/// With a fault, `consumed` and the place are its offset, and nothing is written that counts. With `Short` the place is
/// 0.
///
/// - `Short`: the bytes end before the item does.
/// - `Syntax`: no title begins there, or its string may not contain the title, or a text is not UTF-8. Or a simple value
///   from 24 to 31, which stands for no value.
/// - `BreakDue`, `TooDeep`: as of [`cll_skip`].
/// - `DuplicateKey`: the later of two same keys of a map.
/// - `Room`: `out` or `spans` is too short.
/// - `Argument`: the depth is above 256, or there is no such order.
#[unsafe(no_mangle)]
pub extern "C" fn cll_canonical(
    bytes: &[u8],
    depth: u32,
    order: u32,
    out: &mut [u8],
    spans: &mut [Span],
    report: &mut CllReport,
) -> u32
    ensures rewritten { (keys : AnyOrder) → depth ≤ MOST_LEVELS → order ≡ order_code keys
        → (answer : CllAnswer) × (result ≡ code answer)
        × Rewrites keys depth bytes.now (length spans.old) answer out.new report.new }
    ensures argument { (MOST_LEVELS < depth) ⊎ IsNoOrder order
        → (result ≡ code a.Argument) × Reports report.new 0 0 0 × (out.new ≡ out.old) }
{
    capi::cll_canonical(bytes, depth, order, out, spans, report)
}

/// Parses the item with which the bytes begin, as [`cll_skip`] skips it, and makes `item` a view of it. The calls below
/// look into the view. They do not look at other bytes than those of the view, and the caller may have written any
/// bytes and any depth into it.
///
/// # Errors
///
/// Those of [`cll_skip`]. `item` is as it was.
#[unsafe(no_mangle)]
pub extern "C" fn cll_item_parse<'a>(
    bytes: &'a [u8],
    depth: u32,
    item: &mut CllItem<'a>,
    report: &mut CllReport,
) -> u32
    ensures exactly { depth ≤ MOST_LEVELS → (result ≡ code a.Ok ↔ BeginsWithItem Any depth bytes.now) }
    ensures parsed { result ≡ code a.Ok
        → Views depth bytes.now item.new × (report.new.consumed ≡ length item.new.bytes.now) }
    ensures kept { result ≢ code a.Ok → item.new ≡ item.old }
    ensures due { depth ≤ MOST_LEVELS → result ≡ code a.Short → ItemLacks Any depth bytes.now report.new.place }
    ensures argument { MOST_LEVELS < depth → (result ≡ code a.Argument) × Reports report.new 0 0 0 }
    ensures skipped { depth ≤ MOST_LEVELS
        → (answer : CllAnswer) × (result ≡ code answer) × Skips depth bytes.now answer report.new }
{
    capi::cll_item_parse(bytes, depth, item, report)
}

/// Tells the header of an item. It is never that of a break, if a call filled the view in.
///
/// # Errors
///
/// - `Argument`: the bytes of the view begin with no title. `header` is as it was.
#[unsafe(no_mangle)]
pub extern "C" fn cll_item_header(item: &CllItem, header: &mut CllHeader) -> u32
    ensures exactly { result ≡ code a.Ok ↔ BeginsWithTitle item.now.bytes.now }
    ensures told { (answer : CllAnswer) × (result ≡ code answer)
        × TellsHeader item.now.bytes.now answer header.old header.new }
{
    capi::cll_item_header(item, header)
}

/// Gives the body of a byte string of definite length (RFC 7049, 2.1).
///
/// # Errors
///
/// - `Absent`: the bytes of the view are no such string. `body` is as it was.
#[unsafe(no_mangle)]
pub extern "C" fn cll_item_bytes<'a>(item: &CllItem<'a>, body: &mut CllBody<'a>) -> u32
    ensures { (answer : CllAnswer) × (result ≡ code answer)
        × GivesBody (IsBytesOf item.now.bytes.now) answer body.old body.new }
{
    capi::cll_item_bytes(item, body)
}

/// Gives the body of a text string of definite length (RFC 7049, 2.1). It is UTF-8, if a call filled the view in.
///
/// # Errors
///
/// - `Absent`: the bytes of the view are no such string. `body` is as it was.
#[unsafe(no_mangle)]
pub extern "C" fn cll_item_text<'a>(item: &CllItem<'a>, body: &mut CllBody<'a>) -> u32
    ensures { (answer : CllAnswer) × (result ≡ code answer)
        × GivesBody (IsTextOf item.now.bytes.now) answer body.old body.new }
{
    capi::cll_item_text(item, body)
}

/// Lists the items in an item (RFC 7049, 2.1 and 2.2): those of an array, the keys and values of a map one after the
/// other, the item under a tag, or the strings in a string of indefinite length.
///
/// # Errors
///
/// - `Absent`: the item is of another kind, or no level is left for a tag, an array or a map. `items` is as it was.
#[unsafe(no_mangle)]
pub extern "C" fn cll_item_items<'a>(item: &CllItem<'a>, items: &mut CllItems<'a>) -> u32
    ensures { (answer : CllAnswer) × (result ≡ code answer) × ListsItems item.now answer items.old items.new }
{
    capi::cll_item_items(item, items)
}

/// Takes the first of the items that are left.
///
/// # Errors
///
/// An error leaves `items` and `item` as they were.
///
/// - `Absent`: no item is left.
/// - `Argument`: no item begins the bytes that are left, or the depth is above 256. No call makes such `items`.
#[unsafe(no_mangle)]
pub extern "C" fn cll_item_next<'a>(items: &mut CllItems<'a>, item: &mut CllItem<'a>) -> u32
    ensures { (answer : CllAnswer) × (result ≡ code answer)
        × StepsOn answer items.old item.old items.new item.new }
{
    capi::cll_item_next(items, item)
}

/// Gives the value of the first pair of a map whose key has these bytes.
///
/// # Errors
///
/// An error leaves `value` as it was.
///
/// - `Absent`: the item is no map, or no key of it has these bytes.
/// - `Argument`: the bytes of the view are not one item to its depth, or the depth is above 256.
#[unsafe(no_mangle)]
pub extern "C" fn cll_item_get<'a>(item: &CllItem<'a>, key: &[u8], value: &mut CllItem<'a>) -> u32
    ensures { (answer : CllAnswer) × (result ≡ code answer)
        × Finds (λ other. other ≡ key.now) item.now answer value.old value.new }
{
    capi::cll_item_get(item, key, value)
}

/// Gives the value of the first pair of a map whose key is this text, in any spelling. The bodies of a text of
/// indefinite length are joined.
///
/// # Errors
///
/// Those of [`cll_item_get`], and:
///
/// - `Argument`: `key` is not UTF-8.
#[unsafe(no_mangle)]
pub extern "C" fn cll_item_get_text<'a>(
    item: &CllItem<'a>,
    key: &[u8],
    value: &mut CllItem<'a>,
) -> u32
    ensures found { IsCharacters key.now → (answer : CllAnswer) × (result ≡ code answer)
        × Finds (λ other. ∥ SpellsText other key.now ∥₁) item.now answer value.old value.new }
    ensures argument { (IsCharacters key.now → ⊥) → (result ≡ code a.Argument) × (value.new ≡ value.old) }
{
    capi::cll_item_get_text(item, key, value)
}

/// Gives the value of the first pair of a map whose key is this integer, in any spelling.
///
/// # Errors
///
/// Those of [`cll_item_get`].
#[unsafe(no_mangle)]
pub extern "C" fn cll_item_get_int<'a>(item: &CllItem<'a>, key: i64, value: &mut CllItem<'a>) -> u32
    ensures { (answer : CllAnswer) × (result ≡ code answer)
        × Finds (IsInteger key) item.now answer value.old value.new }
{
    capi::cll_item_get_int(item, key, value)
}

/// Finds the longest front of the bytes that is UTF-8 (RFC 3629). `consumed` is its length.
///
/// # Errors
///
/// - `Short`: a character that is cut off follows the front.
/// - `Syntax`: no character begins with the bytes after the front. The place is the front's length.
///
/// So a text may come in pieces: put the bytes after the front before the next piece.
#[unsafe(no_mangle)]
pub extern "C" fn cll_utf8(bytes: &[u8], report: &mut CllReport) -> u32
    ensures exactly { result ≡ code a.Ok ↔ IsCharacters bytes.now }
    ensures pieces { (more : List ℕ)
        → (IsCharacters (bytes.now ++ more) ↔ IsCharacters (drop report.new.consumed bytes.now ++ more)) }
    ensures found { (answer : CllAnswer) × (result ≡ code answer) × FindsText bytes.now answer report.new }
{
    capi::cll_utf8(bytes, report)
}

/// Sets a checker of one item up (RFC 7049, 2.1 to 2.4), whatever the memory held. Tags, arrays and maps may be nested
/// at most `depth` levels deep.
///
/// # Errors
///
/// - `Argument`: the depth is above 256.
#[unsafe(no_mangle)]
pub extern "C" fn cll_checker_init(checker: &mut CllChecker, depth: u32) -> u32
    ensures set_up { depth ≤ MOST_LEVELS → (result ≡ code a.Ok) × IsSetUp Any depth checker.new }
    ensures argument { MOST_LEVELS < depth → (result ≡ code a.Argument) × (checker.new ≡ checker.old) }
{
    capi::cll_checker_init(checker, depth)
}

/// Sets a checker up as [`cll_checker_init`] does, for an item in its shortest spelling. Any other title is a `Syntax`,
/// and so is a string of indefinite length inside another one.
#[unsafe(no_mangle)]
pub extern "C" fn cll_checker_init_strict(checker: &mut CllChecker, depth: u32) -> u32
    ensures set_up { depth ≤ MOST_LEVELS → (result ≡ code a.Ok) × IsSetUp Shortest depth checker.new }
    ensures argument { MOST_LEVELS < depth → (result ≡ code a.Argument) × (checker.new ≡ checker.old) }
{
    capi::cll_checker_init_strict(checker, depth)
}

/// Gives a checker the next bytes of its item. It takes all of them, or those up to the end of the item or to the byte
/// with a fault. A later call takes none, and answers the same. How the caller cuts the bytes into pieces changes
/// nothing.
///
/// # Answers
///
/// - `Ok`: the item has ended, and the place is its length.
/// - `Short`: more bytes are due.
/// - `Syntax`, `BreakDue`, `TooDeep`: no item begins as the bytes so far do. The place is an offset in the item.
/// - `TooLong`: the item goes on after `u64::MAX` bytes.
/// - `Argument`: the memory holds no checker.
#[unsafe(no_mangle)]
pub extern "C" fn cll_checker_feed(
    checker: &mut CllChecker,
    bytes: &[u8],
    report: &mut CllReport,
) -> u32
    ensures fed { (allowed : Spelling) (depth : ℕ) (read : List ℕ) → IsKept allowed depth read checker.old
        → (answer : CllAnswer) × (result ≡ code answer)
        × Feeds allowed depth read bytes.now answer report.new checker.new }
    ensures answers { IsCode result }
    ensures within { TakesWithin bytes.now report.new }
    ensures argument { IsNoChecker checker.old
        → (result ≡ code a.Argument) × (checker.new ≡ checker.old) × Reports report.new 0 0 0 }
{
    capi::cll_checker_feed(checker, bytes, report)
}

/// Says what it means that no more bytes come to a checker.
///
/// # Answers
///
/// - `Ok`: no byte came, or the item has ended.
/// - `Short`: the item is cut off, and the place is how many bytes were due.
/// - `Syntax`, `BreakDue`, `TooDeep`, `Argument`: as of [`cll_checker_feed`].
#[unsafe(no_mangle)]
pub extern "C" fn cll_checker_end(checker: &CllChecker, report: &mut CllReport) -> u32
    ensures ended { (allowed : Spelling) (depth : ℕ) (read : List ℕ) → IsKept allowed depth read checker.now
        → (answer : CllAnswer) × (result ≡ code answer) × EndsFed allowed depth read answer report.new }
    ensures answers { IsCode result }
    ensures argument { IsNoChecker checker.now → (result ≡ code a.Argument) × Reports report.new 0 0 0 }
{
    capi::cll_checker_end(checker, report)
}

/// Sets a copier of `count` elements up (RFC 7049, 2.1 and 2.2), whatever the memory held.
#[unsafe(no_mangle)]
pub extern "C" fn cll_copier_init(copier: &mut CllCopier, count: u64) -> u32
    ensures { (result ≡ code a.Ok) × IsCopierOf Any count copier.new }
{
    capi::cll_copier_init(copier, count)
}

/// Sets a copier up as [`cll_copier_init`] does, for elements that are in their shortest spelling (RFC 7049, 3.9).
#[unsafe(no_mangle)]
pub extern "C" fn cll_copier_init_strict(copier: &mut CllCopier, count: u64) -> u32
    ensures { (result ≡ code a.Ok) × IsCopierOf Shortest count copier.new }
{
    capi::cll_copier_init_strict(copier, count)
}

/// Gives a copier the next bytes of its elements, and writes their shortest spelling (RFC 7049, 3.9) to the start of
/// `out`: whole titles, each byte of a byte string, and whole characters of a text.
///
/// How the caller cuts the bytes into pieces, and how long the outputs are, changes nothing of what is written in all.
/// After `Ok` and after `Syntax` a later call takes and writes nothing, and answers the same.
///
/// # Answers
///
/// - `Ok`: the elements have come and are written.
/// - `Short`: all bytes were taken, and all is written except a title or a character that is not whole. The place is 0.
/// - `Room`: `out` is full. Give the rest of the bytes again. If nothing was pending, eight bytes more than the piece
///   are room enough.
/// - `Syntax`: the elements never begin as the bytes so far do. The place is an offset in all of them.
/// - `TooLong`: the elements go on after `u64::MAX` bytes.
/// - `Argument`: the memory holds no copier.
#[unsafe(no_mangle)]
pub extern "C" fn cll_copier_feed(
    copier: &mut CllCopier,
    bytes: &[u8],
    out: &mut [u8],
    report: &mut CllReport,
) -> u32
    ensures fed { (allowed : Spelling) (count : ℕ) (read written : List ℕ)
        → IsCopyKept allowed count read written copier.old → (answer : CllAnswer) × (result ≡ code answer)
        × FeedsCopied allowed count read written bytes.now out.old answer out.new report.new copier.new }
    ensures answers { IsCode result }
    ensures within { StaysWithin bytes.now out.old out.new report.new }
    ensures argument { IsNoCopier copier.old → (result ≡ code a.Argument) × (copier.new ≡ copier.old)
        × (out.new ≡ out.old) × Reports report.new 0 0 0 }
{
    capi::cll_copier_feed(copier, bytes, out, report)
}

/// Says what it means that no more bytes come to a copier.
///
/// # Answers
///
/// - `Ok`: the elements have come and are written.
/// - `Short`: the elements are cut off.
/// - `Room`: [`cll_copier_feed`] has more to write, also with no bytes.
/// - `Syntax`, `Argument`: as of [`cll_copier_feed`].
#[unsafe(no_mangle)]
pub extern "C" fn cll_copier_end(copier: &CllCopier, report: &mut CllReport) -> u32
    ensures ended { (allowed : Spelling) (count : ℕ) (read written : List ℕ)
        → IsCopyKept allowed count read written copier.now
        → (answer : CllAnswer) × (result ≡ code answer) × EndsCopied allowed count read written answer report.new }
    ensures answers { IsCode result }
    ensures argument { IsNoCopier copier.now → (result ≡ code a.Argument) × Reports report.new 0 0 0 }
{
    capi::cll_copier_end(copier, report)
}

/// Sets a copier of an item up, as [`cll_checker_init`] does a checker.
///
/// # Errors
///
/// - `Argument`: the depth is above 256.
#[unsafe(no_mangle)]
pub extern "C" fn cll_item_copier_init(copier: &mut CllItemCopier, depth: u32) -> u32
    ensures set_up { depth ≤ MOST_LEVELS → (result ≡ code a.Ok) × IsItemSetUp Any depth copier.new }
    ensures argument { MOST_LEVELS < depth → (result ≡ code a.Argument) × (copier.new ≡ copier.old) }
{
    capi::cll_item_copier_init(copier, depth)
}

/// Sets a copier of an item up, as [`cll_checker_init_strict`] does a checker.
///
/// # Errors
///
/// - `Argument`: the depth is above 256.
#[unsafe(no_mangle)]
pub extern "C" fn cll_item_copier_init_strict(copier: &mut CllItemCopier, depth: u32) -> u32
    ensures set_up { depth ≤ MOST_LEVELS → (result ≡ code a.Ok) × IsItemSetUp Shortest depth copier.new }
    ensures argument { MOST_LEVELS < depth → (result ≡ code a.Argument) × (copier.new ≡ copier.old) }
{
    capi::cll_item_copier_init_strict(copier, depth)
}

/// Gives a copier the next bytes of its item, and writes their shortest spelling (RFC 7049, 3.9) as [`cll_copier_feed`]
/// does. After a fault, too, a later call takes and writes nothing.
///
/// # Answers
///
/// - `Ok`: the item has ended and is written. The place is its length.
/// - `Short`, `Room`: as of [`cll_copier_feed`], but the place of a `Short` is how many bytes are due.
/// - `Syntax`, `BreakDue`, `TooDeep`, `TooLong`: as of [`cll_checker_feed`].
/// - `Argument`: the memory holds no copier of an item.
#[unsafe(no_mangle)]
pub extern "C" fn cll_item_copier_feed(
    copier: &mut CllItemCopier,
    bytes: &[u8],
    out: &mut [u8],
    report: &mut CllReport,
) -> u32
    ensures fed { (allowed : Spelling) (depth : ℕ) (read written : List ℕ)
        → IsItemCopyKept allowed depth read written copier.old → (answer : CllAnswer) × (result ≡ code answer)
        × FeedsItem allowed depth read written bytes.now out.old answer out.new report.new copier.new }
    ensures answers { IsCode result }
    ensures within { StaysWithin bytes.now out.old out.new report.new }
    ensures argument { IsNoItemCopier copier.old → (result ≡ code a.Argument) × (copier.new ≡ copier.old)
        × (out.new ≡ out.old) × Reports report.new 0 0 0 }
{
    capi::cll_item_copier_feed(copier, bytes, out, report)
}

/// Says what it means that no more bytes come to a copier of an item.
///
/// # Answers
///
/// - `Ok`: no byte came, or the item has ended and is written.
/// - `Short`: the item is cut off, and the place is how many bytes were due.
/// - `Room`: [`cll_item_copier_feed`] has more to write, also with no bytes.
/// - `Syntax`, `BreakDue`, `TooDeep`, `Argument`: as of [`cll_item_copier_feed`].
#[unsafe(no_mangle)]
pub extern "C" fn cll_item_copier_end(copier: &CllItemCopier, report: &mut CllReport) -> u32
    ensures ended { (allowed : Spelling) (depth : ℕ) (read written : List ℕ)
        → IsItemCopyKept allowed depth read written copier.now → (answer : CllAnswer) × (result ≡ code answer)
        × EndsItem allowed depth read written answer report.new }
    ensures answers { IsCode result }
    ensures argument { IsNoItemCopier copier.now → (result ≡ code a.Argument) × Reports report.new 0 0 0 }
{
    capi::cll_item_copier_end(copier, report)
}
