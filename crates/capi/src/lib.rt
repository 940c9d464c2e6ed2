// SPDX-License-Identifier: Apache-2.0
//! The calls that `capi_export` exports for C. Tests use this crate, since a static library is for C alone.
#![tactic(auto)]

ghost use Rattle.std.specs.Prelude.{◌≡◌, ◌≢◌, ◌↔◌, ◌≤◌, ◌<◌, ◌⊎◌, List, ◌++◌, drop, length, Bool, true, false, ℕ};
ghost use Rattle.std.specs.Prelude.{None, Some};
ghost use Rattle.cbor_deterministic.specs.declared.Order.{Order as AnyOrder};
ghost use Rattle.cbor_deterministic.specs.declared.Why.{Why as AnyWhy};
ghost use Rattle.cbor_deterministic.specs.Deterministic.{HasDeterministic};
ghost use Rattle.cbor_deterministic.specs.Refusals.{HasRefusal};
ghost use Rattle.ciborium_ll.specs.Decoding.{IsSteady, offset_of, reader_of, waiting_of};
ghost use Rattle.ciborium_ll.specs.Faults.{BeginsWithElements};
ghost use Rattle.ciborium_ll.specs.Recoding.{CopiesElements};
ghost use Rattle.ciborium_ll.specs.RecodingTold.{HasRoom};
ghost use Rattle.ciborium_ll.specs.Sides.{sides};
ghost use Rattle.ciborium_ll.specs.Slices.{slice_target};
ghost use Rattle.ciborium_ll_grammar.specs.declared.spelling.Spelling.{Spelling};
ghost use Rattle.ciborium_ll_grammar.specs.declared.spelling.Spelling.TheVariants.{Any, Shortest};
ghost use Rattle.ciborium_ll_grammar.specs.Parts.{IsParts, title_bytes};
ghost use Rattle.ciborium_ll_text.specs.Text.{IsCharacters};
ghost use Rattle.cbor_skip.specs.ItemFaults.{BeginsWithItem};
ghost use Rattle.cbor_view.specs.Segments.{SpellsText};
ghost use Rattle.cbor_view.specs.Views.{IsBytesOf, IsTextOf};
ghost use Rattle.capi.specs.declared.answer.CllAnswer.{CllAnswer};
ghost use Rattle.capi.specs.declared.answer.CllAnswer.TheVariants as a;
ghost use Rattle.capi.specs.declared.titles.CllTitle.{CllTitle as AnyTitle};
ghost use Rattle.capi.specs.Answers.{IsCode, Reports, code, version_code};
ghost use Rattle.capi.specs.Checking.{Checks};
ghost use Rattle.capi.specs.Copying.{CopiesInto, CopiesAnyhow, copy_answer, copy_place};
ghost use Rattle.capi.specs.Counting.{CountsCopy, CountsElements, CountsStrictly};
ghost use Rattle.capi.specs.Determining.{Determines, IsNoOrder, named_place, order_code, why_answer};
ghost use Rattle.capi.specs.Feeding.{EndsFed, Feeds, IsKept, IsNoChecker, IsSetUp, TakesWithin};
ghost use Rattle.capi.specs.ItemPieces.{EndsItem, FeedsItem, IsItemCopyKept, IsItemSetUp};
ghost use Rattle.capi.specs.ItemPieces.{IsNoItemCopier};
ghost use Rattle.capi.specs.Lacking.{ElementsLack, ItemLacks};
ghost use Rattle.capi.specs.Pieces.{EndsCopied, FeedsCopied, IsCopierOf, IsCopyKept, IsNoCopier, StaysWithin};
ghost use Rattle.capi.specs.Pulling.{CllPull, BeginsWithTitle};
ghost use Rattle.capi.specs.Pushing.{CllPush, Puts};
ghost use Rattle.capi.specs.Rewriting.{Rewrites};
ghost use Rattle.capi.specs.Skipping.{Skips, skip_answer, skip_place};
ghost use Rattle.capi.specs.Texts.{FindsText};
ghost use Rattle.capi.specs.Titles.{FillsTitles, Gives, HasTitles, StopsTitles};
ghost use Rattle.capi.specs.Viewing.{Finds, GivesBody, IsInteger, ListsItems, StepsOn, TellsHeader, Views};
ghost use Rattle.capi.specs.Widths.{PushesWide};
ghost use Rattle.ciborium_ll_grammar.specs.declared.limits.TheConstants.{LEAST_BUFFER, MOST_LEVELS};

mod answer;
mod canonical;
mod checker;
mod copier;
mod deterministic;
mod due;
mod front;
mod header;
mod item;
mod item_copier;
mod items;
mod keys;
mod parser;
mod tally;
mod titles;
mod wide;

pub use self::answer::{CllAnswer, CllReport};
use self::canonical::rewrite_item;
pub use self::checker::CllChecker;
pub use self::copier::CllCopier;
use self::deterministic::{check_item, order_of};
use self::due::{due_behind, item_len};
use self::front::pull_front;
pub use self::header::CllHeader;
pub use self::item::{CllBody, CllItem};
pub use self::item_copier::CllItemCopier;
pub use self::items::CllItems;
pub use self::parser::{
    CllEvent, CllParser, cll_parser_end, cll_parser_init, cll_parser_init_strict, cll_parser_push,
};
use self::tally::{Tally, copy_counted};
pub use self::titles::CllTitle;
use self::wide::title_in;
pub use cbor_canonical::Span;
use cbor_skip::{SkipError, skip_item};
use ciborium_ll::io::{Discard, EndOfFile, OutOfSpace, Read, SliceReader, SliceWriter, Write};
use ciborium_ll::laws::strict_run;
use ciborium_ll::{Decoder, Encoder, Error, RecodeError, Spelling};
use ciborium_ll_decoder::title::pull_title;
use ciborium_ll_encoder::enc::push_title;
use ciborium_ll_grammar::hdr::{Title, shortest};
use ciborium_ll_grammar::limits::{LONGEST_TITLE, MOST_LEVELS};
use ciborium_ll_text::state::{State, is_text, text_front, text_of};

/// The length of the buffer through which bodies go, in bytes.
const BUFFER_SIZE: usize = 1024;

/// Returns the version, which is 0.1.0: 65536 times its major number, 256 times its minor one, and its patch number.
pub fn cll_version() -> u32
    ensures { result ≡ version_code 0 1 0 }
{
    0x00_01_00
}

/// Reads the title with which the bytes begin.
#[inline(always)]
fn pull(bytes: &[u8], header: &mut CllHeader, consumed: &mut usize) -> CllAnswer
    ensures { CllPull bytes.now result header.old header.new consumed.new }
{
    match pull_front(bytes, header) {
        Some(len) => {
            *consumed = len;
            CllAnswer::Ok
        }
        None => pull_any(bytes, header, consumed),
    }
}

/// Reads the title with which the bytes begin, if they are few or begin with none.
fn pull_any(bytes: &[u8], header: &mut CllHeader, consumed: &mut usize) -> CllAnswer
    ensures { CllPull bytes.now result header.old header.new consumed.new }
{
    let mut decoder = Decoder::from(SliceReader::new(bytes));
    let pulled = pull_title(&mut decoder);
    *consumed = decoder.offset();
    match pulled {
        Ok((pulled, title)) => {
            let parts = CllHeader::of_title(title, pulled);
            // Copy field by field: a copy of a struct also copies the bytes between and after its fields.
            header.value = parts.value;
            header.kind = parts.kind;
            header.indefinite = parts.indefinite;
            CllAnswer::Ok
        }
        Err(Error::Io(_)) => CllAnswer::Short,
        // The title at fault stands at the start.
        Err(Error::Syntax(_)) => CllAnswer::Syntax,
        Err(_) => CllAnswer::TooLong,
    }
}

/// Reads the title with which the bytes begin (RFC 7049, 2.1 to 2.3).
#[tactic(auto, using(crate::proofs::PullLaws::pulled_exactly))]
pub fn cll_pull(bytes: &[u8], header: &mut CllHeader, consumed: &mut usize) -> u32
    ensures exactly { result ≡ code a.Ok ↔ BeginsWithTitle bytes.now }
    ensures pulled { (answer : CllAnswer) × (result ≡ code answer)
        × CllPull bytes.now answer header.old header.new consumed.new }
{
    pull(bytes, header, consumed).code()
}

/// Fills `titles` with the headers of the bytes (RFC 7049, 2.1 to 2.3), one after the other, and their places.
pub fn cll_headers(bytes: &[u8], titles: &mut [CllTitle], report: &mut CllReport) -> u32
    ensures exactly { (taken : ℕ) (entries : List AnyTitle) → (HasTitles (length titles.old) bytes.now taken entries
        ↔ (result ≡ code a.Ok) × Gives titles.old taken entries titles.new report.new) }
    ensures stopped { (taken : ℕ) (entries : List AnyTitle) → (StopsTitles (length titles.old) bytes.now taken entries
        ↔ (result ≢ code a.Ok) × Gives titles.old taken entries titles.new report.new) }
    ensures filled { (answer : CllAnswer) × (result ≡ code answer)
        × FillsTitles bytes.now titles.old answer titles.new report.new }
{
    titles::fill(bytes, titles, report).code()
}

/// Writes a title to the start of the output, whole or not at all.
#[inline(always)]
fn put(title: Title, out: &mut [u8], report: &mut CllReport) -> CllAnswer
    requires { IsParts title }
    ensures { Puts (title_bytes title) out.old result out.new report.new }
{
    report.say(0, 0, 0);
    // The contracts do not know the end of a loan that an encoder holds (`copy_onto`), so the title goes through an
    // array.
    let mut space = [0; LONGEST_TITLE];
    let mut encoder = Encoder::from(SliceWriter::new(&mut space));
    if push_title(&mut encoder, title).is_err() {
        return CllAnswer::Room;
    }
    let writer = encoder.into_inner();
    let bytes = writer.written();
    if out.len() < bytes.len() {
        return CllAnswer::Room;
    }
    out[..bytes.len()].copy_from_slice(bytes);
    report.say(0, bytes.len(), 0);
    CllAnswer::Ok
}

/// Writes the shortest title of a header to the start of the output.
fn push(header: &CllHeader, out: &mut [u8], report: &mut CllReport) -> CllAnswer
    ensures { CllPush header.now out.old result out.new report.new }
{
    match header.header() {
        Some(pushed) => put(shortest(pushed), out, report),
        None => {
            report.say(0, 0, 0);
            CllAnswer::Argument
        }
    }
}

/// Writes the shortest title of a header to the start of `out` (RFC 7049, 3.9), whole or not at all.
pub fn cll_push(header: &CllHeader, out: &mut [u8], report: &mut CllReport) -> u32
    ensures { (answer : CllAnswer) × (result ≡ code answer) × CllPush header.now out.old answer out.new report.new }
{
    push(header, out, report).code()
}

/// Writes the title of a header in a width to the start of the output.
fn push_wide(header: &CllHeader, width: u32, out: &mut [u8], report: &mut CllReport) -> CllAnswer
    ensures { PushesWide header.now width out.old result out.new report.new }
{
    match title_in(header, width) {
        Some(title) => put(title, out, report),
        None => {
            report.say(0, 0, 0);
            CllAnswer::Argument
        }
    }
}

/// Writes the title of a header that has `width` bytes after its first one to the start of `out` (RFC 7049, 2.1), whole
/// or not at all.
pub fn cll_push_wide(header: &CllHeader, width: u32, out: &mut [u8], report: &mut CllReport) -> u32
    ensures { (answer : CllAnswer) × (result ≡ code answer)
        × PushesWide header.now width out.old answer out.new report.new }
{
    push_wide(header, width, out, report).code()
}

/// Returns the answer to a copy, and its place.
fn stop_of_copy(copied: Result<(), RecodeError<EndOfFile, OutOfSpace>>) -> (CllAnswer, usize)
    ensures answer { result.0 ≡ copy_answer copied }
    ensures place { result.1 ≡ copy_place copied }
{
    match copied {
        Ok(()) => (CllAnswer::Ok, 0),
        Err(RecodeError::Read(Error::Io(_))) => (CllAnswer::Short, 0),
        Err(RecodeError::Read(Error::Syntax(place))) => (CllAnswer::Syntax, place),
        Err(RecodeError::Read(_)) => (CllAnswer::TooLong, 0),
        Err(RecodeError::Write(_)) => (CllAnswer::Room, 0),
    }
}

/// Copies `count` elements to the slice of a writer, which keeps its slice.
fn copy_onto<'a, R: Read>(
    decoder: &mut Decoder<R>,
    writer: &mut SliceWriter<'a>,
    bytes: &[u8],
    count: usize,
    buffer: &mut [u8],
    tally: &mut Tally,
) -> Result<(), RecodeError<R::Error, OutOfSpace>>
    requires room { LEAST_BUFFER ≤ length buffer.old }
    requires steady { IsSteady R.Read decoder.old }
    requires ahead { R.Read.ahead (reader_of decoder.old) ≡ Some bytes.now }
    requires none_waits { waiting_of decoder.old ≡ None }
    requires start { offset_of decoder.old ≡ 0 }
    ensures copied { CopiesElements R.Read ⟦<SliceWriter<'a> as Write>⟧ count (length buffer.old)
        (sides decoder.old writer.old) result (sides decoder.new writer.new) }
    ensures counted { CountsCopy R.Read ⟦<SliceWriter<'a> as Write>⟧ count (length buffer.old)
        (sides decoder.old writer.old) result (sides decoder.new writer.new) tally.new.elements tally.new.whole
        tally.new.spelled }
    ensures target { slice_target writer.new ≡ slice_target writer.old }
{
    // The contracts know the end of a loan inside a writer, but not inside an encoder over the writer.
    copy_counted(decoder, writer, bytes, count, buffer, tally)
}

/// Copies `count` elements, and reports how far the copy came.
fn copy(bytes: &[u8], count: usize, out: &mut [u8], report: &mut CllReport) -> CllAnswer
    ensures copied { HasRoom count bytes.now (length out.old)
        → CopiesInto count bytes.now out.old result out.new report.new }
    ensures exactly { HasRoom count bytes.now (length out.old)
        → (result ≡ a.Ok ↔ BeginsWithElements Any count bytes.now) }
    ensures anyhow { CopiesAnyhow count bytes.now out.old result out.new report.new }
    ensures counted { CountsElements count bytes.now (length out.old) result out.new report.new }
{
    let mut buffer = [0; BUFFER_SIZE];
    let mut decoder = Decoder::from(SliceReader::new(bytes));
    let mut writer = SliceWriter::new(out);
    let mut tally = Tally {
        elements: 0,
        whole: 0,
        spelled: 0,
    };
    let copied = copy_onto(
        &mut decoder,
        &mut writer,
        bytes,
        count,
        &mut buffer,
        &mut tally,
    );
    let (answer, place) = stop_of_copy(copied);
    let written = writer.written().len();
    report.say_elements(decoder.offset(), written, place, tally);
    answer
}

/// Copies as `copy` does. If the bytes end too early, the report also says how many more are due.
fn copy_or_due(bytes: &[u8], count: usize, out: &mut [u8], report: &mut CllReport) -> CllAnswer
    ensures copied { HasRoom count bytes.now (length out.old)
        → CopiesInto count bytes.now out.old result out.new report.new }
    ensures exactly { HasRoom count bytes.now (length out.old)
        → (result ≡ a.Ok ↔ BeginsWithElements Any count bytes.now) }
    ensures anyhow { CopiesAnyhow count bytes.now out.old result out.new report.new }
    ensures counted { CountsElements count bytes.now (length out.old) result out.new report.new }
    ensures due { result ≡ a.Short → ElementsLack Any count bytes.now report.new.whole report.new.place }
{
    match copy(bytes, count, out, report) {
        CllAnswer::Short => {
            report.place = due_behind(&bytes[report.whole as usize..], 1, Spelling::Any) as u64;
            CllAnswer::Short
        }
        answer => answer,
    }
}

/// Copies `count` elements into `out`, each in its shortest spelling (RFC 7049, 3.9).
pub fn cll_recode(bytes: &[u8], count: u64, out: &mut [u8], report: &mut CllReport) -> u32
    ensures exactly { HasRoom count bytes.now (length out.old)
        → (result ≡ code a.Ok ↔ BeginsWithElements Any count bytes.now) }
    ensures counted { (answer : CllAnswer) × (result ≡ code answer)
        × CountsElements count bytes.now (length out.old) answer out.new report.new }
    ensures due { result ≡ code a.Short → ElementsLack Any count bytes.now report.new.whole report.new.place }
    ensures anyhow { (answer : CllAnswer) × (result ≡ code answer)
        × CopiesAnyhow count bytes.now out.old answer out.new report.new }
    ensures copied { HasRoom count bytes.now (length out.old)
        → (answer : CllAnswer) × (result ≡ code answer) × CopiesInto count bytes.now out.old answer out.new report.new }
{
    copy_or_due(bytes, count as usize, out, report).code()
}

/// Reads `count` elements, each in its shortest spelling, and reports how far the read came.
fn check(bytes: &[u8], count: usize, report: &mut CllReport) -> CllAnswer
    ensures checked { Checks count bytes.now result report.new }
    ensures exactly { result ≡ a.Ok ↔ BeginsWithElements Shortest count bytes.now }
    ensures counted { CountsStrictly count bytes.now result report.new }
{
    let mut buffer = [0; BUFFER_SIZE];
    let mut tally = Tally {
        elements: 0,
        whole: 0,
        spelled: 0,
    };
    let mut decoder = Decoder::strict(SliceReader::new(bytes));
    // A strict copy writes exactly what it reads, so the length of the input is room enough.
    let mut writer = Discard::new(bytes.len());
    let copied = copy_counted(
        &mut decoder,
        &mut writer,
        bytes,
        count,
        &mut buffer,
        &mut tally,
    );
    let (answer, place) = stop_of_copy(copied);
    tally.spelled = 0;
    report.say_elements(decoder.offset(), 0, place, tally);
    answer
}

/// Reads as `check` does. If the bytes end too early, the report also says how many more are due.
fn check_or_due(bytes: &[u8], count: usize, report: &mut CllReport) -> CllAnswer
    ensures checked { Checks count bytes.now result report.new }
    ensures exactly { result ≡ a.Ok ↔ BeginsWithElements Shortest count bytes.now }
    ensures counted { CountsStrictly count bytes.now result report.new }
    ensures due { result ≡ a.Short → ElementsLack Shortest count bytes.now report.new.whole report.new.place }
{
    match check(bytes, count, report) {
        CllAnswer::Short => {
            // This call does nothing. It names the law that elements in their shortest spelling are those whose titles
            // are strict.
            strict_run();
            report.place = due_behind(
                &bytes[report.whole as usize..],
                1,
                Spelling::Shortest,
            ) as u64;
            CllAnswer::Short
        }
        answer => answer,
    }
}

/// Checks that the bytes begin with `count` elements in their shortest spelling (RFC 7049, 3.9).
pub fn cll_strict(bytes: &[u8], count: u64, report: &mut CllReport) -> u32
    ensures exactly { result ≡ code a.Ok ↔ BeginsWithElements Shortest count bytes.now }
    ensures counted { (answer : CllAnswer) × (result ≡ code answer)
        × CountsStrictly count bytes.now answer report.new }
    ensures due { result ≡ code a.Short → ElementsLack Shortest count bytes.now report.new.whole report.new.place }
    ensures checked { (answer : CllAnswer) × (result ≡ code answer) × Checks count bytes.now answer report.new }
{
    check_or_due(bytes, count as usize, report).code()
}

/// The answer to a skip, and its place.
fn stop_of_skip(skipped: Result<(), SkipError<EndOfFile>>) -> (CllAnswer, usize)
    ensures answer { result.0 ≡ skip_answer skipped }
    ensures place { result.1 ≡ skip_place skipped }
{
    match skipped {
        Ok(()) => (CllAnswer::Ok, 0),
        Err(SkipError::Read(Error::Io(_))) => (CllAnswer::Short, 0),
        Err(SkipError::Read(Error::Syntax(place))) => (CllAnswer::Syntax, place),
        Err(SkipError::Read(_)) => (CllAnswer::TooLong, 0),
        Err(SkipError::Break(place)) => (CllAnswer::BreakDue, place),
        Err(SkipError::Deep(place)) => (CllAnswer::TooDeep, place),
    }
}

/// Skips the item with which the bytes begin, title by title.
fn skip(bytes: &[u8], depth: usize, report: &mut CllReport) -> CllAnswer
    requires shallow { depth ≤ MOST_LEVELS }
    ensures skipped { Skips depth bytes.now result report.new }
    ensures exactly { result ≡ a.Ok ↔ BeginsWithItem Any depth bytes.now }
{
    let mut buffer = [0; BUFFER_SIZE];
    let mut decoder = Decoder::from(SliceReader::new(bytes));
    let skipped = skip_item(&mut decoder, depth, &mut buffer);
    let (answer, place) = stop_of_skip(skipped);
    report.say(decoder.offset(), 0, place);
    answer
}

/// Skips the item with which the bytes begin. If the bytes end too early, the report also says how many more are due.
fn skip_or_due(bytes: &[u8], depth: usize, report: &mut CllReport) -> CllAnswer
    requires shallow { depth ≤ MOST_LEVELS }
    ensures skipped { Skips depth bytes.now result report.new }
    ensures exactly { result ≡ a.Ok ↔ BeginsWithItem Any depth bytes.now }
    ensures due { result ≡ a.Short → ItemLacks Any depth bytes.now report.new.place }
{
    // A checker finds a whole item faster, since it takes items in runs, but it is slower to make than a few bytes are
    // to skip. Only the skip tells a fault and its place.
    if bytes.len() > LONGEST_TITLE
        && let Some(len) = item_len(bytes, depth)
    {
        report.say(len, 0, 0);
        return CllAnswer::Ok;
    }
    match skip(bytes, depth, report) {
        CllAnswer::Short => {
            report.place = due_behind(bytes, depth, Spelling::Any) as u64;
            CllAnswer::Short
        }
        answer => answer,
    }
}

/// Skips the item with which the bytes begin, nested at most `depth` levels deep (RFC 7049, 2.1 to 2.4).
pub fn cll_skip(bytes: &[u8], depth: u32, report: &mut CllReport) -> u32
    ensures exactly { depth ≤ MOST_LEVELS → (result ≡ code a.Ok ↔ BeginsWithItem Any depth bytes.now) }
    ensures due { depth ≤ MOST_LEVELS → result ≡ code a.Short → ItemLacks Any depth bytes.now report.new.place }
    ensures argument { MOST_LEVELS < depth → (result ≡ code a.Argument) × Reports report.new 0 0 0 }
    ensures skipped { depth ≤ MOST_LEVELS
        → (answer : CllAnswer) × (result ≡ code answer) × Skips depth bytes.now answer report.new }
{
    if depth as usize > MOST_LEVELS {
        report.say(0, 0, 0);
        return CllAnswer::Argument.code();
    }
    skip_or_due(bytes, depth as usize, report).code()
}

/// Checks that the bytes begin with an item in the deterministic encoding (RFC 8949, 4.2.1 and 4.2.3), nested at most
/// `depth` levels deep.
pub fn cll_deterministic(bytes: &[u8], depth: u32, order: u32, report: &mut CllReport) -> u32
    ensures exactly { (keys : AnyOrder) (len : ℕ) → depth ≤ MOST_LEVELS → order ≡ order_code keys
        → (HasDeterministic keys depth bytes.now len ↔ (result ≡ code a.Ok) × (report.new.consumed ≡ len)) }
    ensures refused { (keys : AnyOrder) (why : AnyWhy) (offset : ℕ) → depth ≤ MOST_LEVELS → order ≡ order_code keys
        → HasRefusal keys depth bytes.now why offset
        → (result ≡ code (why_answer why)) × Reports report.new offset 0 (named_place why offset) }
    ensures determined { (keys : AnyOrder) → depth ≤ MOST_LEVELS → order ≡ order_code keys
        → (answer : CllAnswer) × (result ≡ code answer) × Determines keys depth bytes.now answer report.new }
    ensures argument { (MOST_LEVELS < depth) ⊎ IsNoOrder order → (result ≡ code a.Argument) × Reports report.new 0 0 0 }
{
    if depth as usize > MOST_LEVELS || order > 1 {
        report.say(0, 0, 0);
        return CllAnswer::Argument.code();
    }
    check_item(bytes, depth as usize, order_of(order), report).code()
}

/// Writes the deterministic encoding of the item that begins the bytes to the start of `out` (RFC 8949, 4.2.1 and
/// 4.2.3). Its tags, arrays and maps nest at most `depth` levels deep.
pub fn cll_canonical(
    bytes: &[u8],
    depth: u32,
    order: u32,
    out: &mut [u8],
    spans: &mut [Span],
    report: &mut CllReport,
) -> u32
    ensures rewritten { (keys : AnyOrder) → depth ≤ MOST_LEVELS → order ≡ order_code keys
        → (answer : CllAnswer) × (result ≡ code answer)
        × Rewrites keys depth bytes.now (length spans.old) answer out.new report.new }
    ensures argument { (MOST_LEVELS < depth) ⊎ IsNoOrder order
        → (result ≡ code a.Argument) × Reports report.new 0 0 0 × (out.new ≡ out.old) }
{
    if depth as usize > MOST_LEVELS || order > 1 {
        report.say(0, 0, 0);
        return CllAnswer::Argument.code();
    }
    rewrite_item(bytes, depth as usize, order_of(order), out, spans, report).code()
}

/// Parses the item with which the bytes begin, nested at most `depth` levels deep (RFC 7049, 2.1 to 2.4).
pub fn cll_item_parse<'a>(
    bytes: &'a [u8],
    depth: u32,
    item: &mut CllItem<'a>,
    report: &mut CllReport,
) -> u32
    ensures exactly { depth ≤ MOST_LEVELS → (result ≡ code a.Ok ↔ BeginsWithItem Any depth bytes.now) }
    ensures parsed { result ≡ code a.Ok
        → Views depth bytes.now item.new × (report.new.consumed ≡ length item.new.bytes.now) }
    ensures kept { result ≢ code a.Ok → item.new ≡ item.old }
    ensures due { depth ≤ MOST_LEVELS → result ≡ code a.Short → ItemLacks Any depth bytes.now report.new.place }
    ensures argument { MOST_LEVELS < depth → (result ≡ code a.Argument) × Reports report.new 0 0 0 }
    ensures skipped { depth ≤ MOST_LEVELS
        → (answer : CllAnswer) × (result ≡ code answer) × Skips depth bytes.now answer report.new }
{
    if depth as usize > MOST_LEVELS {
        report.say(0, 0, 0);
        return CllAnswer::Argument.code();
    }
    item::parse(bytes, depth, item, report).code()
}

/// Tells the header of an item.
pub fn cll_item_header(item: &CllItem, header: &mut CllHeader) -> u32
    ensures exactly { result ≡ code a.Ok ↔ BeginsWithTitle item.now.bytes.now }
    ensures told { (answer : CllAnswer) × (result ≡ code answer)
        × TellsHeader item.now.bytes.now answer header.old header.new }
{
    item::tell_header(item.bytes, header).code()
}

/// Gives the body of a byte string of definite length (RFC 7049, 2.1).
pub fn cll_item_bytes<'a>(item: &CllItem<'a>, body: &mut CllBody<'a>) -> u32
    ensures { (answer : CllAnswer) × (result ≡ code answer)
        × GivesBody (IsBytesOf item.now.bytes.now) answer body.old body.new }
{
    item::give_bytes(item.bytes, body).code()
}

/// Gives the body of a text string of definite length (RFC 7049, 2.1).
pub fn cll_item_text<'a>(item: &CllItem<'a>, body: &mut CllBody<'a>) -> u32
    ensures { (answer : CllAnswer) × (result ≡ code answer)
        × GivesBody (IsTextOf item.now.bytes.now) answer body.old body.new }
{
    item::give_text(item.bytes, body).code()
}

/// Lists the items in an item (RFC 7049, 2.1 and 2.2).
pub fn cll_item_items<'a>(item: &CllItem<'a>, items: &mut CllItems<'a>) -> u32
    ensures { (answer : CllAnswer) × (result ≡ code answer) × ListsItems item.now answer items.old items.new }
{
    items::list(item, items).code()
}

/// Takes the first of the items that are left.
pub fn cll_item_next<'a>(items: &mut CllItems<'a>, item: &mut CllItem<'a>) -> u32
    ensures { (answer : CllAnswer) × (result ≡ code answer)
        × StepsOn answer items.old item.old items.new item.new }
{
    items::next(items, item).code()
}

/// Gives the value of the first pair of a map whose key has these bytes.
pub fn cll_item_get<'a>(item: &CllItem<'a>, key: &[u8], value: &mut CllItem<'a>) -> u32
    ensures { (answer : CllAnswer) × (result ≡ code answer)
        × Finds (λ other. other ≡ key.now) item.now answer value.old value.new }
{
    keys::by_bytes(item, key, value).code()
}

/// Gives the value of the first pair of a map whose key is this text, in any spelling.
pub fn cll_item_get_text<'a>(item: &CllItem<'a>, key: &[u8], value: &mut CllItem<'a>) -> u32
    ensures found { IsCharacters key.now → (answer : CllAnswer) × (result ≡ code answer)
        × Finds (λ other. ∥ SpellsText other key.now ∥₁) item.now answer value.old value.new }
    ensures argument { (IsCharacters key.now → ⊥) → (result ≡ code a.Argument) × (value.new ≡ value.old) }
{
    if !is_text(key) {
        return CllAnswer::Argument.code();
    }
    keys::by_text(item, text_of(key), value).code()
}

/// Gives the value of the first pair of a map whose key is this integer, in any spelling.
pub fn cll_item_get_int<'a>(item: &CllItem<'a>, key: i64, value: &mut CllItem<'a>) -> u32
    ensures { (answer : CllAnswer) × (result ≡ code answer)
        × Finds (IsInteger key) item.now answer value.old value.new }
{
    let (is_negative, number) = keys::parts_of(key);
    keys::by_integer(item, is_negative, number, value).code()
}

/// Finds the longest front of the bytes that is text.
fn find_text(bytes: &[u8], report: &mut CllReport) -> CllAnswer
    ensures found { FindsText bytes.now result report.new }
    ensures exactly { result ≡ a.Ok ↔ IsCharacters bytes.now }
    ensures pieces { (more : List ℕ)
        → (IsCharacters (bytes.now ++ more) ↔ IsCharacters (drop report.new.consumed bytes.now ++ more)) }
{
    let (front, behind) = text_front(bytes, 0, State::Between);
    let len = front.len();
    let (answer, place) = match behind {
        State::Between => (CllAnswer::Ok, 0),
        State::Damaged => (CllAnswer::Syntax, len),
        _ => (CllAnswer::Short, 0),
    };
    report.say(len, 0, place);
    answer
}

/// Finds the longest front of the bytes that is UTF-8 (RFC 3629), and reports its length as consumed.
#[tactic(auto, using(crate::proofs::PullLaws::code_exactly))]
pub fn cll_utf8(bytes: &[u8], report: &mut CllReport) -> u32
    ensures exactly { result ≡ code a.Ok ↔ IsCharacters bytes.now }
    ensures pieces { (more : List ℕ)
        → (IsCharacters (bytes.now ++ more) ↔ IsCharacters (drop report.new.consumed bytes.now ++ more)) }
    ensures found { (answer : CllAnswer) × (result ≡ code answer) × FindsText bytes.now answer report.new }
{
    find_text(bytes, report).code()
}

/// Sets a checker up for an item nested at most `depth` levels deep (RFC 7049, 2.1 to 2.4).
pub fn cll_checker_init(checker: &mut CllChecker, depth: u32) -> u32
    ensures set_up { depth ≤ MOST_LEVELS → (result ≡ code a.Ok) × IsSetUp Any depth checker.new }
    ensures argument { MOST_LEVELS < depth → (result ≡ code a.Argument) × (checker.new ≡ checker.old) }
{
    if depth as usize > MOST_LEVELS {
        return CllAnswer::Argument.code();
    }
    checker::init(checker, depth as usize, Spelling::Any);
    CllAnswer::Ok.code()
}

/// Sets a checker up for an item in its shortest spelling (RFC 7049, 3.9).
pub fn cll_checker_init_strict(checker: &mut CllChecker, depth: u32) -> u32
    ensures set_up { depth ≤ MOST_LEVELS → (result ≡ code a.Ok) × IsSetUp Shortest depth checker.new }
    ensures argument { MOST_LEVELS < depth → (result ≡ code a.Argument) × (checker.new ≡ checker.old) }
{
    if depth as usize > MOST_LEVELS {
        return CllAnswer::Argument.code();
    }
    checker::init(checker, depth as usize, Spelling::Shortest);
    CllAnswer::Ok.code()
}

/// Gives a checker the next bytes of its item.
pub fn cll_checker_feed(checker: &mut CllChecker, bytes: &[u8], report: &mut CllReport) -> u32
    ensures fed { (allowed : Spelling) (depth : ℕ) (read : List ℕ) → IsKept allowed depth read checker.old
        → (answer : CllAnswer) × (result ≡ code answer)
        × Feeds allowed depth read bytes.now answer report.new checker.new }
    ensures answers { IsCode result }
    ensures within { TakesWithin bytes.now report.new }
    ensures argument { IsNoChecker checker.old
        → (result ≡ code a.Argument) × (checker.new ≡ checker.old) × Reports report.new 0 0 0 }
{
    checker::feed(checker, bytes, report).code()
}

/// Says what it means that no more bytes come to a checker, and leaves it as it is.
pub fn cll_checker_end(checker: &CllChecker, report: &mut CllReport) -> u32
    ensures ended { (allowed : Spelling) (depth : ℕ) (read : List ℕ) → IsKept allowed depth read checker.now
        → (answer : CllAnswer) × (result ≡ code answer) × EndsFed allowed depth read answer report.new }
    ensures answers { IsCode result }
    ensures argument { IsNoChecker checker.now → (result ≡ code a.Argument) × Reports report.new 0 0 0 }
{
    checker::end(checker, report).code()
}

/// Sets a copier of `count` elements up (RFC 7049, 2.1 and 2.2).
pub fn cll_copier_init(copier: &mut CllCopier, count: u64) -> u32
    ensures { (result ≡ code a.Ok) × IsCopierOf Any count copier.new }
{
    copier::init(copier, count as usize, Spelling::Any);
    CllAnswer::Ok.code()
}

/// Sets a copier up for `count` elements that are in their shortest spelling (RFC 7049, 3.9).
pub fn cll_copier_init_strict(copier: &mut CllCopier, count: u64) -> u32
    ensures { (result ≡ code a.Ok) × IsCopierOf Shortest count copier.new }
{
    copier::init(copier, count as usize, Spelling::Shortest);
    CllAnswer::Ok.code()
}

/// Gives a copier the next bytes of its elements, and writes to the start of `out` as much of their shortest spelling
/// as it can (RFC 7049, 3.9).
pub fn cll_copier_feed(
    copier: &mut CllCopier,
    bytes: &[u8],
    out: &mut [u8],
    report: &mut CllReport,
) -> u32
    ensures fed { (allowed : Spelling) (count : ℕ) (read written : List ℕ)
        → IsCopyKept allowed count read written copier.old → (answer : CllAnswer) × (result ≡ code answer)
        × FeedsCopied allowed count read written bytes.now out.old answer out.new report.new copier.new }
    ensures answers { IsCode result }
    ensures within { StaysWithin bytes.now out.old out.new report.new }
    ensures argument { IsNoCopier copier.old → (result ≡ code a.Argument) × (copier.new ≡ copier.old)
        × (out.new ≡ out.old) × Reports report.new 0 0 0 }
{
    copier::feed(copier, bytes, out, report).code()
}

/// Says what it means that no more bytes come to a copier, and leaves it as it is.
pub fn cll_copier_end(copier: &CllCopier, report: &mut CllReport) -> u32
    ensures ended { (allowed : Spelling) (count : ℕ) (read written : List ℕ)
        → IsCopyKept allowed count read written copier.now
        → (answer : CllAnswer) × (result ≡ code answer) × EndsCopied allowed count read written answer report.new }
    ensures answers { IsCode result }
    ensures argument { IsNoCopier copier.now → (result ≡ code a.Argument) × Reports report.new 0 0 0 }
{
    copier::end(copier, report).code()
}

/// Sets a copier of an item up, nested at most `depth` levels deep (RFC 7049, 2.1 to 2.4).
pub fn cll_item_copier_init(copier: &mut CllItemCopier, depth: u32) -> u32
    ensures set_up { depth ≤ MOST_LEVELS → (result ≡ code a.Ok) × IsItemSetUp Any depth copier.new }
    ensures argument { MOST_LEVELS < depth → (result ≡ code a.Argument) × (copier.new ≡ copier.old) }
{
    if depth as usize > MOST_LEVELS {
        return CllAnswer::Argument.code();
    }
    item_copier::init(copier, depth as usize, Spelling::Any);
    CllAnswer::Ok.code()
}

/// Sets a copier up for an item that is in its shortest spelling (RFC 7049, 3.9).
pub fn cll_item_copier_init_strict(copier: &mut CllItemCopier, depth: u32) -> u32
    ensures set_up { depth ≤ MOST_LEVELS → (result ≡ code a.Ok) × IsItemSetUp Shortest depth copier.new }
    ensures argument { MOST_LEVELS < depth → (result ≡ code a.Argument) × (copier.new ≡ copier.old) }
{
    if depth as usize > MOST_LEVELS {
        return CllAnswer::Argument.code();
    }
    item_copier::init(copier, depth as usize, Spelling::Shortest);
    CllAnswer::Ok.code()
}

/// Gives a copier of an item its next bytes, and writes to the start of `out` as much of their shortest spelling as it
/// can (RFC 7049, 3.9).
pub fn cll_item_copier_feed(
    copier: &mut CllItemCopier,
    bytes: &[u8],
    out: &mut [u8],
    report: &mut CllReport,
) -> u32
    ensures fed { (allowed : Spelling) (depth : ℕ) (read written : List ℕ)
        → IsItemCopyKept allowed depth read written copier.old → (answer : CllAnswer) × (result ≡ code answer)
        × FeedsItem allowed depth read written bytes.now out.old answer out.new report.new copier.new }
    ensures answers { IsCode result }
    ensures within { StaysWithin bytes.now out.old out.new report.new }
    ensures argument { IsNoItemCopier copier.old → (result ≡ code a.Argument) × (copier.new ≡ copier.old)
        × (out.new ≡ out.old) × Reports report.new 0 0 0 }
{
    item_copier::feed(copier, bytes, out, report).code()
}

/// Says what it means that no more bytes come to a copier of an item, and leaves it as it is.
pub fn cll_item_copier_end(copier: &CllItemCopier, report: &mut CllReport) -> u32
    ensures ended { (allowed : Spelling) (depth : ℕ) (read written : List ℕ)
        → IsItemCopyKept allowed depth read written copier.now → (answer : CllAnswer) × (result ≡ code answer)
        × EndsItem allowed depth read written answer report.new }
    ensures answers { IsCode result }
    ensures argument { IsNoItemCopier copier.now → (result ≡ code a.Argument) × Reports report.new 0 0 0 }
{
    item_copier::end(copier, report).code()
}
