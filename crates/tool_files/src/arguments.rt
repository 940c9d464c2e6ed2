//! The requests of the program's arguments.

ghost use Rattle.std.specs.Prelude.{◌≡◌, ◌≤◌, ◌+◌, ◌++◌, ◌↔◌, ℕ, List, String, [], false, length, map, string_bytes};
ghost use Rattle.std.specs.Prelude.{◌⊎◌, IfErr, IfNone, IfOk, IfSome, IsSome, IsTrue, vec_capacity, vec_len};
ghost use Rattle.std.specs.declared.alloc.Global.{Global};
ghost use Rattle.tool_files.specs.Arguments.{AsksAbout, AsksFor, AsksOf, IsHelp, IsOption, TakesValue, Wanted, Wish};
ghost use Rattle.tool_files.specs.Arguments.{IsCount, IsHelpWord, NamesTopic, choices_of, texts, wanted_by};
ghost use Rattle.tool_files.specs.Orders.{order_name};
ghost use Rattle.cbor_deterministic.specs.declared.Order.{Order as AnyOrder};
ghost use Rattle.tool_files.specs.declared.options.Word.{Word};
ghost use Rattle.tool_files.specs.declared.request.Topic.{Topic};

pub use crate::options::{Colors, Options, View, Word};
pub use crate::request::{Refusal, Request, Topic};
use cbor_deterministic::Order;
use cbor_diag::Layout;
use cbor_embedded::Embedded;
use cbor_json::Mode;
use ciborium_ll::Spelling;
use tool_requests::number::{MOST_DEPTH, number_up_to};

impl Word {
    ghost use Rattle.tool_files.specs.Arguments.{word_name};

    /// Returns the word of this name.
    pub(crate) fn from_name(name: &str) -> Option<Word>
        ensures some { IfSome result (λ word. name.now ≡ word_name word) }
        ensures none { IfNone result ((word : Word) → name.now ≡ word_name word → ⊥) }
    {
        match name {
            "check" => Some(Word::Check),
            "dump" => Some(Word::Show(View::Titles)),
            "diag" => Some(Word::Show(View::Notation)),
            "json" => Some(Word::Show(View::Json)),
            "encode" => Some(Word::Encode),
            "canon" => Some(Word::Canon),
            "recode" => Some(Word::Recode),
            _ => None,
        }
    }
}

impl Colors {
    ghost use Rattle.tool_files.specs.Arguments.{colors_name};
    ghost use Rattle.tool_files.specs.declared.options.Colors.{Colors};

    /// Returns the colors of this name.
    fn from_name(name: &str) -> Option<Colors>
        ensures some { IfSome result (λ colors. name.now ≡ colors_name colors) }
        ensures none { IfNone result ((colors : Colors) → name.now ≡ colors_name colors → ⊥) }
    {
        match name {
            "auto" => Some(Colors::Auto),
            "always" => Some(Colors::Always),
            "never" => Some(Colors::Never),
            _ => None,
        }
    }
}

/// Returns the order of keys that has this name.
fn parse_order(name: &str) -> Option<Order>
    ensures some { IfSome result (λ order. name.now ≡ order_name order) }
    ensures none { IfNone result ((order : AnyOrder) → name.now ≡ order_name order → ⊥) }
{
    match name {
        "bytewise" => Some(Order::Bytewise),
        "length-first" => Some(Order::LengthFirst),
        _ => None,
    }
}

/// Returns the count that a word spells: `0`, or a digit from 1 to 9 and digits after it, at most `usize::MAX`.
fn count_of(word: &str) -> Option<usize>
    ensures some { IfSome result (IsCount word.now) }
    ensures none { IfNone result ((n : ℕ) → IsCount word.now n → ⊥) }
{
    let bytes = word.as_bytes();
    if bytes.is_empty() || bytes[0] == b'+' {
        return None;
    }
    if bytes[0] == b'0' && bytes.len() > 1 {
        return None;
    }
    word.parse::<usize>().ok()
}

/// One option, with its value.
#[derive(Clone, Copy)]
enum Setting {
    /// `--strict`
    Strict,
    /// `--deterministic`
    Deterministic,
    /// `--order NAME`
    Order(Order),
    /// `--one`
    One,
    /// `--skip N`
    Skip(usize),
    /// `--items N`
    Items(usize),
    /// `--index`
    Index,
    /// `--max N`
    Max(usize),
    /// `--names`
    Names,
    /// `--hex`
    Hex,
    /// `--offsets`
    Offsets,
    /// `--color WHEN`
    Colors(Colors),
    /// `--pretty`
    Pretty,
    /// `--exact`
    Exact,
    /// `--embedded`
    Embedded,
    /// `--embedded=tagged`
    Tagged,
    /// `--lossy`
    Lossy,
    /// `--depth N`
    Depth(usize),
}

impl Setting {
    ghost use Rattle.tool_files.specs.Arguments.{IsKnown, IsShallow, JoinsValue, SpellsSetting, SpellsValue};
    ghost use Rattle.tool_files.specs.Arguments.{has_value, setting_name};
    ghost use Rattle.tool_files.specs.declared.arguments.Setting.{Setting};

    /// Returns whether the first word has this option.
    fn is_known(self, word: Word) -> bool
        ensures { IsTrue result ↔ IsKnown word self }
    {
        match (self, word) {
            (Setting::Depth(_), _) => true,
            (Setting::Strict | Setting::Hex, Word::Check | Word::Show(_)) => true,
            (Setting::One, Word::Check | Word::Encode | Word::Show(View::Json)) => true,
            (Setting::Names | Setting::Deterministic | Setting::Index, Word::Check) => true,
            (Setting::Skip(_) | Setting::Items(_), Word::Check | Word::Show(_) | Word::Recode) => {
                true
            }
            (Setting::Order(_), Word::Check | Word::Canon) => true,
            (Setting::Offsets | Setting::Colors(_) | Setting::Max(_), Word::Show(View::Titles)) =>
                true,
            (Setting::Pretty | Setting::Exact, Word::Show(View::Notation)) => true,
            (Setting::Embedded | Setting::Tagged, Word::Show(View::Titles | View::Notation)) =>
                true,
            (Setting::Lossy, Word::Show(View::Json)) => true,
            _ => false,
        }
    }

    /// Returns the option of this name, unless it takes a value.
    fn from_name(name: &str) -> Option<Setting>
        ensures some { IfSome result (λ setting. (has_value setting ≡ false) × (name.now ≡ setting_name setting)) }
        ensures none { IfNone result ((setting : Setting) → has_value setting ≡ false
            → name.now ≡ setting_name setting → ⊥) }
    {
        match name {
            "--strict" => Some(Setting::Strict),
            "--deterministic" => Some(Setting::Deterministic),
            "--one" => Some(Setting::One),
            "--index" => Some(Setting::Index),
            "--names" => Some(Setting::Names),
            "--hex" => Some(Setting::Hex),
            "--offsets" => Some(Setting::Offsets),
            "--pretty" => Some(Setting::Pretty),
            "--exact" => Some(Setting::Exact),
            "--embedded" => Some(Setting::Embedded),
            "--embedded=tagged" => Some(Setting::Tagged),
            "--lossy" => Some(Setting::Lossy),
            _ => None,
        }
    }

    /// Returns the option of this name that takes this value.
    fn parse_valued(name: &str, value: &str) -> Option<Setting>
        ensures some { IfSome result (λ setting. (name.now ≡ setting_name setting) × SpellsValue setting value.now) }
        ensures none { IfNone result ((setting : Setting) → name.now ≡ setting_name setting
            → SpellsValue setting value.now → ⊥) }
    {
        if name == "--depth" {
            return Some(Setting::Depth(number_up_to(MOST_DEPTH, value)?));
        }
        if name == "--color" {
            return Some(Setting::Colors(Colors::from_name(value)?));
        }
        if name == "--order" {
            return Some(Setting::Order(parse_order(value)?));
        }
        if name == "--skip" {
            return Some(Setting::Skip(count_of(value)?));
        }
        if name == "--items" {
            return Some(Setting::Items(count_of(value)?));
        }
        if name == "--max" {
            return Some(Setting::Max(count_of(value)?));
        }
        None
    }

    /// Returns the option that the word spells with its value, as `--depth=3`.
    fn parse_joined(word: &str) -> Option<Setting>
        ensures some { IfSome result (λ setting. JoinsValue setting word.now) }
        ensures none { IfNone result ((setting : Setting) → JoinsValue setting word.now → ⊥) }
    {
        let Some((name, value)) = word.split_once('=') else {
            return None;
        };
        Setting::parse_valued(name, value)
    }

    /// Reads the option that has this name, with its value: the name ends with `=` and the value, or the value is the
    /// next word.
    ///
    /// Returns the option and the words after it. `None` means that the first word has no option of this name, or that
    /// the option takes no such value.
    fn parse<'w>(word: Word, name: &str, words: &'w [String]) -> Option<(Setting, &'w [String])>
        ensures some { IfSome result (λ parsed. IsKnown word parsed.0 × IsShallow parsed.0
            × SpellsSetting parsed.0 name.now words.now parsed.1.now) }
        ensures none { IfNone result ((setting : Setting) → (behind : List (String Global)) → IsKnown word setting
            → SpellsSetting setting name.now words.now behind → ⊥) }
    {
        let (setting, behind) = Setting::parse_any(name, words)?;
        if setting.is_known(word) {
            Some((setting, behind))
        } else {
            None
        }
    }

    /// Reads the option that has this name, of any first word.
    fn parse_any<'w>(name: &str, words: &'w [String]) -> Option<(Setting, &'w [String])>
        ensures some { IfSome result (λ parsed. IsShallow parsed.0
            × SpellsSetting parsed.0 name.now words.now parsed.1.now) }
        ensures none { IfNone result ((setting : Setting) → (behind : List (String Global))
            → SpellsSetting setting name.now words.now behind → ⊥) }
    {
        if takes_value(name) {
            let (value, behind) = words.split_first()?;
            let setting = Setting::parse_valued(name, value.as_str())?;
            return Some((setting, behind));
        }
        match Setting::from_name(name) {
            Some(setting) => Some((setting, words)),
            None => Some((Setting::parse_joined(name)?, words)),
        }
    }
}

/// Returns whether the option of this name takes a value.
fn takes_value(name: &str) -> bool
    ensures { IsTrue result ↔ TakesValue name.now }
{
    matches!(
        name,
        "--depth" | "--color" | "--order" | "--skip" | "--items" | "--max"
    )
}

impl Options {
    ghost use Rattle.tool_files.specs.Arguments.{AsksWith, IsShallow, default_choices, wish_of, with_setting};
    ghost use Rattle.tool_files.specs.Arguments.{HasClash, HasNeedlessOrder};

    /// Returns the options by default: bytes in any spelling, as many items as there are, to a depth of 256.
    pub fn new() -> Options
        ensures { choices_of result ≡ default_choices }
    {
        Options {
            spelling: Spelling::Any,
            deterministic: false,
            order: None,
            one: false,
            skip: 0,
            items: None,
            index: false,
            names: false,
            hex: false,
            offsets: false,
            max: None,
            colors: Colors::Auto,
            layout: Layout::OneLine,
            exact: false,
            embedded: Embedded::Nowhere,
            mode: Mode::Strict,
            depth: MOST_DEPTH as usize,
        }
    }

    /// Takes one more option.
    fn set(&mut self, setting: Setting)
        requires { IsShallow setting }
        ensures { choices_of self.new ≡ with_setting setting (choices_of self.old) }
    {
        match setting {
            Setting::Strict => self.spelling = Spelling::Shortest,
            Setting::Deterministic => self.deterministic = true,
            Setting::Order(order) => self.order = Some(order),
            Setting::One => self.one = true,
            Setting::Skip(count) => self.skip = count,
            Setting::Items(count) => self.items = Some(count),
            Setting::Index => self.index = true,
            Setting::Max(rows) => self.max = Some(rows),
            Setting::Names => self.names = true,
            Setting::Hex => self.hex = true,
            Setting::Offsets => self.offsets = true,
            Setting::Colors(colors) => self.colors = colors,
            Setting::Pretty => self.layout = Layout::Indented,
            Setting::Exact => self.exact = true,
            Setting::Embedded => self.embedded = Embedded::Everywhere,
            Setting::Tagged => self.embedded = Embedded::Tagged,
            Setting::Lossy => self.mode = Mode::Lossy,
            Setting::Depth(depth) => self.depth = depth,
        }
    }

    /// Returns why these options ask for nothing of a word, if they do: an order of keys for a check that doesn't look
    /// at it, or two options that exclude each other.
    fn refusal(&self, word: Word) -> Option<Refusal<'static>>
        ensures some { IsSome result → HasNeedlessOrder word (choices_of self.now) ⊎ HasClash (choices_of self.now) }
        ensures none { IfNone result ((HasNeedlessOrder word (choices_of self.now) → ⊥)
            × (HasClash (choices_of self.now) → ⊥)) }
    {
        if matches!(word, Word::Check) && self.order.is_some() && !self.deterministic {
            return Some(Refusal::NeedlessOrder);
        }
        let is_part = self.items.is_some() || self.index;
        if self.one && is_part || self.deterministic && (is_part || self.skip > 0) {
            return Some(self.clash());
        }
        None
    }

    /// Returns two options that exclude each other, if there are any.
    fn clash(&self) -> Refusal<'static> {
        let first = if self.deterministic {
            "--deterministic"
        } else {
            "--one"
        };
        let second = if self.index {
            "--index"
        } else if self.items.is_some() {
            "--items"
        } else {
            "--skip"
        };
        Refusal::Clash(first, second)
    }

    /// Takes the options among the words, and puts the other words, which name files, into `files`.
    ///
    /// Returns whether the words ask for help. The files have room for as many names as there are words.
    ///
    /// # Errors
    ///
    /// The words ask for nothing.
    fn take<'w>(
        &mut self,
        word: Word,
        words: &'w [String],
        files: &mut Vec<&'w str>,
    ) -> Result<bool, Refusal<'w>>
        requires empty { files.old.items ≡ [] }
        requires room { length words.now ≤ vec_capacity files.old }
        ensures ok { IfOk result (λ helps. AsksWith word (choices_of self.old) words.now
            (wish_of helps (choices_of self.new) (texts files.new.items))) }
        ensures err { IfErr result (λ refusal. (wish : Wish) → AsksWith word (choices_of self.old) words.now wish → ⊥) }
    {
        let mut behind = words;
        'words: while let Some((first, rest)) = behind.split_first() {
            let name = first.as_str();
            if !is_option(name) {
                let _ = files.push(name);
                behind = rest;
                continue;
            }
            if name == "--" {
                add_all(rest, files);
                return Ok(false);
            }
            if is_help(name) {
                return Ok(true);
            }
            let Some((setting, more)) = Setting::parse(word, name, rest) else {
                return Err(refusal_at(word, name, rest));
            };
            self.set(setting);
            behind = more;
        }
        Ok(false)
    }
}

/// Returns why a word for a look at files has no option of this name, with the words after it.
fn refusal_at<'w>(word: Word, name: &'w str, words: &'w [String]) -> Refusal<'w> {
    let (key, value) = match name.split_once('=') {
        Some((key, value)) => (key, Some(value)),
        None => (name, None),
    };
    if !is_option_of(word, key) {
        return Refusal::UnknownOption { word, option: key };
    }
    if !takes_value(key) && key != "--embedded" {
        return Refusal::NeedlessValue(key);
    }
    match (value, words.first()) {
        (Some(value), _) => Refusal::BadValue { option: key, value },
        (None, Some(next)) => Refusal::BadValue {
            option: key,
            value: next.as_str(),
        },
        (None, None) => Refusal::NoValue(key),
    }
}

/// Returns whether the first word has an option of this name.
fn is_option_of(word: Word, name: &str) -> bool {
    match (name, Setting::from_name(name)) {
        ("--depth", _) => true,
        ("--color", _) => Setting::Colors(Colors::Auto).is_known(word),
        ("--order", _) => Setting::Order(Order::Bytewise).is_known(word),
        ("--skip", _) => Setting::Skip(0).is_known(word),
        ("--items", _) => Setting::Items(0).is_known(word),
        ("--max", _) => Setting::Max(0).is_known(word),
        (_, Some(setting)) => setting.is_known(word),
        (_, None) => false,
    }
}

/// Adds the words to the files, which have room for them.
fn add_all<'w>(words: &'w [String], files: &mut Vec<&'w str>)
    requires { vec_len files.old + length words.now ≤ vec_capacity files.old }
    ensures { texts files.new.items ≡ texts files.old.items ++ map string_bytes words.now }
{
    let mut behind = words;
    'words: while let Some((first, rest)) = behind.split_first() {
        let _ = files.push(first.as_str());
        behind = rest;
    }
}

/// Returns whether a word is an option. `-` names a file.
fn is_option(word: &str) -> bool
    ensures { IsTrue result ↔ IsOption word.now }
{
    let bytes = word.as_bytes();
    bytes.len() > 1 && bytes[0] == b'-'
}

/// Returns whether an option asks for help.
fn is_help(word: &str) -> bool
    ensures { IsTrue result ↔ IsHelp word.now }
{
    word == "--help" || word == "-h"
}

/// Returns the request of the words after the program's name, and puts the names of files into `files`.
///
/// Options and files follow the first word in any order. After `--` each word is a file, and `-` is a file. The files
/// have room for as many names as there are words.
///
/// # Errors
///
/// The words ask for nothing. The error has the word at fault.
pub fn parse_request<'w>(
    words: &'w [String],
    files: &mut Vec<&'w str>,
) -> Result<Request, Refusal<'w>>
    requires empty { files.old.items ≡ [] }
    requires room { length words.now ≤ vec_capacity files.old }
    ensures ok { IfOk result (λ request. AsksFor words.now (wanted_by request (texts files.new.items))) }
    ensures err { IfErr result (λ refusal. (wanted : Wanted) → AsksFor words.now wanted → ⊥) }
{
    let Some((first, behind)) = words.split_first() else {
        return Err(Refusal::NoWord);
    };
    match Word::from_name(first.as_str()) {
        Some(word) => parse_look(word, behind, files),
        None => parse_help(first.as_str(), behind),
    }
}

/// Returns the request of the words after a word for a look at files.
fn parse_look<'w>(
    word: Word,
    words: &'w [String],
    files: &mut Vec<&'w str>,
) -> Result<Request, Refusal<'w>>
    requires empty { files.old.items ≡ [] }
    requires room { length words.now ≤ vec_capacity files.old }
    ensures ok { IfOk result (λ request. AsksOf word words.now (wanted_by request (texts files.new.items))) }
    ensures err { IfErr result (λ refusal. (wanted : Wanted) → AsksOf word words.now wanted → ⊥) }
{
    let mut options = Options::new();
    if options.take(word, words, files)? {
        return Ok(Request::Help(Topic::Word(word)));
    }
    match options.refusal(word) {
        Some(refusal) => Err(refusal),
        None => Ok(Request::Look { word, options }),
    }
}

/// Returns the request of a first word that is no word for a look at files.
fn parse_help<'w>(first: &'w str, words: &'w [String]) -> Result<Request, Refusal<'w>>
    ensures ok { IfOk result (λ request. (files : List (List ℕ)) → AsksAbout first.now words.now
        (wanted_by request files)) }
    ensures err { IfErr result (λ refusal. (wanted : Wanted) → AsksAbout first.now words.now wanted → ⊥) }
{
    if first == "--version" {
        return match words.split_first() {
            Some((word, _)) => Err(Refusal::Needless(word.as_str())),
            None => Ok(Request::Version),
        };
    }
    if is_help_word(first) {
        return match parse_topic(words) {
            Ok(topic) => Ok(Request::Help(topic)),
            Err(refusal) => Err(refusal),
        };
    }
    Err(Refusal::UnknownWord(first))
}

/// Returns whether a first word asks for help.
fn is_help_word(word: &str) -> bool
    ensures { IsTrue result ↔ IsHelpWord word.now }
{
    word == "help" || is_help(word)
}

/// Returns the topic that the words after a word for help name.
fn parse_topic<'w>(words: &'w [String]) -> Result<Topic, Refusal<'w>>
    ensures ok { IfOk result (λ topic. NamesTopic words.now topic) }
    ensures err { IfErr result (λ refusal. (topic : Topic) → NamesTopic words.now topic → ⊥) }
{
    let Some((name, more)) = words.split_first() else {
        return Ok(Topic::Program);
    };
    let Some(topic) = Topic::from_name(name.as_str()) else {
        return Err(Refusal::UnknownWord(name.as_str()));
    };
    match more.split_first() {
        Some((word, _)) => Err(Refusal::Needless(word.as_str())),
        None => Ok(topic),
    }
}
