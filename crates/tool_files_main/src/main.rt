// SPDX-License-Identifier: Apache-2.0
//! A program that looks at files of CBOR.
//!
//! It joins the words on its command line with the calls of the libraries. `check` says whether the bytes are
//! well-formed, `dump` shows them title by title, `diag` writes them in diagnostic notation, `json` writes them as JSON,
//! and `encode` reads notation. `canon` writes the deterministic encoding of bytes, and `recode` copies them in their shortest spelling.
#![tactic(auto)]

use cbor_encode::{Expected, NotationError};
use std::env::{Env, VarError};
use std::fs::File;
use std::io::{BufWriter, IsTerminal};
use std::process::ExitCode;
use std::{env, fs, io};
use tool_files::arguments::{Colors, Options, Request, View, Word, parse_request};
use tool_files::canon::{CanonFault, canon_input};
use tool_files::check::check_input;
use tool_files::deterministic::check_deterministic;
use tool_files::dump::dump_input;
use tool_files::encode::{EncodeFault, encode_input};
use tool_files::help::{VERSION, help_text};
use tool_files::index::index_input;
use tool_files::input::Input;
use tool_files::items::{diag_input, json_input};
use tool_files::progress::Watched;
use tool_files::recode::copy_part;
use tool_files::said::Said;
use tool_files::shown::{Shown, ShownBytes};
use tool_verdicts::verdict::{Status, Verdict};

/// The number of the error that a read of a folder gives.
const IS_A_DIRECTORY: i32 = 21;

/// A task for each file.
#[derive(Clone, Copy)]
struct Task {
    word: Word,
    options: Options,
    /// Whether the file's name precedes the answer.
    is_named: bool,
}

/// How many bytes an argument has at most, with the zero that ends it, on Linux.
const MOST_ARGUMENT: usize = 131_072;

fn main(rt: HostRuntime) -> ExitCode {
    let status = match words_of(&rt) {
        Ok(words) => run(&rt, words.as_slice()),
        Err(error) => {
            name_argument(&rt, error);
            Status::Failed
        }
    };
    ExitCode::from(status.code())
}

/// Says on standard error why the arguments can't be read: one is not UTF-8, and the message has it, or the error.
fn name_argument(rt: &HostRuntime, error: io::Error) {
    for index in 1..usize::MAX {
        let Ok(Some(bytes)) = argument(rt, index) else {
            let _ = eprintln!(rt; "cbor: the arguments can't be read: {error}");
            return;
        };
        if str::from_utf8(bytes.as_slice()).is_err() {
            let _ = eprintln!(rt;
                "cbor: the argument {} is not UTF-8",
                ShownBytes(bytes.as_slice())
            );
            return;
        }
    }
}

/// Returns the bytes of an argument, if there is one of this index, and if it is no longer than Linux lets it be. The
/// error says that there is no memory.
fn argument(rt: &HostRuntime, index: usize) -> io::Result<Option<Vec<u8>>> {
    let mut bytes = vec![in rt.alloc(); 0; MOST_ARGUMENT]?;
    match rt.arg(index, bytes.as_mut_slice()) {
        Ok(len) => {
            bytes.truncate(len);
            Ok(Some(bytes))
        }
        Err(_) => Ok(None),
    }
}

/// Runs the request of the words.
fn run(rt: &HostRuntime, words: &[String]) -> Status {
    let Ok(mut files) = Vec::with_capacity(rt.alloc(), words.len()) else {
        let _ = eprintln!(rt; "cbor: {}", io::ErrorKind::OutOfMemory);
        return Status::Failed;
    };
    match parse_request(words, &mut files) {
        Ok(Request::Look { word, options }) => {
            let task = Task {
                word,
                options,
                is_named: options.names || files.len() > 1,
            };
            run_all(rt, task, files.as_slice())
        }
        Ok(Request::Help(topic)) => print_text(rt, help_text(topic)),
        Ok(Request::Version) => print_text(rt, VERSION),
        Err(refusal) => {
            let _ = eprintln!(rt; "cbor: {}", Said::new(rt.alloc(), refusal));
            Status::Usage
        }
    }
}

/// Prints a text on standard output.
fn print_text(rt: &(impl Print + Eprint), text: &str) -> Status {
    match print!(rt; "{text}") {
        Ok(()) => Status::Well,
        Err(error) => output_failed(rt, error),
    }
}

/// Says that standard output failed. A reader that has gone away is no news.
fn output_failed(rt: &impl Eprint, error: io::Error) -> Status {
    let status = Status::after_output(error.kind());
    if !matches!(status, Status::Gone) {
        let _ = eprintln!(rt; "cbor: standard output: {error}");
    }
    status
}

/// Returns the words after the program's name. The error is that of the arguments, or says that there is no memory.
fn words_of(rt: &HostRuntime) -> io::Result<Vec<String>> {
    let mut words = Vec::new(rt.alloc());
    let mut arguments = env::args(rt)?;
    let _ = arguments.next();
    for word in arguments {
        words.push(word)?;
    }
    Ok(words)
}

/// Runs a task on each file, or on standard input if none is named. It returns the worst status.
fn run_all(rt: &HostRuntime, task: Task, files: &[&str]) -> Status {
    if files.is_empty() {
        return run_file(rt, task, "-");
    }
    let mut status = Status::Well;
    for file in files {
        status = status.worse(run_file(rt, task, file));
        if matches!(status, Status::Gone) {
            return status;
        }
    }
    status
}

/// Runs a task on one file, or on standard input for `-`.
fn run_file(rt: &HostRuntime, task: Task, file: &str) -> Status {
    if file == "-" {
        return run_stream(rt, task, file, rt.reader(), None);
    }
    match open_file(rt, file) {
        Ok((source, total)) => run_stream(rt, task, file, source, total),
        Err(error) => {
            let _ = eprintln!(rt; "cbor: {}: {error}", Shown(file));
            Status::Failed
        }
    }
}

/// Opens a file that is no folder. Returns it with its length, if it has one.
fn open_file(rt: &HostRuntime, name: &str) -> io::Result<(File, Option<u64>)> {
    let file = File::open(rt, name)?;
    let metadata = file.metadata()?;
    if metadata.is_dir() {
        return Err(io::Error::from_raw_os_error(IS_A_DIRECTORY));
    }
    let total = if metadata.is_file() {
        Some(metadata.len())
    } else {
        None
    };
    Ok((file, total))
}

/// Runs a task on the bytes of a reader, and says on a terminal how far it is. `total` is the number of bytes, if it is
/// known.
fn run_stream<R: io::Read + Drop>(
    rt: &HostRuntime,
    task: Task,
    file: &str,
    reader: R,
    total: Option<u64>,
) -> Status {
    let mut reader = Watched::new(reader, rt, is_watched(rt, task), total);
    match task.word {
        Word::Check => {
            let outcome = check_stream(rt, &mut reader, task.options);
            reader.clear();
            print_verdict(rt, task, file, outcome)
        }
        Word::Show(view) => {
            let outcome = show_stream(rt, task, file, view, &mut reader);
            reader.clear();
            show_status(rt, file, view, outcome)
        }
        Word::Encode => {
            let mut writer = io::writer(rt);
            let outcome = encode_input(rt.alloc(), &mut reader, &mut writer, task.options);
            reader.clear();
            encode_status(rt, file, outcome)
        }
        Word::Canon => {
            let mut writer = io::writer(rt);
            let outcome = canon_input(rt.alloc(), &mut reader, &mut writer, task.options);
            reader.clear();
            copy_status(rt, file, outcome.map_err(CanonFault::verdict))
        }
        Word::Recode => {
            let (_, outcome) = copy_part(&mut reader, io::writer(rt), task.options);
            reader.clear();
            copy_status(rt, file, outcome)
        }
    }
}
/// Returns whether standard error is a terminal that may be told how far the program is, and standard output doesn't go
/// there: the word writes a line alone, or into a file.
fn is_watched(rt: &HostRuntime, task: Task) -> bool {
    let is_told = rt.stderr().is_terminal() && !is_plain(rt) && !is_set(rt, "CI");
    let writes_a_line = matches!(task.word, Word::Check) && !task.options.index;
    is_told && (writes_a_line || writes_to_file(rt))
}

/// Returns whether standard output is a file.
fn writes_to_file(rt: &HostRuntime) -> bool {
    matches!(fs::metadata(rt, "/dev/stdout"), Ok(metadata) if metadata.is_file())
}

/// Checks the bytes of a reader. With `--index` it also writes the places of items.
fn check_stream<R: io::Read + Drop>(rt: &HostRuntime, reader: R, options: Options) -> Verdict {
    let mut input = Input::new(reader, options);
    let verdict = if options.index {
        index_stream(rt, &mut input, options)
    } else if options.deterministic {
        check_deterministic(rt.alloc(), &mut input, options)
    } else {
        check_input(&mut input, options)
    };
    input.judge(verdict)
}

/// Checks the bytes of a reader, and writes the places of items.
fn index_stream<R: io::Read + Drop>(rt: &HostRuntime, reader: R, options: Options) -> Verdict {
    let outcome = BufWriter::new(rt.alloc(), io::writer(rt)).and_then(|writer| index_input(
        rt.alloc(),
        reader,
        writer,
        options,
    ));
    outcome.unwrap_or_else(Verdict::Output)
}

/// Returns whether the environment asks for no escape sequences.
fn is_plain(rt: &HostRuntime) -> bool {
    is_set(rt, "NO_COLOR") || matches!(env::var(rt, "TERM"), Ok(term) if term.as_str() == "dumb")
}

/// Returns whether the environment has a variable of this name that is not empty.
fn is_set(rt: &HostRuntime, name: &str) -> bool {
    match env::var(rt, name) {
        Ok(value) => !value.is_empty(),
        Err(VarError::NotPresent) => false,
        Err(_) => true,
    }
}

/// Returns whether a dump has colors.
fn has_colors(rt: &HostRuntime, colors: Colors) -> bool {
    match colors {
        Colors::Auto => rt.stdout().is_terminal() && !is_plain(rt),
        Colors::Always => true,
        Colors::Never => false,
    }
}

/// Shows the bytes of a reader. If the task says so, a line with the file's name precedes them, unless they are JSON.
fn show_stream<R: io::Read + Drop>(
    rt: &HostRuntime,
    task: Task,
    file: &str,
    view: View,
    reader: R,
) -> Result<(), Verdict> {
    if task.is_named && !matches!(view, View::Json) {
        println!(rt; "# {}", Shown(file)).map_err(Verdict::Output)?;
    }
    write_view(rt, reader, view, task.options)
}

/// Says on standard error why a file was not shown whole. If standard output is a terminal, the last line of a dump has
/// said a fault of the bytes there.
fn show_status(rt: &HostRuntime, file: &str, view: View, outcome: Result<(), Verdict>) -> Status {
    match outcome {
        Ok(()) => Status::Well,
        Err(verdict) => {
            let is_said = matches!(view, View::Titles)
                && is_row(&verdict)
                && rt.stdout().is_terminal();
            if is_said {
                return verdict.status();
            }
            name_fault(rt, file, verdict)
        }
    }
}

/// Returns whether the last line of a dump says the verdict.
fn is_row(verdict: &Verdict) -> bool {
    !matches!(
        verdict,
        Verdict::Failed(_) | Verdict::Output(_) | Verdict::Text(_)
    )
}

/// Says on standard error why a file was not written whole. A reader that has gone away is no news.
fn name_fault(rt: &impl Eprint, file: &str, verdict: Verdict) -> Status {
    let status = verdict.status();
    if !matches!(status, Status::Gone) {
        let _ = eprintln!(rt; "cbor: {}: {verdict}", Shown(file));
    }
    status
}

/// Says on standard error why a file was not written whole, if it was not.
fn copy_status(rt: &impl Eprint, file: &str, outcome: Result<(), Verdict>) -> Status {
    match outcome {
        Ok(()) => Status::Well,
        Err(verdict) => name_fault(rt, file, verdict),
    }
}

/// Writes the view of a reader's bytes.
fn write_view<R: io::Read + Drop>(
    rt: &HostRuntime,
    reader: R,
    view: View,
    options: Options,
) -> Result<(), Verdict> {
    let writer = io::writer(rt);
    let mut input = Input::new(reader, options);
    let outcome = match view {
        View::Notation => diag_input(&mut input, writer, options),
        View::Json => json_input(&mut input, writer, options),
        View::Titles => {
            let colors = has_colors(rt, options.colors);
            dump_input(rt.alloc(), &mut input, writer, options, colors)
        }
    };
    match outcome {
        Ok(()) => Ok(()),
        Err(verdict) => Err(input.judge(verdict)),
    }
}

/// Says on standard error why notation was not encoded, if it was not.
fn encode_status(rt: &impl Eprint, file: &str, outcome: Result<(), EncodeFault>) -> Status {
    match outcome {
        Ok(()) => Status::Well,
        Err(EncodeFault::Output(error)) => output_failed(rt, error),
        Err(EncodeFault::Input(error)) => {
            let _ = eprintln!(rt; "cbor: {}: {error}", Shown(file));
            Status::Failed
        }
        Err(EncodeFault::Notation(error)) => {
            let _ = eprintln!(rt; "cbor: {}: {error}", Shown(file));
            status_of(error)
        }
    }
}

/// Returns how the program ends after a text that is not encoded.
fn status_of(error: NotationError) -> Status {
    match error.expected {
        Expected::Memory => Status::Failed,
        _ => Status::Malformed,
    }
}

/// Prints a verdict on standard output, and a failure on standard error.
fn print_verdict(rt: &(impl Print + Eprint), task: Task, file: &str, verdict: Verdict) -> Status {
    let status = verdict.status();
    let printed = match (verdict, task.is_named) {
        (Verdict::Output(error), _) => return output_failed(rt, error),
        (verdict @ (Verdict::Failed(_) | Verdict::Text(_)), _) => {
            return name_fault(rt, file, verdict);
        }
        (verdict, true) => println!(rt; "{}: {verdict}", Shown(file)),
        (verdict, false) => println!(rt; "{verdict}"),
    };
    match printed {
        Ok(()) => status,
        Err(error) => output_failed(rt, error),
    }
}
