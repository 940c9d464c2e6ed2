// SPDX-License-Identifier: Apache-2.0
//! A program that answers lines on CBOR titles, strings and copies.
//!
//! It reads lines from standard input and answers each on standard output. With the arguments `recode COUNT` it copies
//! `COUNT` elements from standard input to standard output.
#![tactic(auto)]

use std::process::ExitCode;
use std::{env, io};
use tool_lines::fault::{Fault, fault_of_raw, fault_of_run};
use tool_lines::prompt::raw_prompt;
use tool_lines::service::run;
use tool_requests::arguments::chosen;
use tool_requests::choice::Chosen;

fn main(rt: HostRuntime) -> ExitCode {
    let Ok(words) = words_of(&rt) else {
        return name_fault(&rt, Fault::Read);
    };
    let outcome = match chosen(words.as_slice()) {
        Chosen::Lines => answer_lines(&rt),
        Chosen::Raw(count) => copy_elements(&rt, count),
        Chosen::Usage => {
            let _ = eprintln!(rt; "usage: ciborium_ll_tool [recode COUNT]");
            return ExitCode::from(2);
        }
    };
    match outcome {
        Ok(()) => ExitCode::SUCCESS,
        Err(fault) => name_fault(&rt, fault),
    }
}

/// Returns the words after the program's name. The error is that of the arguments, or says that there is no memory.
fn words_of(rt: &HostRuntime) -> io::Result<Vec<String>> {
    let mut words = Vec::new(rt.alloc());
    let mut arguments = env::args(rt)?;
    let _ = arguments.next();
    for word in arguments {
        words.push(word)?;
    }
    Ok(words)
}

/// Answers the lines of standard input on standard output.
fn answer_lines(rt: &HostRuntime) -> Result<(), Fault> {
    match run(rt.alloc(), rt.reader(), io::writer(rt)) {
        Ok(()) => Ok(()),
        Err(error) => Err(fault_of_run(&error)),
    }
}

/// Copies `count` elements from standard input to standard output. It writes output that is ready before it waits for
/// more input.
fn copy_elements(rt: &HostRuntime, count: usize) -> Result<(), Fault> {
    let (_, _, copied) = raw_prompt(rt.reader(), io::writer(rt), count);
    match copied {
        Ok(()) => Ok(()),
        Err(error) => Err(fault_of_raw(&error)),
    }
}

/// Names the fault on standard error.
fn name_fault(rt: &impl Eprint, fault: Fault) -> ExitCode {
    let _ = eprintln!(rt; "{fault}");
    ExitCode::FAILURE
}
