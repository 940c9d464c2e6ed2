// SPDX-License-Identifier: Apache-2.0
//! A program that runs a call of the library again and again over the same bytes, to measure its time.
//!
//! `bench WORK SIZE COUNT ROUNDS` reads standard input whole and works on it ROUNDS times. It prints a sum that a
//! program over another library prints too.
#![tactic(auto)]

mod work;

use crate::work::{Task, Work};
use std::env;
use std::io::{self, Read};
use std::process::ExitCode;

fn main(rt: HostRuntime) -> ExitCode {
    let Ok(Some(task)) = parse_task(&rt) else {
        let _ = eprintln!(rt;
            "usage: bench pull|strict-pull|push|recode|strict-recode|skip|items|slice|flat|text SIZE COUNT ROUNDS"
        );
        return ExitCode::from(2);
    };
    let Ok(sum) = work_through(&rt, &task) else {
        return ExitCode::FAILURE;
    };
    match println!(rt; "{sum}") {
        Ok(()) => ExitCode::SUCCESS,
        Err(_) => ExitCode::FAILURE,
    }
}

/// Returns the task that the words after the program's name ask for, or `None` if they ask for none.
fn parse_task(rt: &HostRuntime) -> io::Result<Option<Task>> {
    let mut words = Vec::new(rt.alloc());
    for word in env::args(rt)?.skip(1) {
        if words.push(word).is_err() {
            return Ok(None);
        }
    }
    if words.len() != 4 {
        return Ok(None);
    }
    let Some(work) = work_from_name(words[0].as_str()) else {
        return Ok(None);
    };
    match (
        words[1].as_str().parse::<usize>(),
        words[2].as_str().parse::<usize>(),
        words[3].as_str().parse::<usize>(),
    ) {
        (Ok(size), Ok(count), Ok(rounds)) => Ok(Some(Task {
            work,
            size,
            count,
            rounds,
        })),
        _ => Ok(None),
    }
}

/// Returns the work of this name, if there is one.
fn work_from_name(name: &str) -> Option<Work> {
    match name {
        "pull" => Some(Work::Pull),
        "strict-pull" => Some(Work::StrictPull),
        "push" => Some(Work::Push),
        "recode" => Some(Work::Recode),
        "strict-recode" => Some(Work::StrictRecode),
        "skip" => Some(Work::Skip),
        "items" => Some(Work::Items),
        "slice" => Some(Work::Slice),
        "flat" => Some(Work::Flat),
        "text" => Some(Work::Text),
        _ => None,
    }
}

/// Runs the task over the bytes of standard input.
fn work_through(rt: &HostRuntime, task: &Task) -> io::Result<u64> {
    let mut input = Vec::new(rt.alloc());
    rt.reader().read_to_end(&mut input)?;
    let mut output = vec![in rt.alloc(); 0u8; input.len().saturating_mul(2)]?;
    Ok(task.run_rounds(input.as_slice(), output.as_mut_slice()))
}
