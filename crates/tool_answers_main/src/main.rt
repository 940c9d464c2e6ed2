// SPDX-License-Identifier: Apache-2.0
//! A program that answers lines on CBOR titles, strings and copies.
//!
//! It reads lines from standard input and answers each on standard output. It takes no arguments. `ciborium_ll_tool`
//! answers the same lines and also copies raw bytes, so its proof takes longer.
#![tactic(auto)]

use std::io;
use std::process::ExitCode;
use tool_answers::fault::fault_of_run;
use tool_answers::service::run;

fn main(rt: HostRuntime) -> ExitCode {
    match run(rt.alloc(), rt.reader(), io::writer(&rt)) {
        Ok(()) => ExitCode::SUCCESS,
        Err(error) => {
            let fault = fault_of_run(&error);
            let _ = eprintln!(rt; "{fault}");
            ExitCode::FAILURE
        }
    }
}
