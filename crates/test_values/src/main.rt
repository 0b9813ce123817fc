//! Tests of values as data: numbers, addresses, messages that are written, buckets and slots,
//! records, connections of the limit, the order of records and tables of prefixes. Each row of the
//! files that the arguments name is a call and its answer, and each block of rows starts without
//! connections, records and prefixes. The answers are those of an independent program if one can
//! give them; see `tools/fill_calls`, and `tools/make_events` for the rows of connections. What a
//! line or a file of a command shows is a case of `tools/rows`.
#![tactic(auto)]

mod addresses;
mod codes;
mod fields;
mod index_calls;
mod limiter_calls;
mod numbers;
mod places;
mod prefixes;
mod records;
mod rows;
mod text;
mod unread;
mod values;
mod vectors;
mod written;

use rows::check_each;
use std::process::ExitCode;
use values::Values;

fn main(rt: HostRuntime) -> ExitCode {
    match check_each(&rt, &mut Values::make(rt.alloc())) {
        Ok(0) => ExitCode::SUCCESS,
        Ok(_) => ExitCode::FAILURE,
        Err(_) => {
            let _ = rt.eprint("a file of calls cannot be read\n");
            ExitCode::FAILURE
        }
    }
}
