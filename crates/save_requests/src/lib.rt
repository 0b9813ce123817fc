//! A save of a file as requests, for callers that carry them out themselves: the library for C,
//! which opens no file.
//!
//! Contracts see a `SaveRequests` as the list of the requests that are still to come.
//!
//! Proved: a folder on which the requests were carried out in their order keeps what a save of
//! `save_store` promises, whether the caller stops in between, a request fails or all are carried
//! out (`begin`, `IsSafeSave`).
//!
//! Tested besides: the saves of `libaddrman`'s callers (`tools/lib_test`).
#![tactic(auto)]

mod requests;

pub use requests::{SaveRequest, SaveRequests};
