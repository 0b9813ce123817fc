//! Answers to `getaddr` as messages: `addrman_answers_open`, `_forget`, and `addrman_answer`.

ghost use Rattle.std.specs.Prelude.{◌≡◌, ◌≢◌, ◌≤◌, None, length};
ghost use Rattle.addr_codecs.specs.declared.message.TheConstants.{MAX_ENTRIES};
ghost use Rattle.c_values.specs.Values.{class_of};
ghost use Rattle.addrman_c.specs.Answering.{NewCall, ForgetCall, OnThree, AnswerCall, KeyCall, PutAnswer, times_of};
ghost use Rattle.addrman_c.specs.Calls.{form_of};

use crate::adding::form_of;
use addr_answers::{Answers, key_of};
use addr_codecs::Form;
use ban_list::Bans;
use c_handles::{AnswersHandle, BansHandle, Handle, KeptAnswers, Keyed};
use c_values::code::{ARGUMENT, CLOSED, MEMORY, NONE, OK, SHORT_BUFFER, SHORT_WORDS};
use c_values::{put_all, read_class};
use getaddr::{RequestFault, Times, prepare_with, write_answer};
use net_addr::{Entry, Net};
use std::alloc::Global;
use tables::Tables;

/// Opens a list of answers that has none. What the handle had is dropped.
#[unsafe(no_mangle)]
pub extern "C" fn addrman_answers_open(alloc: Global, handle: &mut AnswersHandle) -> u32
    ensures { NewCall result handle.new.loose.kept }
{
    let _old = handle.take(alloc);
    let kept = KeptAnswers {
        answers: Answers::make(alloc),
    };
    match Box::new(alloc, kept) {
        Ok(kept) => {
            handle.put(kept);
            OK
        }
        Err(_) => MEMORY,
    }
}

/// Drops what the handle has.
#[unsafe(no_mangle)]
pub extern "C" fn addrman_answers_close(alloc: Global, handle: &mut AnswersHandle)
    ensures { handle.new.loose.kept ≡ None }
{
    handle.close(alloc);
}

/// Drops all answers.
#[unsafe(no_mangle)]
pub extern "C" fn addrman_answers_forget(alloc: Global, handle: &mut AnswersHandle) -> u32
    ensures { ForgetCall handle.old.loose.kept result handle.new.loose.kept }
{
    let Some(mut kept) = handle.take(alloc) else {
        return CLOSED;
    };
    kept.answers.forget();
    handle.put(kept);
    OK
}

/// Writes the message of an answer, and how many bytes it has.
pub(crate) fn put_answer(
    alloc: Global,
    form: Form,
    entries: &[Entry],
    payload: &mut [u8],
    written: &mut usize,
) -> u32
    requires { length entries.now ≤ MAX_ENTRIES }
    ensures call { PutAnswer form entries.now result payload.old payload.new written.new }
    ensures same { result ≢ OK → payload.new ≡ payload.old }
    ensures written { result ≢ OK → result ≢ SHORT_BUFFER → written.new ≡ written.old }
{
    match write_answer(alloc, form, entries) {
        Ok(bytes) => put_all(payload, bytes.items(), written),
        Err(_) => MEMORY,
    }
}

/// Answers a request of a key by the answer that is kept for it, or by a new one.
fn answer_key(
    alloc: Global,
    answers: &mut Answers,
    tables: &mut Tables<'_, Keyed>,
    bans: &Bans,
    key: u64,
    form: Form,
    times: Times,
    now: u32,
    words: &[u64],
    payload: &mut [u8],
    length: &mut usize,
) -> u32
    ensures call { KeyCall key form times now words.now answers.old tables.old bans.now result
        payload.old payload.new length.new answers.new tables.new }
    ensures same { result ≢ OK → payload.new ≡ payload.old }
    ensures length { result ≢ OK → result ≢ SHORT_WORDS → result ≢ SHORT_BUFFER
        → length.new ≡ length.old }
{
    match prepare_with(alloc, answers, tables, bans, key, times, now, words) {
        Ok(()) => put_answer(alloc, form, answers.told(key, now), payload, length),
        Err(RequestFault::NoRoom) => NONE,
        Err(RequestFault::ShortWords { need }) => {
            *length = need;
            SHORT_WORDS
        }
        Err(RequestFault::Memory) => MEMORY,
    }
}

/// Answers a request of a network class that came in on a local socket.
fn answer_on(
    alloc: Global,
    answers: &mut Answers,
    tables: &mut Tables<'_, Keyed>,
    bans: &Bans,
    requester: Option<Net>,
    socket: u32,
    form: Form,
    times: Times,
    now: u32,
    words: &[u64],
    payload: &mut [u8],
    length: &mut usize,
) -> u32
    ensures call { AnswerCall requester socket form times now words.now answers.old tables.old
        bans.now result payload.old payload.new length.new answers.new tables.new }
    ensures same { result ≢ OK → payload.new ≡ payload.old }
    ensures length { result ≢ OK → result ≢ SHORT_WORDS → result ≢ SHORT_BUFFER
        → length.new ≡ length.old }
{
    let Some(net) = requester else {
        return ARGUMENT;
    };
    let key = key_of(net, socket);
    answer_key(
        alloc, answers, tables, bans, key, form, times, now, words, payload, length,
    )
}

/// Writes the message that answers a `getaddr`: the answer that is kept for the network class of
/// the requester and the local socket, or a new sample of the tables without banned addresses.
#[unsafe(no_mangle)]
pub extern "C" fn addrman_answer(
    alloc: Global,
    answers: &mut AnswersHandle,
    handle: &mut Handle,
    bans: &mut BansHandle,
    requester: u8,
    socket: u32,
    is_v2: bool,
    own_times: bool,
    now: u32,
    words: &[u64],
    payload: &mut [u8],
    length: &mut usize,
) -> u32
    ensures call { OnThree answers.old.loose.kept handle.old.loose.kept bans.old.loose.kept result
        answers.new.loose.kept handle.new.loose.kept bans.new.loose.kept
        (λ kept st list kept_after st_after. AnswerCall (class_of requester) socket (form_of is_v2)
        (times_of own_times) now words.now kept st list result payload.old payload.new length.new
        kept_after st_after) }
    ensures same { result ≢ OK → payload.new ≡ payload.old }
    ensures length { result ≢ OK → result ≢ SHORT_WORDS → result ≢ SHORT_BUFFER
        → length.new ≡ length.old }
{
    let Some(mut own) = answers.take(alloc) else {
        return CLOSED;
    };
    let Some(mut kept) = handle.take(alloc) else {
        answers.put(own);
        return CLOSED;
    };
    let Some(list) = bans.take(alloc) else {
        handle.put(kept);
        answers.put(own);
        return CLOSED;
    };
    let code = answer_on(
        alloc,
        &mut own.answers,
        &mut kept.tables,
        &list.bans,
        read_class(requester),
        socket,
        form_of(is_v2),
        if own_times { Times::Own } else { Times::Hidden },
        now,
        words,
        payload,
        length,
    );
    bans.put(list);
    handle.put(kept);
    answers.put(own);
    code
}
