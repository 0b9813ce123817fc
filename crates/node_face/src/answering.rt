//! `answer` and `AnswerFault`: a request for addresses.

ghost use Rattle.std.specs.Prelude.{◌≡◌, ◌<◌, ◌↔◌, ◌⊎◌, true, length, map, filter, Some, Err, IfOk, OnOk, OnErr};
ghost use Rattle.addr_answers.specs.Answers.{key_of};
ghost use Rattle.addr_answers.specs.Runs.{after_ask, told};
ghost use Rattle.addr_codecs.specs.Layout.{IsMessage};
ghost use Rattle.getaddr.specs.Messages.{fits};
ghost use Rattle.getaddr.specs.Requests.{lacks_room, wants_answer};
ghost use Rattle.node_face.specs.Answering.{words_for, request_by, tables_by};

use crate::sampling::words_of;
use addr_answers::{Answers, key_of};
use addr_codecs::Form;
use ban_list::Bans;
use getaddr::{RequestFault, Times, prepare_with, write_answer};
use host_io::Bytes;
use net_addr::Net;
use rand_core::Rng;
use std::alloc::Global;
use std::hash::BuildHasher;
use tables::{Memory, Tables};

/// Why a request has no answer.
#[derive(Clone, Copy, Debug, PartialEq, Eq)]
pub enum AnswerFault {
    /// `addr_answers::MAX_KEYS` other keys have answers. Nothing changes.
    NoRoom,
    /// Out of memory. A new answer may be kept, and the order of the records may have changed.
    Memory,
}

/// Draws the random words for a request of a key: none unless a new answer is wanted.
fn words_for<H: BuildHasher, R: Rng>(
    alloc: Global,
    answers: &Answers,
    tables: &Tables<'_, H>,
    key: u64,
    now: u32,
    rng: &mut R,
) -> Result<Vec<u64>, Memory>
    ensures words { IfOk result (λ words. words.items
        ≡ words_for (R.stream rng.old) answers.now tables.now key now) }
    ensures enough { IfOk result (λ words. wants_answer answers.now key now ≡ true
        → length tables.now.order < length words.items) }
    ensures err { OnErr result (wants_answer answers.now key now ≡ true) }
{
    if answers.find(key, now).is_some() || !answers.has_room(key) {
        return Ok(Vec::new(alloc));
    }
    let counts = tables.counts();
    words_of(alloc, counts.new_count + counts.tried_count + 1, rng)
}

/// Answers a request for addresses (`getaddr`) of a network class, which came in on the local
/// socket of this number, at a time in seconds since 1970: with the answer that is kept for the
/// two, or a new one (`getaddr::prepare_with`). A new one needs random words, which are drawn.
pub fn answer<H: BuildHasher, R: Rng>(
    alloc: Global,
    answers: &mut Answers,
    tables: &mut Tables<'_, H>,
    bans: &Bans,
    requester: Net,
    socket: u32,
    form: Form,
    times: Times,
    now: u32,
    rng: &mut R,
) -> Result<Bytes, AnswerFault>
    ensures message { IfOk result (λ bytes. IsMessage form bytes
        (map Some (filter (fits form) (told answers.old (request_by (R.stream rng.old)
        answers.old tables.old bans.now (key_of requester socket) times now))))) }
    ensures kept { OnOk result (answers.new ≡ after_ask answers.old (request_by
        (R.stream rng.old) answers.old tables.old bans.now (key_of requester socket) times now)) }
    ensures state { OnOk result (tables.new ≡ tables_by (R.stream rng.old) answers.old
        tables.old bans.now (key_of requester socket) times now) }
    ensures order { tables.new ≡ record tables.old { order = tables.new.order } }
    ensures no_room { result ≡ Err AnswerFault.NoRoom
        ↔ lacks_room answers.old (key_of requester socket) now ≡ true }
    ensures none { result ≡ Err AnswerFault.NoRoom →
        (answers.new ≡ answers.old) × (tables.new ≡ tables.old) }
    ensures memory { result ≡ Err AnswerFault.Memory → (answers.new ≡ answers.old)
        ⊎ (answers.new ≡ after_ask answers.old (request_by (R.stream rng.old) answers.old
        tables.old bans.now (key_of requester socket) times now)) }
{
    let key = key_of(requester, socket);
    let Ok(words) = words_for(alloc, answers, tables, key, now, rng) else {
        return Err(AnswerFault::Memory);
    };
    let words = words.as_slice();
    match prepare_with(alloc, answers, tables, bans, key, times, now, words) {
        Ok(()) => {}
        Err(RequestFault::NoRoom) => return Err(AnswerFault::NoRoom),
        Err(RequestFault::Memory) => return Err(AnswerFault::Memory),
        Err(RequestFault::ShortWords { .. }) => unreachable!(),
    }
    match write_answer(alloc, form, answers.told(key, now)) {
        Ok(bytes) => Ok(bytes),
        Err(_) => Err(AnswerFault::Memory),
    }
}
