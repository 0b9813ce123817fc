//! `prepare_with`: the same as `prepare`, with random words in a slice; and `RequestFault`.

ghost use Rattle.std.specs.Prelude.{◌≡◌, ◌<◌, length, IfErr, OnOk, OnErr, true, false};
ghost use Rattle.addr_answers.specs.Runs.{after_ask};
ghost use Rattle.getaddr.specs.Requests.{request, tables_after_request, lacks_room, wants_answer, IsRequestFault};
ghost use Rattle.getaddr.specs.declared.requests.RequestFault.{RequestFault};

use crate::{Times, prepare};
use addr_answers::Answers;
use ban_list::Bans;
use net_addr::Memory;
use random_words::Draws;
use std::alloc::Global;
use std::hash::BuildHasher;
use tables::Tables;

/// Why a request has no answer.
#[derive(Clone, Copy, Debug, PartialEq, Eq)]
pub enum RequestFault {
    /// `addr_answers::MAX_KEYS` other keys have answers.
    NoRoom,
    /// A new answer is wanted, and there are fewer random words than one and one for each record:
    /// how many these are.
    ShortWords { need: usize },
    /// Out of memory.
    Memory,
}

impl From<Memory> for RequestFault {
    ghost from_gives = { λ _ fault. fault ≡ RequestFault.Memory };

    fn from(_error: Memory) -> RequestFault {
        RequestFault::Memory
    }
}

/// Returns the number of records.
fn count_of<H: BuildHasher>(tables: &Tables<'_, H>) -> u32
    ensures { result ≡ length tables.now.order }
{
    let counts = tables.counts();
    counts.new_count + counts.tried_count
}

/// Does what `prepare` does, with random words of which the first selects how long a new answer is
/// kept and the time that hides those of the records. `Answers::told` returns the answer then. With
/// an answer that is kept it needs no words. After `NoRoom` and `ShortWords` nothing has changed;
/// after `Memory` the answers are unchanged, and of the tables at most the order has changed.
pub fn prepare_with<H: BuildHasher>(
    alloc: Global,
    answers: &mut Answers,
    tables: &mut Tables<'_, H>,
    bans: &Bans,
    key: u64,
    times: Times,
    now: u32,
    words: &[u64],
) -> Result<(), RequestFault>
    ensures kept { OnOk result (answers.new ≡ after_ask answers.old
        (request tables.old bans.now times key now words.now)) }
    ensures state { OnOk result (tables.new ≡ tables_after_request answers.old
        (request tables.old bans.now times key now words.now) tables.old words.now) }
    ensures room { OnOk result (lacks_room answers.old key now ≡ false) }
    ensures enough { OnOk result (wants_answer answers.old key now ≡ true
        → length tables.old.order < length words.now) }
    ensures order { tables.new ≡ record tables.old { order = tables.new.order } }
    ensures cause { IfErr result (λ why.
        IsRequestFault tables.old answers.old key now words.now why tables.new) }
    ensures err { OnErr result (answers.new ≡ answers.old) }
{
    if answers.find(key, now).is_some() {
        return Ok(());
    }
    if !answers.has_room(key) {
        return Err(RequestFault::NoRoom);
    }
    let records = count_of(tables) as usize;
    if words.len() <= records {
        return Err(RequestFault::ShortWords { need: records + 1 });
    }
    let rest = Draws::of(&words[1..]);
    prepare(
        alloc, answers, tables, bans, key, times, now, words[0], rest,
    )?;
    Ok(())
}
