//! `admit` and `AdmitFault`: how many entries of a message a connection may send, if its number is
//! known.

ghost use Rattle.std.specs.Prelude.{◌≡◌, ◌<◌, ◌↔◌, None, Some, Err, IfOk, OnOk, OnErr, option_map};
ghost use Rattle.addr_codecs.specs.declared.message.TheConstants.{MAX_ENTRIES};
ghost use Rattle.limiter.specs.State.{find_conn};
ghost use Rattle.limiter.specs.Tokens.{refill, intake_count};
ghost use Rattle.limiter.specs.Calls.{after_taking};

use addr_codecs::MAX_ENTRIES;
use limiter::Limiter;
use std::hash::BuildHasher;

/// Why no entries are admitted.
#[derive(Clone, Copy, Debug, PartialEq, Eq)]
pub enum AdmitFault {
    /// The number has no connection.
    Unknown,
    /// A message has no more entries than `MAX_ENTRIES`.
    TooMany,
}

/// Takes a message of this many entries from the number's connection, at a time in seconds since
/// 1970, and returns how many of them are admitted: the first ones (`Limiter::admit`). After an
/// error nothing has changed.
pub fn admit<H: BuildHasher>(
    limiter: &mut Limiter<H>,
    number: u32,
    count: u32,
    now: u32,
) -> Result<u32, AdmitFault>
    ensures admitted { IfOk result (λ admitted. Some admitted
        ≡ option_map (λ c. intake_count (refill now c) count) (find_conn number limiter.old)) }
    ensures conns { OnOk result (limiter.new
        ≡ after_taking now count (find_conn number limiter.old) limiter.old) }
    ensures unknown { result ≡ Err AdmitFault.Unknown → find_conn number limiter.old ≡ None }
    ensures too_many { result ≡ Err AdmitFault.TooMany ↔ MAX_ENTRIES < count }
    ensures err { OnErr result (limiter.new ≡ limiter.old) }
{
    if u64::from(count) > MAX_ENTRIES {
        return Err(AdmitFault::TooMany);
    }
    match limiter.admit(number, count, now) {
        Some(admitted) => Ok(admitted),
        None => Err(AdmitFault::Unknown),
    }
}
