//! `ban` with times in any order.

ghost use Rattle.std.specs.Prelude.{◌≡◌, IfOk, OnOk, OnErr};
ghost use Rattle.ban_list.specs.Bans.{after_ban, ban_of};

use crate::ProperSubnet;
use ban_list::{BanReply, Bans, Memory};

/// Drops the bans that are over, and bans a subnet from `now` until a time, both in seconds since
/// 1970 (`Bans::ban`).
pub fn ban(bans: &mut Bans, subnet: &ProperSubnet, now: u32, until: u32) -> Result<BanReply, Memory>
    ensures reply { IfOk result (λ reply.
        reply ≡ (after_ban (ban_of subnet.now.subnet now until) bans.old).reply) }
    ensures bans { OnOk result (bans.new
        ≡ (after_ban (ban_of subnet.now.subnet now until) bans.old).bans) }
    ensures err { OnErr result (bans.new ≡ bans.old) }
{
    bans.ban(subnet.subnet(), now, until)
}
