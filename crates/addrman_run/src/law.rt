//! Laws: folders open once, the time of `risk`, and the order of refusals of `diff`.

ghost use Rattle.std.specs.Prelude.{◌≡◌, ◌<◌, ℕ, List, All, Option, IfSome};
ghost use Rattle.host_io.specs.Disk.{files_on};
ghost use Rattle.host_io.specs.Past.{Past};
ghost use Rattle.host_io.specs.PerName.{under};
ghost use Rattle.host_io.specs.declared.name.Name.TheVariants as name;
ghost use Rattle.asmap_vm.specs.Asmap.{Asmap};
ghost use Rattle.arguments.specs.declared.file_kind.FileKind.{FileKind};
ghost use Rattle.peers_file.specs.declared.chain.Chain.{Chain};
ghost use Rattle.addrman_run.specs.Diff.{HaveTooMany, RefusesRecords};
ghost use Rattle.addrman_run.specs.Opening.{OpensOnce};
ghost use Rattle.addrman_run.specs.declared.peers_fault.PeersFault.{PeersFault};
ghost use Rattle.addrman_run.specs.declared.risk.TheConstants.{AFTER_RESTART};

use peers_file::files_have_one_meaning;

/// The time of the picks that `risk` counts, in seconds since 1970.
pub fn times_are_numbers()
    ensures restart { AFTER_RESTART ≡ 600 }
{}

/// Whatever key and kind of file the arguments give, and whatever bytes peers.dat has, if there is
/// such a file: exactly one of three things holds. The tables open, and only in one state; the file
/// is refused, for one reason; or there is neither a file nor a key.
pub fn folders_open_once()
    ensures { (key : Option (List ℕ)) (kind : FileKind) (past : Past) (map : Option Asmap) →
        IfSome (under (files_on past.now) name.Peers) (All (λ b. b < 256)) →
        OpensOnce key kind (Some past) map }
{
    files_have_one_meaning()
}

/// Whatever bytes peers.dat has, if there is such a file: two asmaps with too many changes are
/// reported for that only if the file is not refused.
pub fn changes_are_counted_last()
    ensures { (peers : Option Chain) (past : Past) (fault : PeersFault) →
        IfSome (under (files_on past.now) name.Peers) (All (λ b. b < 256)) →
        HaveTooMany peers (Some past) → ¬ RefusesRecords peers (Some past) fault }
{
    files_have_one_meaning()
}
