//! `Request`: an enum with one variant for each thing that can be asked.

use crate::{Colours, CommandName, FileKind, Grouping, TablesFrom};
use ban_list::{BanRule, Subnet};
use net_addr::{NetAddr, Peer};
use peer_open::OpenRules;
use peers_file::Chain;

/// What the arguments ask for.
#[derive(Clone, Copy)]
pub enum Request {
    /// `replay --key HEX64 --net CHAIN`: carry out the lines of the log, from the tables of
    /// peers.dat, a file of this chain (of main without `--net`), or if it is absent, from empty
    /// tables with this key.
    Replay {
        key: Option<[u8; 32]>,
        kind: FileKind,
    },
    /// `opener --key HEX64 --net CHAIN`: carry out the lines of a log that also opens, tests and
    /// closes outbound connections, from the tables that a replay with these options begins with.
    /// With `--exempt NETS`, `--services N` and `--skip-bad-ports` some rules of Bitcoin Core
    /// count.
    Opener {
        rules: OpenRules,
        key: Option<[u8; 32]>,
        kind: FileKind,
    },
    /// `compile`: compile prefixes.txt into asmap.dat, and say how large it is.
    Compile,
    /// `check`: say whether asmap.dat is sane.
    Check,
    /// `decompile`: write the table of prefixes that asmap.dat encodes.
    Decompile,
    /// `diff`: write the prefixes whose number differs between asmap.old and asmap.dat; with
    /// `--peers --net CHAIN` also the records of peers.dat, a file of this chain, whose group does.
    Diff {
        peers: Option<FileKind>,
    },
    /// `limit`: limit the addresses that each connection may send, and write the log that is left.
    Limit,
    /// `lookup PEER`: say which AS number and group the peer's address has.
    Lookup {
        peer: Peer,
    },
    /// `lookup -`: say the same of the peer of each line of the log.
    LookupLines,
    /// `address TEXT`: say what is known of the address.
    Address {
        addr: NetAddr,
    },
    /// `address -`: say the same of the address of each line of the log.
    AddressLines,
    /// `show --net CHAIN`: list what peers.dat has, a file of this chain; of main without `--net`.
    /// With `--no-key` the key is left out.
    Show {
        keyed: bool,
        kind: FileKind,
    },
    /// `show --anchors --net CHAIN`: list the anchors in the file in the place of peers.dat, an
    /// anchors.dat of this chain.
    Anchors {
        chain: Chain,
    },
    /// `picture --net CHAIN`: write a picture of the tables that peers.dat, a file of this chain,
    /// opens with asmap.dat, or of those of a listing. Its colours go by `--by`, or by `--mark`.
    Picture {
        colours: Colours,
        from: TablesFrom,
    },
    /// `raw --net CHAIN`: print the records of peers.dat, a file of this chain, by the slots that
    /// they are in, as JSON.
    Raw {
        kind: FileKind,
    },
    /// `info --net CHAIN`: print how many records of peers.dat, a file of this chain, or of a
    /// listing, each network has, as JSON.
    Info {
        from: TablesFrom,
    },
    /// `groups --net CHAIN`: print how many slots, buckets and records of peers.dat, a file of this
    /// chain, or of a listing, each group has, as JSON.
    Groups {
        from: TablesFrom,
    },
    /// `risk source --net CHAIN`, `risk peer` and `risk network`: print which part of the picks
    /// from the tables of peers.dat, a file of this chain, or of a listing, falls to each group, at
    /// most.
    Risk {
        by: Grouping,
        from: TablesFrom,
    },
    /// `risk - --net CHAIN`: print which part of those from peers.dat, a file of this chain, falls
    /// to each set of addresses that a line of the log names, and to all of them.
    RiskLines {
        kind: FileKind,
    },
    /// `from-raw --key HEX64 --net CHAIN`: read a listing of tables from the log, and save it as
    /// peers.dat, a file of this kind, under this key.
    FromRaw {
        key: [u8; 32],
        kind: FileKind,
    },
    /// `ban SUBNET NOW UNTIL`: drop the bans of banlist.json that are over, and ban the subnet
    /// until a later time, unless it is banned until then or later already, or the list is full.
    /// By the rule `Names` with `--core`, and else `Labels`, as all that is done with the list.
    Ban {
        rule: BanRule,
        subnet: Subnet,
        now: u32,
        until: u32,
    },
    /// `unban SUBNET`: take the subnet's ban out of banlist.json.
    Unban {
        rule: BanRule,
        subnet: Subnet,
    },
    /// `banned PEER NOW`: say which ban of banlist.json covers the peer's address.
    Banned {
        rule: BanRule,
        peer: Peer,
        now: u32,
    },
    /// `bans NOW`: print the bans of banlist.json that are not over, as JSON.
    Bans {
        rule: BanRule,
        now: u32,
    },
    /// `gen START LINES`: write the generated log of a number with this many lines.
    Gen {
        start: u64,
        lines: u32,
    },
    /// `trial START LINES`: carry out the generated log of a number from empty tables, and write
    /// one line about the replies.
    Trial {
        start: u64,
        lines: u32,
    },
    /// `help COMMAND`: write the page of a command, or without one the list of all.
    Help {
        command: Option<CommandName>,
    },
    /// `version`: write the version, and the toolchain that proved it.
    Version,
}
