//! The texts of the help, a constant for each command: its form, a sentence and the rest.

/// The help of a command: its form, what it does, and the rest of its page.
pub(crate) type Page = (&'static str, &'static str, &'static str);

/// What the list of the commands begins with.
pub(crate) const HEAD: &str = "usage: addrman [-C DIR] COMMAND [ARGUMENTS]

";

/// What the list of the commands ends with.
pub(crate) const TAIL: &str = "
Files are read and written in the current directory, or in DIR. Never use replay, from-raw,
compile, ban or unban in a running node's directory: they replace its files.
`addrman help COMMAND` explains a command.
";

/// The page of `replay`.
pub(crate) const REPLAY: Page = (
    "replay [--key HEX64|--key-file FILE] [--net CHAIN] [--core]",
    "replays a log from standard input on the tables of peers.dat",
    "\
Reads    a log from standard input; asmap.dat and peers.dat, if present.
Writes   a reply to each line; peers.dat (via peers.tmp) when a line says to save.
HEX64    the node's key, 64 hexadecimal digits; needed only if there is no peers.dat.
         --key-file FILE reads it from FILE, and keeps it out of the process list.
CHAIN    main (the default), test, testnet4, signet or regtest. For another chain, give
         --magic HEX8 instead: the 8 hexadecimal digits that its files begin with.
--core   computes the asmap checksum in peers.dat as Bitcoin Core 24 to 30 does.
-C DIR   before the command: the directory of its files.
Codes    0 done, 2 bad usage, 3 a line has an error, 4 peers.dat is refused, 5 asmap.dat
         is refused, 7 the log cannot be read, 8 the output cannot be written, 9 a file
         cannot be read or written, 10 the log is too long, 11 no peers.dat and no key,
         12 out of memory, 13 a line is too long.
",
);

/// The page of `opener`.
pub(crate) const OPENER: Page = (
    "opener [--key HEX64|--key-file FILE] [--net CHAIN] [--core] [--exempt NETS] [--services N] \
     [--skip-bad-ports]",
    "replays a log without saving, and decides which peers to connect to",
    "\
Reads    a log from standard input; asmap.dat and peers.dat, if present.
Writes   the reply to each line.
HEX64    the node's key, 64 hexadecimal digits; needed only if there is no peers.dat.
         --key-file FILE reads it from FILE, and keeps it out of the process list.
CHAIN    main (the default), test, testnet4, signet or regtest. For another chain, give
         --magic HEX8 instead: the 8 hexadecimal digits that its files begin with.
--core   computes the asmap checksum in peers.dat as Bitcoin Core 24 to 30 does.
NETS     networks in which each address is a group of its own, such as onion,i2p,cjdns
         (the rule of Bitcoin Core since 26).
N        service bits that an outbound peer must have, such as 9; a feeler's peer must
         have 1 or 1024.
--skip-bad-ports   skips IPv4 and IPv6 peers on the port of another service, such as 22,
         before the 50th attempt.
-C DIR   before the command: the directory of its files.
Codes    0 done, 2 bad usage, 3 a line has an error, 4 peers.dat is refused, 5 asmap.dat
         is refused, 7 the log cannot be read, 8 the output cannot be written, 9 a file
         cannot be read or written, 10 the log is too long, 11 no peers.dat and no key,
         12 out of memory, 13 a line is too long.
",
);

/// The page of `limit`.
pub(crate) const LIMIT: Page = (
    "limit",
    "applies the limit on received addresses to a log of events, and prints a log for replay",
    "\
Reads    a log of events from standard input.
Writes   a log for replay.
Codes    0 done, 2 bad usage, 3 a line has an error, 7 the log cannot be read, 8 the
         output cannot be written, 10 the log is too long, 12 out of memory, 13 a line is
         too long.
",
);

/// The page of `show`.
pub(crate) const SHOW: Page = (
    "show [--peers FILE|--anchors [FILE]] [--net CHAIN] [--no-key] [--core]",
    "lists the key and the records of peers.dat",
    "\
Reads    peers.dat; with --anchors, anchors.dat instead.
Writes   a line about the file, with its key unless --no-key is given, and a line for each
         record; for anchors.dat, the number of anchors and a line for each.
CHAIN    main (the default), test, testnet4, signet or regtest. For another chain, give
         --magic HEX8 instead: the 8 hexadecimal digits that its files begin with.
FILE     --peers FILE is read instead of peers.dat, and --anchors FILE instead of
         anchors.dat. --anchors can be combined with a chain only.
--core   has no effect here: no asmap checksum is compared.
-C DIR   before the command: the directory of its files.
Codes    0 done, 2 bad usage, 4 peers.dat is refused, 8 the output cannot be written, 9 a
         file cannot be read or written, 12 out of memory, 14 peers.dat or anchors.dat is
         missing, 21 anchors.dat is refused.
",
);

/// The page of `picture`.
pub(crate) const PICTURE: Page = (
    "picture [--by HOW|--mark SET..] [--net CHAIN] [--core|--raw -] [--peers FILE] \
     [--asmap FILE]",
    "draws the tables of peers.dat as an SVG image",
    "\
Reads    peers.dat; asmap.dat, if present.
Writes   an SVG of both tables, with the six source groups that have the most slots in
         colour, and a list of them.
HOW      what colours stand for: network (the peer's), source (the group of its source),
         group (the peer's own), or age (how much older its time is than the newest).
SET      a prefix such as 1.2.0.0/16 or 2001:db8::/32, an address, or an AS number such as
         AS64500. Each of up to six sets has its own colour, and all other peers are grey.
         --mark cannot be combined with --by.
CHAIN    main (the default), test, testnet4, signet or regtest. For another chain, give
         --magic HEX8 instead: the 8 hexadecimal digits that its files begin with.
FILE     --peers FILE is read instead of peers.dat, with the asmap.dat in its directory,
         if present; --asmap FILE is read instead of asmap.dat.
--raw -  reads the output of raw or getrawaddrman from standard input instead of
         peers.dat; cannot be combined with --core or --peers.
--core   computes the asmap checksum in peers.dat as Bitcoin Core 24 to 30 does.
-C DIR   before the command: the directory of its files.
Codes    0 done, 2 bad usage, 4 peers.dat is refused, 5 asmap.dat is refused, 7 the log
         cannot be read, 8 the output cannot be written, 9 a file cannot be read or
         written, 12 out of memory, 14 peers.dat is missing, 20 the listing is refused.
",
);

/// The page of `raw`.
pub(crate) const RAW: Page = (
    "raw [--net CHAIN] [--core] [--peers FILE] [--asmap FILE]",
    "prints the records of peers.dat by slot, as JSON",
    "\
Reads    peers.dat; asmap.dat, if present.
Writes   JSON in the form that Bitcoin Core's getrawaddrman returns.
CHAIN    main (the default), test, testnet4, signet or regtest. For another chain, give
         --magic HEX8 instead: the 8 hexadecimal digits that its files begin with.
FILE     --peers FILE is read instead of peers.dat, with the asmap.dat in its directory,
         if present; --asmap FILE is read instead of asmap.dat.
--core   computes the asmap checksum in peers.dat as Bitcoin Core 24 to 30 does.
-C DIR   before the command: the directory of its files.
Codes    0 done, 2 bad usage, 4 peers.dat is refused, 5 asmap.dat is refused, 8 the output
         cannot be written, 9 a file cannot be read or written, 12 out of memory,
         14 peers.dat is missing.
",
);

/// The page of `info`.
pub(crate) const INFO: Page = (
    "info [--net CHAIN] [--core|--raw -] [--peers FILE] [--asmap FILE]",
    "prints how many records of each network are in peers.dat, as JSON",
    "\
Reads    peers.dat; asmap.dat, if present.
Writes   JSON in the form that Bitcoin Core's getaddrmaninfo returns.
CHAIN    main (the default), test, testnet4, signet or regtest. For another chain, give
         --magic HEX8 instead: the 8 hexadecimal digits that its files begin with.
FILE     --peers FILE is read instead of peers.dat, with the asmap.dat in its directory,
         if present; --asmap FILE is read instead of asmap.dat.
--raw -  reads the output of raw or getrawaddrman from standard input instead of
         peers.dat; cannot be combined with --core or --peers.
--core   computes the asmap checksum in peers.dat as Bitcoin Core 24 to 30 does.
-C DIR   before the command: the directory of its files.
Codes    0 done, 2 bad usage, 4 peers.dat is refused, 5 asmap.dat is refused, 7 the log
         cannot be read, 8 the output cannot be written, 9 a file cannot be read or
         written, 12 out of memory, 14 peers.dat is missing, 20 the listing is refused.
",
);

/// The page of `groups`.
pub(crate) const GROUPS: Page = (
    "groups [--net CHAIN] [--core|--raw -] [--peers FILE] [--asmap FILE]",
    "prints how much of peers.dat each group takes up, as JSON",
    "\
Reads    peers.dat; asmap.dat, if present.
Writes   the slots, buckets and records of each group; totals; how many AS numbers
         asmap.dat gives the records, and how many records it gives none. Slots are not
         chances of being picked: risk prints those.
CHAIN    main (the default), test, testnet4, signet or regtest. For another chain, give
         --magic HEX8 instead: the 8 hexadecimal digits that its files begin with.
FILE     --peers FILE is read instead of peers.dat, with the asmap.dat in its directory,
         if present; --asmap FILE is read instead of asmap.dat.
--raw -  reads the output of raw or getrawaddrman from standard input instead of
         peers.dat; cannot be combined with --core or --peers.
--core   computes the asmap checksum in peers.dat as Bitcoin Core 24 to 30 does.
-C DIR   before the command: the directory of its files.
Codes    0 done, 2 bad usage, 4 peers.dat is refused, 5 asmap.dat is refused, 7 the log
         cannot be read, 8 the output cannot be written, 9 a file cannot be read or
         written, 12 out of memory, 14 peers.dat is missing, 20 the listing is refused.
",
);

/// The page of `risk`.
pub(crate) const RISK: Page = (
    "risk source|peer|network|- [--net CHAIN] [--core|--raw -] [--peers FILE] \
     [--asmap FILE]",
    "prints an upper bound on each group's share of the picks from peers.dat",
    "\
Reads    peers.dat; asmap.dat, if present; with -, prefixes and AS numbers from standard
         input.
Writes   a line with the sizes of the tables, and one for each group, the largest share
         first: upper bounds, in percent, on the share of its peers in all picks, in picks
         from the new table and in picks from the tried table.
source   groups the records by the address that first announced the peer.
peer     groups them by the peer's own address.
network  groups them by the network of the peer's address.
-        reads one set per line: a prefix such as 1.2.0.0/16 or 2001:db8::/32, an address,
         or an AS number such as AS64500. Writes a line for each set in this order, a line
         for all of them together, and an upper bound on the chance that all ten outbound
         connections go to their peers, if every peer that is picked can be reached.
CHAIN    main (the default), test, testnet4, signet or regtest. For another chain, give
         --magic HEX8 instead: the 8 hexadecimal digits that its files begin with.
FILE     --peers FILE is read instead of peers.dat, with the asmap.dat in its directory,
         if present; --asmap FILE is read instead of asmap.dat.
--raw -  reads the output of raw or getrawaddrman from standard input instead of
         peers.dat; cannot be combined with -, --core or --peers. A listing does not
         record failed attempts: the shares are computed as if there were none, and are
         not bounds for a node that has failed to reach some peers.
--core   computes the asmap checksum in peers.dat as Bitcoin Core 24 to 30 does.
-C DIR   before the command: the directory of its files.
Codes    0 done, 2 bad usage, 3 a line has an error, 4 peers.dat is refused, 5 asmap.dat
         is refused, 7 the log cannot be read, 8 the output cannot be written, 9 a file
         cannot be read or written, 10 the log is too long, 12 out of memory, 13 a line is
         too long, 14 peers.dat is missing, 20 the listing is refused.
",
);

/// The page of `from-raw`.
pub(crate) const FROM_RAW: Page = (
    "from-raw --key HEX64|--key-file FILE [--net CHAIN] [--core] [--asmap FILE]",
    "makes a peers.dat from the output of raw or getrawaddrman",
    "\
Reads    a listing of at most 67108864 bytes from standard input; asmap.dat, if present.
Writes   peers.dat (via peers.tmp), and a line with the number of records in each table
         and the size of the file. A listing has no key: with any key but the node's,
         records get other positions in their buckets, and some find theirs occupied.
HEX64    the key of the file, 64 hexadecimal digits; --key-file FILE reads it from FILE.
CHAIN    main (the default), test, testnet4, signet or regtest. For another chain, give
         --magic HEX8 instead: the 8 hexadecimal digits that its files begin with.
FILE     --asmap FILE is read instead of asmap.dat.
--core   writes the asmap checksum as Bitcoin Core 24 to 30 does.
-C DIR   before the command: the directory of its files.
Codes    0 done, 2 bad usage, 5 asmap.dat is refused, 7 the log cannot be read, 8 the
         output cannot be written, 9 a file cannot be read or written, 12 out of memory,
         20 the listing is refused.
",
);

/// The page of `compile`.
pub(crate) const COMPILE: Page = (
    "compile",
    "compiles prefixes.txt into asmap.dat",
    "\
Reads    prefixes.txt.
Writes   asmap.dat (via asmap.tmp), and then a line with its size.
-C DIR   before the command: the directory of its files.
Codes    0 done, 2 bad usage, 6 prefixes.txt is refused, 8 the output cannot be written,
         9 a file cannot be read or written, 12 out of memory, 14 prefixes.txt is missing.
",
);

/// The page of `decompile`.
pub(crate) const DECOMPILE: Page = (
    "decompile [--asmap FILE]",
    "prints the table of prefixes that asmap.dat encodes",
    "\
Reads    asmap.dat.
Writes   rows in the form of prefixes.txt.
FILE     --asmap FILE is read instead of asmap.dat.
-C DIR   before the command: the directory of its files.
Codes    0 done, 2 bad usage, 5 asmap.dat is refused, 8 the output cannot be written, 9 a
         file cannot be read or written, 12 out of memory, 14 asmap.dat is missing, 17 it
         has more than 2,000,000 rows.
",
);

/// The page of `diff`.
pub(crate) const DIFF: Page = (
    "diff [--peers [FILE] [--net CHAIN] [--core]] [--asmap FILE]",
    "prints the prefixes whose AS number differs between asmap.old and asmap.dat",
    "\
Reads    asmap.old and asmap.dat; with --peers, also peers.dat.
Writes   what diff of Bitcoin Core's asmap-tool.py prints, without the powers of two; with
         --peers, also a line for each record whose group differs, and their number.
CHAIN    main (the default), test, testnet4, signet or regtest. For another chain, give
         --magic HEX8 instead: the 8 hexadecimal digits that its files begin with.
FILE     --peers FILE and --asmap FILE are read instead of peers.dat and asmap.dat.
--core   has no effect here: no asmap checksum is compared.
-C DIR   before the command: the directory of its files.
Codes    0 done, 2 bad usage, 4 peers.dat is refused, 5 asmap.dat is refused, 8 the output
         cannot be written, 9 a file cannot be read or written, 12 out of memory, 14 a
         file is missing, 18 asmap.old is refused, 19 more than 2,000,000 prefixes differ.
",
);

/// The page of `check`.
pub(crate) const CHECK: Page = (
    "check [--asmap FILE]",
    "checks that asmap.dat is sane",
    "\
Reads    asmap.dat.
Writes   a line with its size.
FILE     --asmap FILE is read instead of asmap.dat.
-C DIR   before the command: the directory of its files.
Codes    0 done, 2 bad usage, 5 asmap.dat is refused, 8 the output cannot be written, 9 a
         file cannot be read or written, 12 out of memory, 14 asmap.dat is missing.
",
);

/// The page of `lookup`.
pub(crate) const LOOKUP: Page = (
    "lookup PEER|- [--asmap FILE]",
    "prints the AS number and the group of an address, or of each address on standard input",
    "\
Reads    asmap.dat; with -, also standard input, with one PEER per line.
Writes   a line for each address: its AS number (0 if asmap.dat gives none) and its group
         in hexadecimal.
PEER     an address with a port, such as 1.2.3.4:8333 or [2001:470::1]:8333.
FILE     --asmap FILE is read instead of asmap.dat.
-C DIR   before the command: the directory of its files.
Codes    0 done, 2 bad usage, 3 a line has an error, 5 asmap.dat is refused, 7 the log
         cannot be read, 8 the output cannot be written, 9 a file cannot be read or
         written, 10 the log is too long, 12 out of memory, 13 a line is too long,
         14 asmap.dat is missing.
",
);

/// The page of `address`.
pub(crate) const ADDRESS: Page = (
    "address TEXT|- [--asmap FILE]",
    "prints what is known about an address",
    "\
Reads    asmap.dat, if present; with -, also standard input, with one TEXT per line.
Writes   the network, address, name, class, whether it is routable, the AS number (left
         out if asmap.dat gives none) and the group in hexadecimal, one per line.
TEXT     a name such as pg6m..ryd.onion or 2001:470::1, or an address as logs write it,
         such as [2001:470::1], with or without a port.
FILE     --asmap FILE is read instead of asmap.dat.
-C DIR   before the command: the directory of its files.
Codes    0 done, 2 bad usage, 3 a line has an error, 5 asmap.dat is refused, 7 the log
         cannot be read, 8 the output cannot be written, 9 a file cannot be read or
         written, 10 the log is too long, 12 out of memory, 13 a line is too long.
",
);

/// The page of `ban`.
pub(crate) const BAN: Page = (
    "ban SUBNET NOW UNTIL [--core]",
    "bans a subnet in banlist.json until a time",
    "\
Reads    banlist.json, if present.
Writes   banlist.json (via banlist.tmp), without the bans that have expired by NOW, and
         `ban added`; or only `ban kept` or `ban full`, if nothing is saved.
SUBNET   an address without port or brackets, such as 1.2.3.4 or 1.2.3.0/24.
NOW      when the ban begins, in seconds since 1970 (`date +%s`); UNTIL, when it ends, is
         a later time.
--core   reads and writes banlist.json as Bitcoin Core does: addresses of Tor v3, I2P and
         CJDNS are names, and elements that are not bans stay in the file.
-C DIR   before the command: the directory of its files.
Codes    0 done, 2 bad usage, 8 the output cannot be written, 9 a file cannot be read or
         written, 12 out of memory, 16 banlist.json is refused.
",
);

/// The page of `unban`.
pub(crate) const UNBAN: Page = (
    "unban SUBNET [--core]",
    "removes a ban from banlist.json",
    "\
Reads    banlist.json, if present.
Writes   banlist.json (via banlist.tmp) and `removed`; or only `absent`.
SUBNET   an address without port or brackets, such as 1.2.3.4 or 1.2.3.0/24.
--core   reads and writes banlist.json as Bitcoin Core does: addresses of Tor v3, I2P and
         CJDNS are names, and elements that are not bans stay in the file.
-C DIR   before the command: the directory of its files.
Codes    0 done, 2 bad usage, 8 the output cannot be written, 9 a file cannot be read or
         written, 12 out of memory, 16 banlist.json is refused.
",
);

/// The page of `banned`.
pub(crate) const BANNED: Page = (
    "banned PEER NOW [--core] [--bans FILE]",
    "prints the ban that covers an address, or `free`",
    "\
Reads    banlist.json, if present.
Writes   `banned`, the subnet and the time when the ban ends; or `free`.
PEER     an address with a port, such as 1.2.3.4:8333 or [2001:470::1]:8333.
NOW      the time to test the bans at, in seconds since 1970 (`date +%s`).
FILE     --bans FILE is read instead of banlist.json.
--core   reads banlist.json as Bitcoin Core does: addresses of Tor v3, I2P and CJDNS are
         names.
-C DIR   before the command: the directory of its files.
Codes    0 done, 2 bad usage, 8 the output cannot be written, 9 a file cannot be read or
         written, 12 out of memory, 16 banlist.json is refused.
",
);

/// The page of `bans`.
pub(crate) const BANS: Page = (
    "bans NOW [--core] [--bans FILE]",
    "prints the bans still in force, as JSON",
    "\
Reads    banlist.json, if present.
Writes   JSON in the form that Bitcoin Core's listbanned returns.
NOW      the time to test the bans at, in seconds since 1970 (`date +%s`).
FILE     --bans FILE is read instead of banlist.json.
--core   reads banlist.json as Bitcoin Core does: addresses of Tor v3, I2P and CJDNS are
         names.
-C DIR   before the command: the directory of its files.
Codes    0 done, 2 bad usage, 8 the output cannot be written, 9 a file cannot be read or
         written, 12 out of memory, 16 banlist.json is refused.
",
);

/// The page of `gen`.
pub(crate) const GEN: Page = (
    "gen START LINES",
    "prints a generated log",
    "\
Reads    nothing.
Writes   a log for replay. The same START and LINES always give the same log.
START    a number below 2^64.
LINES    the number of lines, from 1 to 100000.
Codes    0 done, 2 bad usage, 8 the output cannot be written, 12 out of memory.
",
);

/// The page of `trial`.
pub(crate) const TRIAL: Page = (
    "trial START LINES",
    "replays a generated log, and prints a summary of the replies",
    "\
Reads    nothing.
Writes   the length of the replies in bytes, the sizes of the tables afterwards, and the
         SHA-256 of the replies.
START    a number below 2^64.
LINES    the number of lines, from 1 to 100000.
Codes    0 done, 2 bad usage, 8 the output cannot be written, 12 out of memory.
",
);

/// The page of `help`.
pub(crate) const HELP: Page = (
    "help [COMMAND]",
    "lists the commands, or explains one",
    "\
Reads    nothing.
Writes   the text. `--help` and `-h` are the same as `help`.
Codes    0 done, 2 bad usage, 8 the output cannot be written, 12 out of memory.
",
);

/// The page of `version`.
pub(crate) const VERSION: Page = (
    "version",
    "prints the version and the toolchain",
    "\
Reads    nothing.
Writes   a line. `--version` is the same.
Codes    0 done, 2 bad usage, 8 the output cannot be written.
",
);
