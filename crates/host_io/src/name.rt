//! `Name`, the names of the files (`peers.dat`, `peers.tmp`, `asmap.dat`, ..), and `PerName`, which
//! holds a value for each.

/// The names of the files of a folder. A file is first written under the temporary name after its
/// own.
#[derive(Clone, Copy, PartialEq, Eq, Debug)]
pub enum Name {
    Peers,
    PeersTemp,
    Asmap,
    AsmapTemp,
    AsmapOld,
    Prefixes,
    Bans,
    BansTemp,
}

/// All names, each once.
pub const NAMES: [Name; 8] = [
    Name::Peers,
    Name::PeersTemp,
    Name::Asmap,
    Name::AsmapTemp,
    Name::AsmapOld,
    Name::Prefixes,
    Name::Bans,
    Name::BansTemp,
];

impl Name {
    ghost use Rattle.std.specs.Prelude.{◌≡◌};
    ghost use Rattle.host_io.specs.Name.{file_name_of};

    /// Returns the name of the file in its folder.
    pub fn file_name(self) -> &'static str
        ensures { result.now ≡ file_name_of self }
    {
        match self {
            Name::Peers => "peers.dat",
            Name::PeersTemp => "peers.tmp",
            Name::Asmap => "asmap.dat",
            Name::AsmapTemp => "asmap.tmp",
            Name::AsmapOld => "asmap.old",
            Name::Prefixes => "prefixes.txt",
            Name::Bans => "banlist.json",
            Name::BansTemp => "banlist.tmp",
        }
    }
}

/// One value for each name.
#[derive(Drop)]
pub struct PerName<T> {
    pub peers: T,
    pub peers_temp: T,
    pub asmap: T,
    pub asmap_temp: T,
    pub asmap_old: T,
    pub prefixes: T,
    pub bans: T,
    pub bans_temp: T,
}

impl<T> PerName<Option<T>> {
    ghost use Rattle.std.specs.Prelude.{◌≡◌, None};

    /// Returns `None` under each name.
    pub(crate) fn none() -> PerName<Option<T>>
        ensures { result ≡ record {
          peers = None;
          peers_temp = None;
          asmap = None;
          asmap_temp = None;
          asmap_old = None;
          prefixes = None;
          bans = None;
          bans_temp = None;
        } }
    {
        PerName {
            peers: None,
            peers_temp: None,
            asmap: None,
            asmap_temp: None,
            asmap_old: None,
            prefixes: None,
            bans: None,
            bans_temp: None,
        }
    }
}

impl<T> PerName<T> {
    ghost use Rattle.std.specs.Prelude.{◌≡◌};
    ghost use Rattle.host_io.specs.PerName.{under, with};

    /// Returns the value of `name`.
    pub fn get(&self, name: Name) -> &T
        ensures { result.now ≡ under self.now name }
    {
        match name {
            Name::Peers => &self.peers,
            Name::PeersTemp => &self.peers_temp,
            Name::Asmap => &self.asmap,
            Name::AsmapTemp => &self.asmap_temp,
            Name::AsmapOld => &self.asmap_old,
            Name::Prefixes => &self.prefixes,
            Name::Bans => &self.bans,
            Name::BansTemp => &self.bans_temp,
        }
    }

    /// Puts `value` under `name`.
    pub fn set(&mut self, name: Name, value: T)
    where
        T: Drop,
        ensures { self.new ≡ with self.old name value }
    {
        match name {
            Name::Peers => self.peers = value,
            Name::PeersTemp => self.peers_temp = value,
            Name::Asmap => self.asmap = value,
            Name::AsmapTemp => self.asmap_temp = value,
            Name::AsmapOld => self.asmap_old = value,
            Name::Prefixes => self.prefixes = value,
            Name::Bans => self.bans = value,
            Name::BansTemp => self.bans_temp = value,
        }
    }
}
