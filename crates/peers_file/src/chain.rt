//! `Chain` and its `magic`: main, the testnets, signet, regtest, or a signet given by its four
//! bytes.

ghost use Rattle.std.specs.Prelude.{◌≡◌};
ghost use Rattle.peers_file.specs.Layout.{magic_of};

/// A chain of blocks, whose nodes have a network of their own.
#[derive(Clone, Copy, Debug, PartialEq, Eq)]
pub enum Chain {
    Main,
    Test,
    Testnet4,
    Signet,
    Regtest,
    /// A signet of one's own, by the number that its four bytes write, the highest first.
    Other { magic: u32 },
}

impl Chain {
    /// Returns the four bytes that begin the messages and files of the chain (`pchMessageStart` in
    /// kernel/chainparams.cpp of Bitcoin Core).
    pub fn magic(self) -> [u8; 4]
        ensures { result ≡ magic_of self }
    {
        match self {
            Chain::Main => [0xf9, 0xbe, 0xb4, 0xd9],
            Chain::Test => [0x0b, 0x11, 0x09, 0x07],
            Chain::Testnet4 => [0x1c, 0x16, 0x3f, 0x28],
            Chain::Signet => [0x0a, 0x03, 0xcf, 0x40],
            Chain::Regtest => [0xfa, 0xbf, 0xb5, 0xda],
            Chain::Other { magic } => magic.to_be_bytes(),
        }
    }
}
