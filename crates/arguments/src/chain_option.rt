//! `ChainOption`: `--net` with a name, or `--magic` with 8 hexadecimal digits.

ghost use Rattle.std.specs.Prelude.{◌≡◌, ℕ, List, length, Ok, Some, IfSome};
ghost use Rattle.arguments.specs.Options.{IsChainValue, IsMagic, IsName};
ghost use Rattle.hex.specs.Hex.{decode_of};
ghost use Rattle.peers_file.specs.declared.chain.Chain.{Chain};

use hex::FromHex;
use peers_file::Chain;

/// An option that chooses a chain.
#[derive(Clone, Copy)]
pub(crate) enum ChainOption {
    /// `--net`, by the name of the chain.
    Net,
    /// `--magic`, by the bytes that begin its files.
    Magic,
}

/// Reads the value of an option that chooses a chain.
pub(crate) fn read_chain(by: ChainOption, value: &[u8]) -> Option<Chain>
    ensures found { IfSome result (IsChainValue by value.now) }
    ensures only { (chain : Chain) → IsChainValue by value.now chain → result ≡ Some chain }
{
    match by {
        ChainOption::Net => read_name(value),
        ChainOption::Magic => read_magic(value),
    }
}

/// Reads the name of a chain.
fn read_name(name: &[u8]) -> Option<Chain>
    ensures found { IfSome result (IsName name.now) }
    ensures only { (chain : Chain) → IsName name.now chain → result ≡ Some chain }
{
    if name == b"main".as_slice() {
        Some(Chain::Main)
    } else if name == b"test".as_slice() {
        Some(Chain::Test)
    } else if name == b"testnet4".as_slice() {
        Some(Chain::Testnet4)
    } else if name == b"signet".as_slice() {
        Some(Chain::Signet)
    } else if name == b"regtest".as_slice() {
        Some(Chain::Regtest)
    } else {
        None
    }
}

/// Reads the four bytes that begin the files of a chain, 8 hexadecimal digits in either case.
fn read_magic(digits: &[u8]) -> Option<Chain>
    ensures found { IfSome result (IsMagic digits.now) }
    ensures only { (chain : Chain) → IsMagic digits.now chain → result ≡ Some chain }
{
    let Some(bytes) = four_bytes(digits) else {
        return None;
    };
    Some(Chain::Other {
        magic: u32::from_be_bytes(bytes),
    })
}

/// Reads four bytes from 8 hexadecimal digits in either case.
fn four_bytes(digits: &[u8]) -> Option<[u8; 4]>
    ensures found { IfSome result (λ bytes. decode_of digits.now ≡ Ok bytes) }
    ensures only { (bytes : List ℕ) → decode_of digits.now ≡ Ok bytes → length bytes ≡ 4 →
        result ≡ Some bytes }
{
    <[u8; 4] as FromHex>::from_hex(digits).ok()
}
