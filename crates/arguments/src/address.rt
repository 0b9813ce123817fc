//! The text of an address, the only argument of `address`.

ghost use Rattle.std.specs.Prelude.{◌≡◌, map, string_bytes, Some, IfSome};
ghost use Rattle.arguments.specs.Table.{IsAddressIn};
ghost use Rattle.net_addr.specs.Address.{Address};

use crate::options::only_word;
use names::parse_text;
use net_addr::NetAddr;

/// Reads the only argument, the text of an address.
pub(crate) fn read_address(words: &[String]) -> Option<NetAddr>
    ensures found { IfSome result (IsAddressIn (map string_bytes words.now)) }
    ensures only { (addr : Address) → IsAddressIn (map string_bytes words.now) addr →
        result ≡ Some addr }
{
    let Some(word) = only_word(words) else {
        return None;
    };
    parse_text(word)
}
