//! `Net`, the networks: their numbers, names and lengths of address, and `NETS`, the list of all.

ghost use Rattle.std.specs.Prelude.{◌≡◌, bytes_eq};
ghost use Rattle.net_addr.specs.Text.{net_name};

/// The networks of BIP 155 that a node knows, and two classes that no address on the wire has:
/// `Unroutable` for what cannot be reached, `Internal` for names that a node resolves itself.
#[derive(Clone, Copy, Debug, PartialEq, Eq, Hash)]
pub enum Net {
    Unroutable,
    Ipv4,
    Ipv6,
    Onion,
    I2p,
    Cjdns,
    Internal,
}

/// All seven, each once, by their numbers.
const NETS: [Net; 7] = [
    Net::Unroutable,
    Net::Ipv4,
    Net::Ipv6,
    Net::Onion,
    Net::I2p,
    Net::Cjdns,
    Net::Internal,
];

impl Net {
    ghost use Rattle.std.specs.Prelude.{◌≡◌, ◌≢◌, IfSome, IfNone};
    ghost use Rattle.net_addr.specs.Address.{net_number, length_of};
    ghost use Rattle.net_addr.specs.Text.{net_name};

    /// Returns the number of the network as `enum Network` in netaddress.h of Bitcoin Core has it:
    /// 0 for `Unroutable` up to 6 for `Internal`.
    pub fn number(self) -> u8
        ensures { result ≡ net_number self }
    {
        self as u8
    }

    /// Returns the name of the network, in small letters.
    pub fn name(self) -> &'static [u8]
        ensures { result.now ≡ net_name self }
    {
        match self {
            Net::Unroutable => b"unroutable",
            Net::Ipv4 => b"ipv4",
            Net::Ipv6 => b"ipv6",
            Net::Onion => b"onion",
            Net::I2p => b"i2p",
            Net::Cjdns => b"cjdns",
            Net::Internal => b"internal",
        }
    }

    /// Returns the network of a name.
    pub fn of_name(text: &[u8]) -> Option<Net>
        ensures found { IfSome result (λ net. text.now ≡ net_name net) }
        ensures none { IfNone result ((net : Net) → text.now ≢ net_name net) }
    {
        NETS.iter().copied().find(|net| has_name(*net, text))
    }

    /// Returns how many bytes an address of the network has.
    pub(crate) fn len(self) -> usize
        ensures { result ≡ length_of self }
    {
        match self {
            Net::Unroutable => 0,
            Net::Ipv4 => 4,
            Net::Ipv6 | Net::Cjdns => 16,
            Net::Onion | Net::I2p => 32,
            Net::Internal => 10,
        }
    }
}

/// Returns `true` if this is the name of the network.
fn has_name(net: Net, text: &[u8]) -> bool
    ensures { result ≡ bytes_eq (net_name net) text.now }
{
    net.name() == text
}
