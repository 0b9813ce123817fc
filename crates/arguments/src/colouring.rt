//! `Colouring`: the values of `picture --by`.

ghost use Rattle.arguments.specs.Options.{colouring_word};

use grammar::Keyword;

/// What the colours of a picture go by, after `--by`.
#[derive(Clone, Copy)]
pub enum Colouring {
    /// The network of the peer's address.
    Network,
    /// The group of the address that first announced the peer.
    Source,
    /// The group of the peer's own address.
    Group,
    /// How much older the peer's time is than the newest one.
    Age,
}

/// All of them, each once.
pub const COLOURINGS: [Colouring; 4] = [
    Colouring::Network,
    Colouring::Source,
    Colouring::Group,
    Colouring::Age,
];

impl Keyword for Colouring {
    ghost word = { colouring_word };

    fn word(self) -> &'static [u8] {
        match self {
            Colouring::Network => b"network",
            Colouring::Source => b"source",
            Colouring::Group => b"group",
            Colouring::Age => b"age",
        }
    }
}
