//! The law that a text is the text of at most one address, and of at most one peer.

ghost use Rattle.std.specs.Prelude.{◌≡◌, ℕ, List};
ghost use Rattle.net_addr.specs.Address.{Address};
ghost use Rattle.net_addr.specs.Text.{IsAddrText, IsPeerText};
ghost use Rattle.net_addr.specs.declared.peer.Peer.{Peer};

/// A text is the text of at most one address, and of at most one peer.
pub fn texts_have_one_meaning()
    ensures addr { (text : List ℕ) (a b : Address) → IsAddrText text a → IsAddrText text b →
        a ≡ b }
    ensures peer { (text : List ℕ) (p q : Peer) → IsPeerText text p → IsPeerText text q → p ≡ q }
{}
