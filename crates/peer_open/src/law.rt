//! The limits as numbers.

ghost use Rattle.std.specs.Prelude.{◌≡◌};
ghost use Rattle.peer_open.specs.Rules.{bad_ports};
ghost use Rattle.peer_open.specs.declared.opener.TheConstants.{MAX_OUTBOUND, MAX_TRIES};
ghost use Rattle.peer_open.specs.declared.rules.TheConstants.{BAD_PORTS};

use crate::{BAD_PORTS, MAX_OUTBOUND, MAX_TRIES};

/// The limits of a node's outbound connections, and the ports of other services.
pub fn limits()
    ensures outbound { MAX_OUTBOUND ≡ 10 }
    ensures tries { MAX_TRIES ≡ 100 }
    ensures ports { BAD_PORTS ≡ bad_ports }
{}
