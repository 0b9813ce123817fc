//! Reads a set of networks or classes: `all`, or names with commas between them.

ghost use Rattle.std.specs.Prelude.{◌≡◌, List, codes, IfOk, IfSome, IfNone, IsTrue, Err};
ghost use Rattle.grammar.specs.Fields.{Means, Nets, Classes, TheNets, AreNames, IsFieldFault, set_of};
ghost use Rattle.net_addr.specs.declared.net.Net as net;

use crate::LineFault;
use crate::pieces::cut_piece;
use net_addr::{Net, NetSet};

/// Reads a set of classes of addresses: `all`, or their names.
pub fn read_classes(text: &[u8]) -> Result<NetSet, LineFault>
    ensures found { IfOk result (λ set. Means Classes text.now (TheNets set)) }
    ensures fault { (f : LineFault) → result ≡ Err f → IsFieldFault Classes text.now f }
{
    if is_all(text) {
        return Ok(NetSet::all());
    }
    match read_names(text) {
        Some(classes) => Ok(classes),
        None => Err(LineFault::Word),
    }
}

/// Reads a set of networks: `all`, or their names, of which `unroutable` is none.
pub fn read_nets(text: &[u8]) -> Result<NetSet, LineFault>
    ensures found { IfOk result (λ set. Means Nets text.now (TheNets set)) }
    ensures fault { (f : LineFault) → result ≡ Err f → IsFieldFault Nets text.now f }
{
    if is_all(text) {
        return Ok(NetSet::all());
    }
    match read_names(text) {
        Some(nets) => {
            if nets.has(Net::Unroutable) {
                return Err(LineFault::Word);
            }
            Ok(nets)
        }
        None => Err(LineFault::Word),
    }
}

/// Returns `true` if the text is `all`.
fn is_all(text: &[u8]) -> bool
    ensures yes { IsTrue result → text.now ≡ codes "all" }
    ensures no { text.now ≡ codes "all" → IsTrue result }
{
    text == b"all".as_slice()
}

/// Reads names with commas between them, none twice.
fn read_names(text: &[u8]) -> Option<NetSet>
    ensures found { IfSome result (λ set. (nets : List net.Net) × AreNames text.now nets ×
        (set ≡ set_of nets)) }
    ensures none { IfNone result ((nets : List net.Net) → ¬ AreNames text.now nets) }
{
    let mut nets = NetSet::none();
    let mut rest = Some(text);
    while let Some(names) = rest {
        let (name, after) = cut_piece(names, b',');
        let net = match Net::of_name(name) {
            Some(net) => net,
            None => return None,
        };
        if nets.has(net) {
            return None;
        }
        nets = nets.with(net);
        rest = after;
    }
    Some(nets)
}
