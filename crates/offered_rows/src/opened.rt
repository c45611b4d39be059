// Channels without their bundles.
ghost use Rattle.std.specs.Prelude.{◌≡◌, Some};
ghost use Rattle.calculus.specs.Unfolding.{opened, writes, reads};
ghost use Rattle.calculus.specs.Tree.{bundle};
ghost use Rattle.calculus.specs.Shape.{one, only};
ghost use Rattle.calculus.specs.declared.plain.Rights.{Rights};
ghost use Rattle.offered_rows.specs.Offers.{channel_of, bundle_rights, IsBundle};

use calculus::Rights;
use rho_term::{Part, Term};

/// The name inside a channel's bundles, and whether each of them lets write and lets read.
#[derive(Drop)]
pub(crate) struct Opened {
    pub name: Term,
    pub writable: bool,
    pub readable: bool,
}

/// A channel without its bundles.
pub(crate) fn opened_channel(channel: Term) -> Opened
    ensures { channel_of result ≡ opened channel }
{
    let mut name = channel;
    let mut writable = true;
    let mut readable = true;
    while let Some(rights) = rights_of(&name) {
        let write = lets_write(rights);
        let read = lets_read(rights);
        writable = writable && write;
        readable = readable && read;
        name = inside(name);
    }
    Opened {
        name,
        writable,
        readable,
    }
}

/// The rights of a process that is one bundle.
fn rights_of(term: &Term) -> Option<Rights>
    ensures { result ≡ bundle_rights term.now }
{
    let parts = term.parts();
    if parts.len() != 1 {
        return None;
    }
    match &parts[0] {
        Part::Bundle { rights, .. } => Some(*rights),
        _ => None,
    }
}

/// What stands in a bundle.
fn inside(term: Term) -> Term
    requires { IsBundle term }
    ensures { (r : Rights) → bundle_rights term ≡ Some r → term ≡ only (one (bundle r) result) }
{
    let mut parts = term.into_parts();
    let part = parts.remove(0);
    match part.into_bundled() {
        Ok(body) => body,
        Err(_other) => unreachable!(),
    }
}

fn lets_write(rights: Rights) -> bool
    ensures { result ≡ writes rights }
{
    match rights {
        Rights::Neither => false,
        Rights::Write => true,
        Rights::Read => false,
        Rights::Both => true,
    }
}

fn lets_read(rights: Rights) -> bool
    ensures { result ≡ reads rights }
{
    match rights {
        Rights::Neither => false,
        Rights::Write => false,
        Rights::Read => true,
        Rights::Both => true,
    }
}
