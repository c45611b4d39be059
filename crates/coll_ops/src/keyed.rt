// Members of sets, and pairs of maps, by their keys.
ghost use Rattle.std.specs.Prelude.{◌≡◌, false};
ghost use Rattle.calculus.specs.Tree.{Tree};

use crate::maker::Maker;
use rho_term::Term;

/// What a set or a map keeps once for each key.
pub(crate) trait Keyed: Drop {
    ghost key_tree: { Self → Tree };

    /// The process that it is found by.
    fn key(&self) -> &Term
        ensures { result.now ≡ key_tree self.now };

    /// An equal one.
    fn copied(&self, maker: &mut Maker) -> Self
        ensures { maker.new.failed ≡ false → (maker.old.failed ≡ false) × (result ≡ self.now) };
}

// A member of a set is its own key.
impl Keyed for Term {
    ghost key_tree = { λ t. t };

    fn key(&self) -> &Term {
        self
    }

    fn copied(&self, maker: &mut Maker) -> Term {
        maker.copy(self)
    }
}

impl Keyed for (Term, Term) {
    ghost key_tree = { λ p. p.0 };

    fn key(&self) -> &Term {
        &self.0
    }

    fn copied(&self, maker: &mut Maker) -> (Term, Term) {
        let key = maker.copy(&self.0);
        let value = maker.copy(&self.1);
        (key, value)
    }
}
