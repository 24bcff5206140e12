//! What a choosing rule is.
ghost use Rattle.std.specs.Prelude.{◌≡◌, ℕ, List, Option};
ghost use Rattle.choosing.specs.declared.share.Share.{Share};
ghost use Rattle.choosing.specs.Choosing.{Lawful, GoesOn};

use crate::share::Share;

/// A choosing rule names the client of a server that runs next, or none.
pub trait Choosing {
    /// The answer, from the server and its clients in placing order: the place of one of them.
    ghost chosen: { Self → Share → List Share → Option ℕ };

    fn choose(&self, server: Share, clients: &[Share]) -> Option<usize>
        ensures { result ≡ chosen self.now server clients.now };

    /// A named client has left; none is named exactly if no client has left or there are more than 80; and one tick taken
    /// from a balanced server that has left, and from the client named, leaves it balanced.
    ghost lawful: { (rule : Self) → Lawful (chosen rule) };
}

/// A choosing rule that goes on with the client that it named, while that client has left and no client is renewed.
pub trait Steady: Choosing {
    ghost steady: { (rule : Self) → GoesOn (Self.Choosing.chosen rule) };
}
