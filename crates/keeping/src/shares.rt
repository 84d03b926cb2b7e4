// The shares of a store.
ghost use Rattle.std.specs.Prelude.{◌≡◌};
ghost use Rattle.keeping.specs.Shares.{share_of};

use judge::kind::TextKind;

// How many value bytes each writer may have.
#[derive(Clone, Copy, PartialEq, Eq, Debug, Default)]
pub struct Shares {
    pub configuration: usize,
    pub terminal: usize,
    pub card: usize,
}

impl Shares {
    // The share of those who write such texts.
    pub fn of(&self, kind: TextKind) -> usize
        ensures { result ≡ share_of self.now kind }
    {
        match kind {
            TextKind::Configuration => self.configuration,
            TextKind::TerminalWrite { .. } => self.terminal,
            TextKind::CardAnswer => self.card,
        }
    }
}
