// Whose text it is.
ghost use Rattle.std.specs.Prelude.{◌≡◌};
ghost use Rattle.judge.specs.Kinds.{writes, late, own};

use dictionary::entry::Writer;

#[derive(Clone, Copy, PartialEq, Eq, Debug)]
pub enum TextKind {
    // The configuration, handed in at opening.
    Configuration,
    // What the terminal writes, before or after begin.
    TerminalWrite { begun: bool },
    // What a card answers.
    CardAnswer,
}

impl TextKind {
    // Whether objects of that writer may stand in such a text.
    pub fn writes(self, writer: Writer) -> bool
        ensures { result ≡ writes self writer }
    {
        match self {
            TextKind::Configuration => matches!(writer, Writer::Configuration),
            TextKind::TerminalWrite { .. } => {
                matches!(writer, Writer::TerminalBeforeBegin | Writer::Terminal)
            }
            TextKind::CardAnswer => matches!(writer, Writer::Card),
        }
    }

    // Whether objects of that writer come too late in such a text.
    pub fn late(self, writer: Writer) -> bool
        ensures { result ≡ late self writer }
    {
        match self {
            TextKind::TerminalWrite { begun } => {
                begun && matches!(writer, Writer::TerminalBeforeBegin)
            }
            TextKind::Configuration | TextKind::CardAnswer => false,
        }
    }

    // Whether it is one of our own texts: a series of primitive objects, each of them known.
    pub fn is_own(self) -> bool
        ensures { result ≡ own self }
    {
        !matches!(self, TextKind::CardAnswer)
    }
}
