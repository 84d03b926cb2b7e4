// The place of a record on a card.
ghost use Rattle.keyed.specs.Records.{record_same};
ghost use Rattle.std.proofs.Common.{rules};

use crate::key::Keyed;

// A record, by its file (the short file identifier) and its number in it.
#[derive(Clone, Copy, PartialEq, Eq, Debug, Default)]
pub struct Record {
    pub sfi: u8,
    pub number: u8,
}

impl Keyed for Record {
    type Key = Record;

    ghost key = { λ x. x };

    ghost same = { record_same };

    ghost reflexive = { Prim.search rules };

    ghost symmetric = { Prim.search rules };

    ghost transitive = { Prim.search rules };

    fn same_key(&self, other: &Record) -> bool {
        self == other
    }
}
