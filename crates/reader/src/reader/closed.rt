// What a store holds before its reader is opened.
ghost use Rattle.std.specs.Prelude.{◌≡◌};
ghost use Rattle.reader.specs.Meanings.{meaning};
ghost use Rattle.run.specs.State.{holding};
ghost use Rattle.reader.specs.Closed.{closed_put_answer, closed_put_after, remove_answer, remove_after};

use crate::reader::Reader;
use keyed::tag::Tag;
use run::refusal::Refusal;
use store::writing::{Refused, WriteStore};

// Why an object is not put into the store of a reader.
#[derive(Clone, Copy, PartialEq, Eq, Debug)]
pub enum PutRefusal {
    // The reader is open.
    Open,
    // The store refuses it.
    Store(Refused),
}

impl<S: WriteStore> Reader<S> {
    // Puts an object into the store of a reader that is not open.
    pub fn put(&mut self, tag: Tag, value: &[u8]) -> Result<(), PutRefusal>
        ensures answer { result ≡ closed_put_answer (meaning S.ReadStore self.old) tag.value value.now }
        ensures after { meaning S.ReadStore self.new ≡ holding (meaning S.ReadStore self.old) (closed_put_after result (meaning S.ReadStore self.old).held tag.value value.now) }
    {
        if self.opened {
            return Err(PutRefusal::Open);
        }
        self.store.put(tag, value).map_err(PutRefusal::Store)
    }

    // Drops an object from the store of a reader that is not open; whether it was held.
    pub fn remove(&mut self, tag: Tag) -> Result<bool, Refusal>
        ensures answer { result ≡ remove_answer (meaning S.ReadStore self.old) tag.value }
        ensures after { meaning S.ReadStore self.new ≡ holding (meaning S.ReadStore self.old) (remove_after result (meaning S.ReadStore self.old).held tag.value) }
    {
        if self.opened {
            return Err(Refusal::AlreadyOpen);
        }
        Ok(self.store.remove(tag))
    }
}
