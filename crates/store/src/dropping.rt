// Dropping a list of tags, for every store.
ghost use Rattle.std.specs.Prelude.{◌≡◌};
ghost use Rattle.store.specs.Steps.{cleared};

use crate::reading::ReadStore;
use crate::writing::WriteStore;
use keyed::tag::Tag;

// Holds none of the tags any longer; every other object stays.
pub fn remove_all<S: WriteStore>(store: &mut S, tags: &[Tag])
    ensures after { S.ReadStore.held store.new ≡ cleared tags.now (S.ReadStore.held store.old) }
    ensures limits { (S.ReadStore.objects store.new ≡ S.ReadStore.objects store.old) × (S.ReadStore.bytes store.new ≡ S.ReadStore.bytes store.old) }
{
    for t in tags {
        store.remove(*t);
    }
}
