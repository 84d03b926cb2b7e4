// A store over another, of any make: values are kept masked in the store below.
#![tactic(auto)]

ghost use Rattle.std.specs.Prelude.{◌≡◌, ◌+◌, ◌%◌, slice_index};
ghost use Rattle.store.specs.Map.{empty};
ghost use Rattle.masking.specs.Mask.{masked, unmasked, MasksEachByte};
ghost use Rattle.masking.specs.Masks.{kept_masked};

use keyed::tag::Tag;
use store::reading::{NotCopied, ReadStore};
use store::writing::{Refused, WriteStore};

// The pad that values are masked with.
#[derive(Clone, Copy, PartialEq, Eq, Debug)]
struct Pad {
    bytes: [u8; 256],
}

// The store below, and the pad.
#[derive(Drop)]
pub struct Masking<S> {
    lower: S,
    pad: Pad,
}

impl Pad {
    // The pad of these bytes, and the law of masking with it.
    fn new(bytes: [u8; 256]) -> Pad
        ensures bytes { result.bytes ≡ bytes }
        ensures masks { MasksEachByte bytes }
        ensures empty { unmasked bytes empty ≡ empty }
    {
        Pad { bytes }
    }

    // What byte `i` of the value of a tag is masked with.
    fn byte_for(&self, tag: Tag, i: usize) -> u8
        ensures { result ≡ slice_index self.now.bytes ((i + tag.value) % 256) }
    {
        self.bytes[(i % 256 + tag.number() as usize % 256) % 256]
    }

    // Masks each byte in place.
    #[tactic(auto, using(crate::proofs::Bytes::masked_turn))]
    fn apply(&self, tag: Tag, text: &mut [u8])
        ensures { text.new ≡ masked self.now.bytes tag.value text.old }
    {
        for (i, byte) in text.iter_mut().enumerate() {
            *byte ^= self.byte_for(tag, i);
        }
    }
}

impl<S: ReadStore> Masking<S> {
    // A store with the limits of the one below, whose objects are those below, unmasked: an empty one if that is empty.
    pub fn new(lower: S, pad: [u8; 256]) -> Masking<S>
        ensures lower { result.lower ≡ lower }
        ensures pad { result.pad.bytes ≡ pad }
        ensures masks { MasksEachByte pad }
        ensures empty { S.ReadStore.held lower ≡ empty → unmasked result.pad.bytes (S.ReadStore.held result.lower) ≡ empty }
    {
        Masking {
            lower,
            pad: Pad::new(pad),
        }
    }
}

#[tactic(auto, using(crate::specs::Masks::count_unmasked, crate::specs::Masks::total_unmasked))]
impl<S: ReadStore> ReadStore for Masking<S> {
    ghost held = { λ s. unmasked s.pad.bytes (S.ReadStore.held s.lower) };

    ghost objects = { λ s. S.ReadStore.objects s.lower };

    ghost bytes = { λ s. S.ReadStore.bytes s.lower };

    ghost kept = { λ s. kept_masked s.pad.bytes (S.ReadStore.held s.lower) (S.ReadStore.objects s.lower) (S.ReadStore.bytes s.lower) (S.ReadStore.kept s.lower) };

    fn object_limit(&self) -> usize {
        self.lower.object_limit()
    }

    fn byte_limit(&self) -> usize {
        self.lower.byte_limit()
    }

    fn object_count(&self) -> usize {
        self.lower.object_count()
    }

    fn byte_total(&self) -> usize {
        self.lower.byte_total()
    }

    fn length_of(&self, tag: Tag) -> Option<usize> {
        self.lower.length_of(tag)
    }

    fn copy_out(&self, tag: Tag, out: &mut [u8]) -> Result<usize, NotCopied> {
        let n = self.lower.copy_out(tag, out)?;
        self.pad.apply(tag, &mut out[0..n]);
        Ok(n)
    }
}

impl<S: WriteStore> WriteStore for Masking<S> {
    fn put(&mut self, tag: Tag, value: &[u8]) -> Result<(), Refused> {
        let n = value.len();
        if n > 255 {
            return Err(Refused::TooLong);
        }
        let mut buffer = [0; 255];
        let text = &mut buffer[0..n];
        text.copy_from_slice(value);
        self.pad.apply(tag, text);
        self.lower.put(tag, text)
    }

    fn remove(&mut self, tag: Tag) -> bool {
        self.lower.remove(tag)
    }
}
