// What it is to have a key.
ghost use Rattle.std.specs.Prelude.{◌≡◌, Bool, true};

// `key` is an element's key, and `same` says whether two keys are equal: of a key with itself, both ways round,
// and passed along.
pub trait Keyed {
    type Key;

    ghost key: { Self → Self.Key };

    ghost same: { Self.Key → Self.Key → Bool };

    fn same_key(&self, other: &Self) -> bool
        ensures { result ≡ same (key self.now) (key other.now) };

    ghost reflexive: { (k : Self.Key) → same k k ≡ true };

    ghost symmetric: { (k l : Self.Key) → same k l ≡ true → same l k ≡ true };

    ghost transitive: { (k l m : Self.Key) → same k l ≡ true → same l m ≡ true → same k m ≡ true };
}
