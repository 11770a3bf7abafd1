//! One search for every kind of entry: page table entries, instruction forms, names of commands.
#![tactic(auto)]

ghost use Rattle.std.specs.Prelude.{◌≡◌, Bool, find};

/// An entry of a list that is looked up by a key of its own kind: a page table entry by a page,
/// a form by an instruction word.
pub trait Entry: Copy {
    type Key: Copy;

    /// Whether an entry is one for a key.
    ghost matched: { Self → Self.Key → Bool };

    fn matches(&self, key: Self::Key) -> bool
        ensures { result ≡ matched self.now key };
}

/// The first of `entries` that matches `key`.
pub fn first_match<E: Entry>(entries: &[E], key: E::Key) -> Option<E>
    ensures { result ≡ find (λ e. E.Entry.matched e key) entries.now }
{
    entries.iter().copied().find(|entry| entry.matches(key))
}
