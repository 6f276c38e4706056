//! A worklist: what was found is followed entry by entry, until nothing that it leads to is new.
ghost use Rattle.std.specs.Prelude.{◌≡◌, ℕ, ◌<◌, ◌≤◌, List, Some, length, slice_get, Contains, OnOk, IfErr};
ghost use Rattle.std.specs.List.{All};
ghost use Rattle.filter_trace.specs.Walks.{IsExtended};

/// How a walk goes from an entry to what it leads to.
pub trait Walk {
    /// What was found: a list of entries, which grows at its end.
    type Found;

    /// An entry of the list.
    type Entry;

    /// Why an entry can't be followed.
    type Fault;

    // The entries, in the order in which they came.
    ghost entries: { Self.Found → List Self.Entry };

    // No more entries come than this.
    ghost most: { Self.Found → ℕ };

    // What holds of all that was found.
    ghost sound: { Self → Self.Found → Type 0 };

    // What was found has all that the entry leads to.
    ghost followed: { Self → Self.Found → Self.Entry → Type 0 };

    // What a fault tells.
    ghost tells: { Self → Self.Fault → Type 0 };

    /// How many entries there are.
    fn count(&self, found: &Self::Found) -> usize
        ensures { result ≡ length (entries found.now) };

    /// The entry at the index.
    fn entry_at(&self, found: &Self::Found, at: usize) -> Self::Entry
        requires { at < length (entries found.now) }
        ensures { slice_get (entries found.now) at ≡ Some result };

    /// Adds what the entry leads to.
    fn follow(&self, entry: Self::Entry, found: &mut Self::Found) -> Result<(), Self::Fault>
        requires sound { sound self.now found.old }
        requires here { Contains (entries found.old) entry }
        ensures most { OnOk result (most found.new ≡ most found.old) }
        ensures sound { OnOk result (sound self.now found.new) }
        ensures grown { OnOk result (IsExtended (entries found.old) (entries found.new)) }
        ensures still { OnOk result ((other : Self.Entry) → followed self.now found.old other
            → followed self.now found.new other) }
        ensures followed { OnOk result (followed self.now found.new entry) }
        ensures err { IfErr result (tells self.now) };

    ghost few: { (walk : Self) (found : Self.Found) → sound walk found
        → length (entries found) ≤ most found };
}

/// Follows each entry, also those that come meanwhile.
pub fn follow_all<W: Walk>(walk: &W, found: &mut W::Found) -> Result<(), W::Fault>
    requires { W.sound walk.now found.old }
    ensures sound { OnOk result (W.sound walk.now found.new) }
    ensures grown { OnOk result (IsExtended (W.entries found.old) (W.entries found.new)) }
    ensures followed { OnOk result (All (W.followed walk.now found.new) (W.entries found.new)) }
    ensures err { IfErr result (W.tells walk.now) }
{
    let mut next = 0;
    while next < walk.count(found) {
        let entry = walk.entry_at(found, next);
        walk.follow(entry, found)?;
        next += 1;
    }
    Ok(())
}
