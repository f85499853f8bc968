/// A clock of whole milliseconds.
pub trait Clock {
    ghost use Rattle.std.specs.Prelude.{◌≡◌, ◌+◌, ◌<◌, ◌≤◌, ◌^◌, ◌∷◌, [], ℕ, List, Option, IfSome};
    ghost use Rattle.rip_outer.specs.Outside.{also};

    // The moments told so far, and the moment that call j from now on gives, from 0, each where the object tells it;
    // how many calls failed.
    ghost told: { Self → Option (List ℕ) };

    ghost coming: { Self → ℕ → Option ℕ };

    ghost count: { Self → ℕ };

    /// How often the outside failed so far.
    fn faults(&self) -> u64
        ensures { result ≡ count self.now };

    /// The moment now, in milliseconds.
    fn now(&mut self) -> u64
        ensures bound { result < 2 ^ 53 }
        ensures told { told self.new ≡ also (result ∷ []) (told self.old) }
        ensures first { IfSome (coming self.old 0) (λ moment. result ≡ moment) }
        ensures others { (j : ℕ) → coming self.new j ≡ coming self.old (j + 1) }
        ensures later { count self.old ≤ count self.new };
}

/// Random words of 64 bits.
pub trait Words {
    ghost use Rattle.std.specs.Prelude.{◌≡◌, ◌+◌, ◌<◌, ◌≤◌, ◌^◌, ◌∷◌, [], ℕ, List, Option, IfSome};
    ghost use Rattle.rip_outer.specs.Outside.{also};

    // The words told so far, and the word that call j from now on gives, from 0, each where the object tells it; how
    // many calls failed.
    ghost told: { Self → Option (List ℕ) };

    ghost coming: { Self → ℕ → Option ℕ };

    ghost count: { Self → ℕ };

    /// How often the outside failed so far.
    fn faults(&self) -> u64
        ensures { result ≡ count self.now };

    /// The next word.
    fn word(&mut self) -> u64
        ensures told { told self.new ≡ also (result ∷ []) (told self.old) }
        ensures first { IfSome (coming self.old 0) (λ word. result ≡ word) }
        ensures others { (j : ℕ) → coming self.new j ≡ coming self.old (j + 1) }
        ensures later { count self.old ≤ count self.new };
}
