use std::marker::Model;

/// Random numbers, one after the other: a linear congruential generator modulo 2^32. Contracts see the word behind which
/// the next is drawn.
#[derive(Debug, Drop)]
pub(crate) struct Draws {
    word: u32,
}

impl Model for Draws {
    ghost use Rattle.std.specs.Prelude.{ℕ};

    ghost Value = { ℕ };

    ghost view = { λ d. d.word };
}

impl Draws {
    ghost use Rattle.std.specs.Prelude.{◌≡◌, ◌<◌, ◌≤◌, ◌^◌};
    ghost use Rattle.rip_gen.specs.Plans.{next_random, drawn};

    pub(crate) fn behind(word: u32) -> Draws
        ensures { result ≡ word }
    {
        Draws { word }
    }

    /// The next number below n.
    pub(crate) fn below(&mut self, n: u32) -> u32
        requires some { 1 ≤ n }
        requires bounded { n ≤ 2 ^ 31 }
        ensures drawn { result ≡ drawn self.old n }
        ensures below { result < n }
        ensures next { self.new ≡ next_random self.old }
    {
        self.word = ((1_664_525 * u64::from(self.word) + 1_013_904_223) % (1 << 32)) as u32;
        (u64::from(self.word) * u64::from(n) / (1 << 32)) as u32
    }
}
