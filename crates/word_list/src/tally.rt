// How many cases of each kind there are, and how many come out as listed.
ghost use Rattle.std.specs.Prelude.{◌≡◌, replicate};
ghost use Rattle.word_list.specs.Tally.{counted, summed};
ghost use Rattle.word_list.specs.Count.{more, none};

// So many cases, of which so many come out as listed. Each number stops at the greatest.
#[derive(Clone, Copy)]
pub struct Count {
    pub cases: usize,
    pub right: usize,
}

impl Count {
    // Some cases more.
    pub fn more(self, by: Count) -> Count
        ensures { result ≡ more self by }
    {
        Count {
            cases: self.cases.saturating_add(by.cases),
            right: self.right.saturating_add(by.right),
        }
    }
}

// A count for each of N kinds.
#[derive(Clone, Copy)]
pub struct Tally<const N: usize> {
    pub counts: [Count; N],
}

impl<const N: usize> Tally<N> {
    pub fn new() -> Self
        ensures { result.counts ≡ replicate N none }
    {
        Tally {
            counts: [Count { cases: 0, right: 0 }; N],
        }
    }

    // Counts some more of a kind, at 0 where it has no place of its own.
    // Kept: the list's number of a kind, as in `cases`.
    pub fn add(&mut self, kind: usize, by: Count)
        ensures { self.new.counts ≡ counted self.old.counts kind by }
    {
        let at = if kind < N { kind } else { 0 };
        if at < N {
            self.counts[at] = self.counts[at].more(by);
        }
    }

    // All kinds together.
    pub fn total(&self) -> Count
        ensures { result ≡ summed self.now.counts }
    {
        let none = Count { cases: 0, right: 0 };
        self.counts.iter().fold(none, |all, count| all.more(*count))
    }
}
