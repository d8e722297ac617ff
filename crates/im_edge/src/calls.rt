//! What the doubles in memory share: calls are numbered, and some of them fail.
ghost use Rattle.std.specs.Prelude.{◌≡◌};
ghost use Rattle.im_edge.specs.Faults.{one_more};
ghost use Rattle.im_edge.specs.FromMemory.{fails_next};

/// Counts calls and faults, and knows the numbers, from 1, of the calls that fail.
#[derive(Drop)]
pub(crate) struct Calls {
    pub fails: Vec<u64>,
    pub made: u64,
    pub faults: u64,
}

impl Calls {
    pub fn new(fails: Vec<u64>) -> Calls
        ensures fails { result.fails ≡ fails }
        ensures made { result.made ≡ 0 }
        ensures faults { result.faults ≡ 0 }
    {
        Calls {
            fails,
            made: 0,
            faults: 0,
        }
    }

    /// Counts one more call, and returns whether it is one of those that fail.
    pub fn begin(&mut self) -> bool
        ensures fails { result ≡ fails_next self.old.fails.items self.old.made }
        ensures counted { self.new ≡ record self.old { made = one_more self.old.made } }
    {
        self.made = self.made.saturating_add(1);
        self.fails.contains(&self.made)
    }

    pub fn note_fault(&mut self)
        ensures { self.new ≡ record self.old { faults = one_more self.old.faults } }
    {
        self.faults = self.faults.saturating_add(1);
    }
}
