ghost use Rattle.std.specs.Prelude.{◌≡◌, ◌-◌, false, [], set, slice_index_or, if◌then◌else◌};
ghost use Rattle.im_queue.specs.Demand.{HasDemandRoom, IsDemand, IsSmall, demand_after};

use im_history::What;
use im_values::limits::MOST_TABLES;

/// What the entries so far come to, for the choice of the next build: the credits for trickle repopulations that are left, how
/// many sessions left, and which tables were opened since they joined the column store, changed their priority there or left.
///
/// It takes no memory.
#[derive(Drop)]
pub struct Demand {
    credits: u128,
    left: u64,
    /// By the tables' numbers, which are from 1.
    opened: [bool; MOST_TABLES + 1],
}

impl Demand {
    /// What no entry comes to.
    pub fn new() -> Demand
        ensures { IsDemand [] result }
    {
        Demand {
            credits: 0,
            left: 0,
            opened: [false; MOST_TABLES + 1],
        }
    }

    /// Counts one more entry. It takes constant time.
    pub fn note(&mut self, what: &What)
        requires { HasDemandRoom self.old }
        ensures demand { self.new ≡ demand_after what.now self.old }
        ensures small { IsSmall what.now }
    {
        match what {
            What::Trickle { n } => self.credits += u128::from(*n),
            What::Build { trickle, .. } => self.spend(*trickle),
            What::Open { table, .. } => self.mark(*table, true),
            What::Memory { table, .. } => self.mark(*table, false),
            What::Leave => self.left += 1,
            _ => {}
        }
    }

    /// How many credits are left.
    pub fn credits(&self) -> u128
        ensures { result ≡ self.now.credits }
    {
        self.credits
    }

    /// How many sessions left.
    pub fn left(&self) -> u64
        ensures { result ≡ self.now.left }
    {
        self.left
    }

    /// Whether a table was opened since it joined the column store, changed its priority there or left.
    pub fn is_opened(&self, table: u32) -> bool
        ensures { result ≡ slice_index_or self.now.opened table false }
    {
        match self.opened.get(table as usize) {
            Some(opened) => *opened,
            None => false,
        }
    }

    /// Spends a credit on a build, if it is to be spent.
    fn spend(&mut self, trickle: bool)
        ensures { self.new ≡ (if trickle then record self.old { credits = self.old.credits - 1 } else self.old) }
    {
        if trickle {
            self.credits = self.credits.saturating_sub(1);
        }
    }

    /// Marks whether a table was opened.
    fn mark(&mut self, table: u32, opened: bool)
        ensures { self.new ≡ record self.old { opened = set self.old.opened table opened } }
    {
        let place = table as usize;
        if place < self.opened.len() {
            self.opened[place] = opened;
        }
    }
}
