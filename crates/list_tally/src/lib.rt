// The tally (sections 5 and 7). Promised: one count is raised by one, or nothing and the refusal; at the end each count is that of the
// statuses.
#![tactic(auto)]

ghost use Rattle.std.specs.Prelude.{◌≡◌};
ghost use Rattle.quantity.specs.rules.Answer.{checked};
ghost use Rattle.list_tally.specs.rules.Tally.{count_of, refusal_at, count_after, empty, raise_rule};

use quantity::Refusal;

// The highest known status: 0, or a number of the table of refusals.
pub const HIGHEST_STATUS: u8 = 19;

// A count, at most.
pub const FULLEST: u32 = 60000;

// A count for each number that the table may come to have.
#[derive(Clone, Copy)]
pub struct Tally {
    pub counts: [u32; 20],
}

// A tally after a status, and whether the status was refused, which leaves the tally as it was.
#[derive(Clone, Copy)]
pub struct Raised {
    pub tally: Tally,
    pub check: Result<(), Refusal>,
}

// The count that a status raises: its own where it is known, and else the first, which then stays.
fn count_of(status: u8) -> usize
    ensures { result ≡ count_of status }
{
    if status <= HIGHEST_STATUS {
        status as usize
    } else {
        0
    }
}

// Refusals of a status whose count is n: 9 for one that is not known, then 8 for a count that is full.
fn refusal_at(status: u8, n: u32) -> Result<(), Refusal>
    ensures { checked result ≡ refusal_at status n }
{
    if status > HIGHEST_STATUS {
        return Err(Refusal::Record);
    }
    if n < FULLEST {
        Ok(())
    } else {
        Err(Refusal::List)
    }
}

// The count n after a status: one more where nothing is refused.
fn count_after(status: u8, n: u32) -> u32
    ensures { result ≡ count_after status n }
{
    if status > HIGHEST_STATUS {
        return n;
    }
    if n < FULLEST { n + 1 } else { n }
}

// The counts where they stand, with that of one status raised, as `raise` has them: a tally that goes by value is copied whole.
pub fn raise_in(counts: &mut [u32; 20], status: u8)
    ensures { counts.exit.now ≡ (raise_rule (record { counts = counts.entry.now }) status).tally.counts }
{
    if status > HIGHEST_STATUS {
        return;
    }
    let k = status as usize;
    let n = counts[k];
    if n >= FULLEST {
        return;
    }
    counts[k] = n + 1;
}

impl Tally {
    // The tally of no status.
    pub fn new() -> Self
        ensures { result ≡ empty }
    {
        Tally { counts: [0; 20] }
    }

    // The tally with the count of one status raised; unchanged where it is refused. One store, whatever is refused: a tally that is
    // chosen of two is copied whole.
    // Refusals: 9 for a status that is not known, then 8 for a count that is full.
    pub fn raise(self, status: u8) -> Raised
        ensures { result ≡ raise_rule self status }
    {
        let mut tally = self;
        let k = count_of(status);
        let n = tally.counts[k];
        let check = refusal_at(status, n);
        tally.counts[k] = count_after(status, n);
        Raised { tally, check }
    }
}
