// Price bands: the check of a table of rates that a shop edits, and the rate of an amount. docs/SCOPE.md, 'Price bands'.
//
// specs/Bands.antt says what a valid table is, what is wrong with one that is not, and which band holds an amount;
// proofs/BandTheorems.antt, the file to read first, what the check and the lookup are good for, for any band list. A table is a lent slice
// of structs. Stands on `ground`, and knows nothing of a list or its totals.
#![tactic(auto)]

ghost use Rattle.std.specs.Prelude.{◌≡◌};
ghost use Rattle.price_bands.specs.Bands.{is_good, holds, verdict_of, rate_of};

// An amount from `first` to `last`, both included, costs `cents` for each unit.
#[repr(C)]
#[derive(Clone, Copy, Debug, PartialEq, Eq)]
pub struct Band {
    pub first: u64,
    pub last: u64,
    pub cents: u64,
}

// What is wrong with a table: the first faulty band, from 0; the number of bands where the top is missing, and 64 where there are more than 64.
#[derive(Clone, Copy, Debug, PartialEq, Eq)]
pub struct FaultyBand {
    pub band: usize,
}

// The largest amount of a table, 2^40, and one past it; the highest rate; how many bands a table may have.
const TOP: u64 = 1099511627776;

const PAST_TOP: u64 = 1099511627777;

const HIGHEST_RATE: u64 = 10000;

const MOST_BANDS: usize = 64;

impl Band {
    // Holds an amount.
    fn holds(self, amount: u64) -> bool
        ensures { result ≡ holds self amount }
    {
        self.first <= amount && amount <= self.last
    }

    // Has no fault where it has to start at `due`.
    fn is_good(self, due: u64) -> bool
        ensures { result ≡ is_good due self }
    {
        self.first == due
            && self.first <= self.last
            && self.last <= TOP
            && self.cents <= HIGHEST_RATE
    }
}

// What is wrong with a table, if anything: more than 64 bands, else its first faulty band, else that the top is missing.
pub fn check(bands: &[Band]) -> Result<(), FaultyBand>
    ensures { result ≡ verdict_of bands.now }
{
    if MOST_BANDS < bands.len() {
        return Err(FaultyBand { band: MOST_BANDS });
    }
    let mut due = 0;
    for (i, &band) in bands.iter().enumerate() {
        if !band.is_good(due) {
            return Err(FaultyBand { band: i });
        }
        due = band.last + 1;
    }
    if due != PAST_TOP {
        return Err(FaultyBand { band: bands.len() });
    }
    Ok(())
}

// The rate of the first band that holds an amount; 0 where none does.
pub fn lookup(bands: &[Band], amount: u64) -> u64
    ensures { result ≡ rate_of amount bands.now }
{
    for &band in bands {
        if band.holds(amount) {
            return band.cents;
        }
    }
    0
}
