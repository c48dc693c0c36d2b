// Request (viii): a table of bands is valid where these run without gap or overlap from 0 to 1,099,511,627,776, at most 64 of them and none
// above 10,000 cents; the check says what is wrong with any other, the lookup finds the one band that holds an amount, and the price call
// charges volume, area and outer edges, each the whole amount at the rate of that band. Check and lookup are shown for the band list, once.
// What condition 1 asks of the price call is here too.
ghost use Rattle.job.specs.Job.{seen};
ghost use Rattle.acceptance.specs.Prices.{TableChecked, LookedUp, ListPriced};

use job::Job;
use price_bands::{Band, FaultyBand};
use price_charging::Charges;
use refusals::Refusal;

// Checks a table.
pub fn check(bands: &[Band]) -> Result<(), FaultyBand>
    ensures { TableChecked bands.now result }
{
    price_bands::check(bands)
}

// Looks an amount up in a table.
pub fn lookup(bands: &[Band], amount: u64) -> u64
    ensures { LookedUp bands.now amount result }
{
    price_bands::lookup(bands, amount)
}

// Prices a list: refusals 1, 2, 6 to 10 and 18.
pub fn price(
    job: Job,
    work: &mut [u32],
    volume: &[Band],
    area: &[Band],
    edges: &[Band],
) -> Result<Charges, Refusal>
    ensures { ListPriced (seen job.entry) work.old
        (record { volume = volume.now; area = area.now; edges = edges.now }) result work.new }
{
    price::price(job, work, volume, area, edges)
}
