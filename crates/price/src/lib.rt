// The price call: three charges of a list, by three tables of price bands. docs/SCOPE.md, 'Price bands'.
//
// specs/Price.antt says what it answers and leaves; proofs/PriceTheorems.antt, the file to read first, when it accepts and refuses, and that
// each charge is the whole amount times the rate of the one band that holds it. Stands on `measure`, `price_bands` and `price_charging`.
#![tactic(auto)]

ghost use Rattle.job.specs.Job.{seen};
ghost use Rattle.price.specs.Price.{PriceCall};

use job::Job;
use measure::measure;
use price_bands::{Band, check, lookup};
use price_charging::{Charges, Taken, charge};
use refusals::Refusal;

// Prices a list by its volume, its area and the length of its outer edges, and leaves its index in the work slice. Refusals as in
// measuring, and then 18 for the table of volume, of area, of edges, which leaves the finished index in the work slice.
pub fn price(
    job: Job,
    work: &mut [u32],
    volume: &[Band],
    area: &[Band],
    edges: &[Band],
) -> Result<Charges, Refusal>
    ensures { PriceCall (seen job.entry) work.old
        (record { volume = volume.now; area = area.now; edges = edges.now }) result work.new }
{
    let totals = measure(job, work)?;
    let taken = Taken {
        checked: Ok(()),
        volume: totals.volume,
        area: totals.area,
        edge: totals.edge,
    };
    charge(
        taken,
        check(volume),
        check(area),
        check(edges),
        lookup(volume, taken.volume),
        lookup(area, taken.area),
        lookup(edges, taken.edge),
    )
}
