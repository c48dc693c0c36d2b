// Charging by three tables of price bands: the tests of the tables, and the charge of an amount. docs/SCOPE.md, 'Price bands'.
//
// specs/Charging.antt says which refusal is given, and what is charged; proofs/TableLaws.antt, when the tables accept and refuse, and
// proofs/ChargeLaws.antt, that no charge wraps. Nothing here knows a list, or how its amounts are measured. Stands on `price_bands` and
// `refusals`.
#![tactic(auto)]

ghost use Rattle.std.specs.Prelude.{◌≡◌, ◌*◌, ◌≤◌};
ghost use Rattle.refusals.specs.Tests.{first_of};
ghost use Rattle.price_bands.specs.Bands.{top, ValidTable, rate_of};
ghost use Rattle.price_charging.specs.Charging.{table_tests, checked_after, checked_after_three, Chargeable, charged_of};

use price_bands::{Band, FaultyBand, check, lookup};
use refusals::Refusal;

// What a list costs, in cents: for its volume, its area and its outer edges.
#[derive(Clone, Copy, Debug, PartialEq, Eq)]
pub struct Charges {
    pub volume: u64,
    pub area: u64,
    pub edge: u64,
}

// What is known of a list before its tables are looked at: whether the tests so far accept it, and the amounts that are charged.
#[derive(Clone, Copy, Debug, PartialEq, Eq)]
pub struct Taken {
    pub checked: Result<(), Refusal>,
    pub volume: u64,
    pub area: u64,
    pub edge: u64,
}

// One table more: its fault is refused by 18 where the tests before it pass.
fn after_table(checked: Result<(), Refusal>, verdict: Result<(), FaultyBand>) -> Result<(), Refusal>
    ensures { result ≡ checked_after checked verdict }
{
    checked?;
    match verdict {
        Ok(()) => Ok(()),
        Err(fault) => Err(Refusal::InvalidTable { band: fault.band }),
    }
}

// The tables of volume, of area, of edges more, in this order.
fn after_tables(
    checked: Result<(), Refusal>,
    volume: Result<(), FaultyBand>,
    area: Result<(), FaultyBand>,
    edges: Result<(), FaultyBand>,
) -> Result<(), Refusal>
    ensures { result ≡ checked_after_three checked volume area edges }
{
    after_table(after_table(after_table(checked, volume), area), edges)
}

// Checks the tables of volume, of area, of edges, in this order.
pub fn check_tables(volume: &[Band], area: &[Band], edges: &[Band]) -> Result<(), Refusal>
    ensures { result ≡ first_of (table_tests (record { volume = volume.now; area = area.now; edges = edges.now })) }
{
    after_tables(Ok(()), check(volume), check(area), check(edges))
}

// The charges of amounts at their rates, or the first refusal: that of the tests before, or of the table of volume, of area, of edges. All
// goes by value: what the check says of each table, and the rate that it has for its amount.
pub fn charge(
    taken: Taken,
    volume: Result<(), FaultyBand>,
    area: Result<(), FaultyBand>,
    edge: Result<(), FaultyBand>,
    volume_rate: u64,
    area_rate: u64,
    edge_rate: u64,
) -> Result<Charges, Refusal>
    requires { Chargeable taken volume area edge volume_rate area_rate edge_rate }
    ensures { result ≡ charged_of taken volume area edge volume_rate area_rate edge_rate }
{
    after_tables(taken.checked, volume, area, edge)?;
    Ok(Charges {
        volume: taken.volume * volume_rate,
        area: taken.area * area_rate,
        edge: taken.edge * edge_rate,
    })
}

// The charge of an amount by a valid table: the whole amount at the rate of the band that holds it.
pub fn charge_by(bands: &[Band], amount: u64) -> u64
    requires valid { ValidTable bands.now }
    requires below_top { amount ≤ top }
    ensures { result ≡ amount * rate_of amount bands.now }
{
    amount * lookup(bands, amount)
}
