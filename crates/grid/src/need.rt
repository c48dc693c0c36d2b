// How many entries the index of a list needs, before anything is stored. docs/SCOPE.md, 'The grid index'.
ghost use Rattle.std.specs.Prelude.{◌≡◌, ◌+◌, ◌*◌, ◌/◌, ◌<◌, ◌≤◌};
ghost use Rattle.job.specs.Job.{shot_count, seen};
ghost use Rattle.grid.specs.Quotients.{Quotients};
ghost use Rattle.grid.specs.Grid.{pairs_of, pairs, need};

use crate::intervals::{cells_of, quotients, span};
use job::valid::ValidJob;

// How many grid cells a shot belongs to: the product of its three spans.
fn pairs_of(list: ValidJob, width: u16, table: &[u16], shot: usize) -> usize
    requires width_value { width ≡ list.job.field / list.job.grid }
    requires quotients { Quotients width (list.job.field + 1) table.now }
    requires shot_bound { shot < shot_count list.job.coords.now }
    ensures { result ≡ pairs_of (seen list.entry.job) shot }
{
    let job = list.job;
    let side = job.edge_of(shot);
    let x = span(job.grid, width, table, job.x_of(shot), side);
    let y = span(job.grid, width, table, job.y_of(shot), side);
    let z = span(job.grid, width, table, job.z_of(shot), side);
    x * y * z
}

// The pairs of a grid cell and a shot that belongs to it, counted shot by shot.
fn pairs(list: ValidJob, width: u16, table: &[u16]) -> usize
    requires width_value { width ≡ list.job.field / list.job.grid }
    requires quotients { Quotients width (list.job.field + 1) table.now }
    ensures { result ≡ pairs (seen list.entry.job) }
{
    let mut sum = 0;
    for shot in 0..list.job.count() {
        sum += pairs_of(list, width, table, shot);
    }
    sum
}

// The entries that the index of a list needs. A shot's spans are looked up in a table of quotients, filled once.
pub fn need(list: ValidJob) -> usize
    ensures { result ≡ need (seen list.entry.job) }
{
    let job = list.job;
    let width = job.field / job.grid;
    let mut table = [0; 1025];
    quotients(width, job.field + 1, &mut table);
    cells_of(job.grid) + 1 + pairs(list, width, &table)
}
