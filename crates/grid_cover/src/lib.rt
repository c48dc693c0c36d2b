// The cover test: the first shot of a run that covers a unit cell. docs/SCOPE.md, 'The grid index'. A run is any slice of numbers.
// specs/Cover.antt says what it answers; proofs/CoverRuns.antt that the run of a grid cell names the list's lowest covering shot.
// Stands on `grid`, whose runs it is asked about, and on `job` and `lattice`.
#![tactic(auto)]

ghost use Rattle.std.specs.Prelude.{◌≡◌};
ghost use Rattle.lattice.specs.Shots.{spans};
ghost use Rattle.grid_cover.specs.Cover.{shot_covers, first_covering};

use job::shot;

// Whether the edge of a shot from a coordinate on spans a cell of the axis.
fn spans_cell(edge: u16, at: u16, cell: u16) -> bool
    ensures { result ≡ spans edge at cell }
{
    at <= cell && u32::from(cell) < u32::from(at) + u32::from(edge)
}

// Whether a shot covers the cell (i, j, k). A number past the list's shots covers nothing.
#[tactic(auto, unfolding(crate::specs::Cover::shot_covers))]
fn shot_covers(coords: &[u16], edge: u16, shot: u32, i: u16, j: u16, k: u16) -> bool
    ensures { result ≡ shot_covers edge coords.now shot i j k }
{
    let number = shot as usize;
    if shot::count(coords) <= number {
        return false;
    }
    let side = shot::edge_of(edge, coords, number);
    spans_cell(side, shot::x_of(coords, number), i)
        && spans_cell(side, shot::y_of(coords, number), j)
        && spans_cell(side, shot::z_of(coords, number), k)
}

// The first shot of the run that covers the cell (i, j, k), by its number. docs/SCOPE.md, 'The shape each place takes', asks for a loop
// expression that yields its answer by `break`. The run may be any numbers. docs/DEBUGGING.md shows how to stop in it.
#[tactic(auto, unfolding(crate::specs::Cover::first_covering, crate::specs::Cover::first))]
pub fn first_covering(coords: &[u16], edge: u16, run: &[u32], i: u16, j: u16, k: u16) -> Option<u32>
    ensures { result ≡ first_covering edge coords.now run.now i j k }
{
    let mut shots = run.iter();
    loop {
        let Some(&shot) = shots.next() else {
            break None;
        };
        if shot_covers(coords, edge, shot, i, j, k) {
            break Some(shot);
        }
    }
}
