// The shots that reach a line of lattice points: a run narrowed to them covers the cells about the line as the whole run does.
// specs/Lines.antt says which they are. Stands on `job` and `grid_cover`.
#![tactic(auto)]

ghost use Rattle.std.specs.Prelude.{◌≡◌, ◌≤◌, ◌<◌, length};
ghost use Rattle.buffer.specs.Wrote.{Wrote};
ghost use Rattle.job.specs.Job.{shot_count};
ghost use Rattle.ground.specs.Numbers.{AllBelow, those};
ghost use Rattle.measure_lines.specs.Lines.{reaches_place, reaches_line};

use job::shot;

// Whether the edge of a shot from a coordinate on holds a place of the axis, ends included.
fn reaches_place(edge: u16, at: u16, place: u16) -> bool
    ensures { result ≡ reaches_place edge at place }
{
    at <= place && u32::from(place) <= u32::from(at) + u32::from(edge)
}

// Whether a shot reaches the line of points at (x, y).
fn reaches_line(coords: &[u16], edge: u16, shot: u32, x: u16, y: u16) -> bool
    requires { shot < shot_count coords.now }
    ensures { result ≡ reaches_line edge coords.now x y shot }
{
    let number = shot as usize;
    let side = shot::edge_of(edge, coords, number);
    reaches_place(side, shot::x_of(coords, number), x)
        && reaches_place(side, shot::y_of(coords, number), y)
}

// Of the shots of a run, puts those that reach the line at (x, y) to the front, in their order, and gives how many there are.
pub fn narrow_to_line(
    coords: &[u16],
    edge: u16,
    run: &[u32],
    x: u16,
    y: u16,
    to: &mut [u32],
) -> usize
    requires all_below { AllBelow (shot_count coords.now) run.now }
    requires run_in_bounds { length run.now ≤ length to.old }
    ensures { Wrote to.old to.new 0 result
        (those (reaches_line edge coords.now x y) run.now) }
{
    let mut next = 0;
    for &shot in run {
        if reaches_line(coords, edge, shot, x, y) {
            to[next] = shot;
            next += 1;
        }
    }
    next
}
