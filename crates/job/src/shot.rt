// The door to the shots of a coordinate slice, three numbers each: no other crate knows where a shot's numbers stand. docs/SCOPE.md,
// 'The job'.
ghost use Rattle.std.specs.Prelude.{◌≡◌, ◌+◌, ◌≤◌, ◌<◌};
ghost use Rattle.buffer.specs.Wrote.{Wrote};
ghost use Rattle.job.specs.Job.{shot_count, place_of, x_at, y_at, z_at, edge_at, numbers_of, first_shots};

// How many shots a slice holds, or has place for; a remainder is none.
pub fn count(coords: &[u16]) -> usize
    ensures { result ≡ shot_count coords.now }
{
    coords.len() / 3
}

// The x of a shot.
pub fn x_of(coords: &[u16], shot: usize) -> u16
    requires { shot < shot_count coords.now }
    ensures { result ≡ x_at coords.now shot }
{
    coords[3 * shot]
}

// The y of a shot.
pub fn y_of(coords: &[u16], shot: usize) -> u16
    requires { shot < shot_count coords.now }
    ensures { result ≡ y_at coords.now shot }
{
    coords[3 * shot + 1]
}

// The z of a shot.
pub fn z_of(coords: &[u16], shot: usize) -> u16
    requires { shot < shot_count coords.now }
    ensures { result ≡ z_at coords.now shot }
{
    coords[3 * shot + 2]
}

// The edge of a shot: that of its list.
pub fn edge_of(edge: u16, coords: &[u16], shot: usize) -> u16
    requires { shot < shot_count coords.now }
    ensures { result ≡ edge_at edge coords.now shot }
{
    edge
}

// Stores a shot; every other place keeps its value.
pub fn put(coords: &mut [u16], shot: usize, x: u16, y: u16, z: u16)
    requires { shot < shot_count coords.old }
    ensures { Wrote coords.old coords.new (place_of shot) (place_of (shot + 1)) (numbers_of x y z) }
{
    let at = 3 * shot;
    coords[at] = x;
    coords[at + 1] = y;
    coords[at + 2] = z;
}

// The first shots of a slice, as a part of it.
pub fn first(coords: &[u16], shots: usize) -> &[u16]
    requires { shots ≤ shot_count coords.now }
    ensures { result.now ≡ first_shots shots coords.now }
{
    let end = 3 * shots;
    &coords[..end]
}
