// A job, which is a list with its settings: the door to its shots, and the checks that every call on a list shares. docs/SCOPE.md, 'The job'
// and 'When a job is refused'. specs/Job.antt says what a job is, what its shots are and when it is valid: what is said of a whole list takes
// the job as one value, and `Job` is that value in code, with its coordinates lent. specs/Checking.antt is what `check`
// answers; proofs/Conditions.antt when, exactly. Stands on `buffer`, on `lattice`, whose shots and cells the definitions use, and on
// `refusals`.
#![tactic(auto)]

ghost use Rattle.std.specs.Prelude.{◌≡◌, ◌≤◌, ◌<◌, MatchResult, Ok, Err};
ghost use Rattle.job.specs.Job.{job_of, first_shots, shots, shot_count, x_at, y_at, z_at, edge_at, seen};
ghost use Rattle.job.specs.Checking.{outside, past, leaves, first_leaving, setting_tests, shot_tests, tests, checked};
ghost use Rattle.refusals.specs.Tests.{Checks};

pub mod shot;
pub mod valid;

use refusals::Refusal;
use valid::ValidJob;

// A list with its settings, lent: contracts say `seen` for the job that it is.
#[derive(Clone, Copy)]
pub struct Job<'a> {
    pub field: u16,
    pub edge: u16,
    pub grid: u16,
    pub coords: &'a [u16],
}

// What a reader says of the list that it stored: its settings, and how many shots it has.
#[derive(Clone, Copy, Debug, PartialEq, Eq)]
pub struct Stored {
    pub field: u16,
    pub edge: u16,
    pub grid: u16,
    pub shots: usize,
}

impl Stored {
    // The list that was stored, in the slice where it was.
    pub fn job<'a>(self, coords: &'a [u16]) -> Job<'a>
        requires { self.shots ≤ shot_count coords.now }
        ensures { seen result ≡ job_of self.field self.edge self.grid (first_shots self.shots coords.now) }
    {
        Job {
            field: self.field,
            edge: self.edge,
            grid: self.grid,
            coords: shot::first(coords, self.shots),
        }
    }
}

// A cube from `at` on an axis passes the side of the field.
fn passes(field: u16, edge: u16, at: u16) -> bool
    ensures { result ≡ past field edge at }
{
    u32::from(field) < u32::from(at) + u32::from(edge)
}

// A shot leaves the field, on x, y or z.
fn shot_leaves(field: u16, edge: u16, x: u16, y: u16, z: u16) -> bool
    ensures { result ≡ leaves field (record { x = x; y = y; z = z; edge = edge }) }
{
    passes(field, edge, x) || passes(field, edge, y) || passes(field, edge, z)
}

// A setting is below `least` or above `most`.
fn is_outside(least: u16, most: u16, a: u16) -> bool
    ensures { result ≡ outside least most a }
{
    a < least || most < a
}

impl<'a> Job<'a> {
    // How many shots it has.
    pub fn count(self) -> usize
        ensures { result ≡ shot_count self.entry.coords.now }
    {
        shot::count(self.coords)
    }

    // The x of a shot.
    pub fn x_of(self, shot: usize) -> u16
        requires { shot < shot_count self.coords.now }
        ensures { result ≡ x_at self.entry.coords.now shot }
    {
        shot::x_of(self.coords, shot)
    }

    // The y of a shot.
    pub fn y_of(self, shot: usize) -> u16
        requires { shot < shot_count self.coords.now }
        ensures { result ≡ y_at self.entry.coords.now shot }
    {
        shot::y_of(self.coords, shot)
    }

    // The z of a shot.
    pub fn z_of(self, shot: usize) -> u16
        requires { shot < shot_count self.coords.now }
        ensures { result ≡ z_at self.entry.coords.now shot }
    {
        shot::z_of(self.coords, shot)
    }

    // The edge of a shot: that of its list.
    pub fn edge_of(self, shot: usize) -> u16
        requires { shot < shot_count self.coords.now }
        ensures { result ≡ edge_at self.entry.edge self.entry.coords.now shot }
    {
        shot::edge_of(self.edge, self.coords, shot)
    }

    // The first shot that leaves the field, or the number of shots.
    fn first_leaving(self) -> usize
        ensures { result ≡ first_leaving self.entry.field (shots (seen self.entry)) }
    {
        let n = self.count();
        for i in 0..n {
            if shot_leaves(
                self.field,
                self.edge_of(i),
                self.x_of(i),
                self.y_of(i),
                self.z_of(i),
            ) {
                return i;
            }
        }
        n
    }

    // Checks the settings and how many coordinates there are, by refusals 1, 2, 6, 7 and 8 in this order.
    pub fn check_settings(self) -> Result<(), Refusal>
        ensures { Checks (setting_tests (seen self.entry)) result }
    {
        if self.coords.len() % 3 != 0 {
            return Err(Refusal::BrokenShot);
        }
        if 4096 < self.count() {
            return Err(Refusal::TooManyShots { at: 0 });
        }
        if is_outside(1, 1024, self.field) {
            return Err(Refusal::FieldRange);
        }
        if is_outside(1, self.field, self.edge) {
            return Err(Refusal::EdgeRange);
        }
        if is_outside(1, 64, self.grid) {
            return Err(Refusal::GridRange);
        }
        if self.field % self.grid != 0 {
            return Err(Refusal::GridRange);
        }
        Ok(())
    }

    // Checks that the shots stay in the field, by refusal 9.
    pub fn check_shots(self) -> Result<(), Refusal>
        ensures { Checks (shot_tests self.entry.field (shots (seen self.entry))) result }
    {
        let shot = self.first_leaving();
        if shot < self.count() {
            return Err(Refusal::OutsideField { shot });
        }
        Ok(())
    }

    // Checks a list and its settings, by refusals 1, 2, 6, 7, 8 and 9 in this order.
    pub fn check(self) -> Result<(), Refusal>
        ensures { Checks (tests (seen self.entry)) result }
    {
        self.check_settings()?;
        self.check_shots()
    }

    // The list as one that the checks accept, or the refusal.
    pub fn valid(self) -> Result<ValidJob<'a>, Refusal>
        ensures { MatchResult result
            (λ v. (v.job ≡ self.entry) × (checked (seen self.entry) ≡ Ok tt))
            (λ r. checked (seen self.entry) ≡ Err r) }
    {
        self.check()?;
        Ok(ValidJob { job: self })
    }
}
