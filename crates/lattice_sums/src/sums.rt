// The corner sums, taken point after point in signed 64-bit numbers: docs/SCOPE.md, 'Corner points'.
// Single terms may be negative; the sums over all corners of a solid are its totals, which are not.
ghost use Rattle.std.specs.Prelude.{◌≡◌, ◌+◌, ◌*◌, ◌≤◌, pos, nat_abs, ◌+ℤ◌, ◌*ℤ◌, []};
ghost use Rattle.lattice.specs.Pattern.{of_byte, volume_term, area_term};
ghost use Rattle.lattice.specs.Figures.{largest_term};
ghost use Rattle.lattice_tables.specs.Tables.{weight_of};
ghost use Rattle.lattice_sums.specs.CornerSums.{sums_of, added, RoomFor, Whole, SomeTotals};
ghost use Rattle.lattice_weights.specs.Packed.{Packed};

use lattice_tables::Weight;
use lattice_weights::weight_at;

// The four sums so far, and how many corners they have.
#[derive(Clone, Copy, Debug, Default, PartialEq, Eq)]
pub struct CornerSums {
    pub volume: i64,
    pub area: i64,
    pub edge: i64,
    pub inner: i64,
    pub corners: usize,
}

// The totals of a job, and its corner count.
#[derive(Clone, Copy, Debug, Default, PartialEq, Eq)]
pub struct Totals {
    pub volume: u64,
    pub area: u64,
    pub edge: u64,
    pub inner: u64,
    pub corners: usize,
}

// A corner: where it lies in a field of at most 1,024, and its pattern's byte. The weights that its functions are lent are packed.
#[derive(Clone, Copy)]
struct Corner {
    x: u16,
    y: u16,
    z: u16,
    pattern: u8,
    ghost x_in: { x ≤ 1024 },
    ghost y_in: { y ≤ 1024 },
    ghost z_in: { z ≤ 1024 },
}

impl Corner {
    // n times a weight of the corner.
    fn weighed(self, weights: &[i8], n: u64, which: Weight) -> i64
        requires { (n ≤ 1073741824) × Packed weights.now }
        ensures product { result ≡ pos n *ℤ weight_of which (of_byte self.pattern) }
        ensures bound { nat_abs result ≤ n * 4 }
    {
        n as i64 * i64::from(weight_at(weights, self.pattern, which))
    }

    // What the corner adds to the volume: x·y·z·w.
    fn volume_term(self, weights: &[i8]) -> i64
        requires { Packed weights.now }
        ensures term { result ≡ volume_term self.x self.y self.z (of_byte self.pattern) }
        ensures bound { nat_abs result ≤ largest_term }
    {
        let (x, y, z) = (u64::from(self.x), u64::from(self.y), u64::from(self.z));
        self.weighed(weights, x * y * z, Weight::W)
    }

    // What it adds to the area: y·z·ax + x·z·ay + x·y·az.
    fn area_term(self, weights: &[i8]) -> i64
        requires { Packed weights.now }
        ensures term { result ≡ area_term self.x self.y self.z (of_byte self.pattern) }
        ensures bound { nat_abs result ≤ largest_term }
    {
        let (x, y, z) = (u64::from(self.x), u64::from(self.y), u64::from(self.z));
        self.weighed(weights, y * z, Weight::Ax)
            + self.weighed(weights, x * z, Weight::Ay)
            + self.weighed(weights, x * y, Weight::Az)
    }

    // What it adds to an outer or inner length: x, y and z, each times the length's weight along that axis.
    fn length_term(self, weights: &[i8], on_x: Weight, on_y: Weight, on_z: Weight) -> i64
        requires { Packed weights.now }
        ensures term { result ≡ pos self.x *ℤ weight_of on_x (of_byte self.pattern)
            +ℤ pos self.y *ℤ weight_of on_y (of_byte self.pattern)
            +ℤ pos self.z *ℤ weight_of on_z (of_byte self.pattern) }
        ensures bound { nat_abs result ≤ largest_term }
    {
        self.weighed(weights, u64::from(self.x), on_x)
            + self.weighed(weights, u64::from(self.y), on_y)
            + self.weighed(weights, u64::from(self.z), on_z)
    }
}

impl CornerSums {
    // The sums of no corner.
    pub fn new() -> CornerSums
        ensures { result ≡ sums_of [] }
    {
        CornerSums::default()
    }

    // The sums with one corner more, of a field of at most 1,024. The weights are lent: `lattice_weights::pack` puts them together.
    pub fn add(self, weights: &[i8], x: u16, y: u16, z: u16, p: u8) -> CornerSums
        requires { (x ≤ 1024) × (y ≤ 1024) × (z ≤ 1024) × RoomFor 1 self × Packed weights.now }
        ensures { result ≡ added self (record { x = x; y = y; z = z; pattern = p }) }
    {
        let corner = Corner {
            x,
            y,
            z,
            pattern: p,
        };
        CornerSums {
            volume: self.volume + corner.volume_term(weights),
            area: self.area + corner.area_term(weights),
            edge: self.edge + corner.length_term(weights, Weight::Ex, Weight::Ey, Weight::Ez),
            inner: self.inner + corner.length_term(weights, Weight::Ix, Weight::Iy, Weight::Iz),
            corners: self.corners + 1,
        }
    }

    // The totals that the sums come to, where there are such: none of the sums is negative then.
    pub fn totals(self) -> Totals
        requires { SomeTotals self }
        ensures { Whole self result }
    {
        Totals {
            volume: self.volume as u64,
            area: self.area as u64,
            edge: self.edge as u64,
            inner: self.inner as u64,
            corners: self.corners,
        }
    }
}
