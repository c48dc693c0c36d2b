// The ten weights of every pattern in one local table, sixteen places a pattern, which a caller makes once and lends: so a corner reads its
// ten weights side by side. Stands on `lattice_tables` and `lattice`.
//
// `t` is the lent table, and `p` or `q` a pattern's byte.
#![tactic(auto)]

ghost use Rattle.std.specs.Prelude.{◌≡◌, ◌+◌, ◌<◌, length};
ghost use Rattle.lattice.specs.Pattern.{of_byte};
ghost use Rattle.lattice_tables.specs.Tables.{weight_of};
ghost use Rattle.lattice_weights.specs.Packed.{place, FirstWeights, Packed};

use lattice_tables::{Weight, table};

// Puts the table of a weight beside those of the weights before it.
fn copy_in(t: &mut [i8], which: Weight)
    requires { FirstWeights (place which) t.old }
    ensures { FirstWeights (place which + 1) t.new }
{
    for (q, entry) in table(which).iter().enumerate() {
        t[16 * q + which as usize] = *entry;
    }
}

// Puts the ten weights of every pattern into a table of 4,096 entries, whatever they were.
pub fn pack(t: &mut [i8])
    requires { length t.old ≡ 4096 }
    ensures { Packed t.new }
{
    for which in Weight::ALL {
        copy_in(t, which);
    }
}

// A weight of pattern p.
pub fn weight_at(t: &[i8], p: u8, which: Weight) -> i8
    requires { Packed t.now }
    ensures { result ≡ weight_of which (of_byte p) }
{
    t[16 * usize::from(p) + which as usize]
}
