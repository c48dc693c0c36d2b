// Whether two texts have the same bytes: for words that people type and for the names in a file. specs/Same.antt says what that is.
// Stands on nothing.
#![tactic(auto)]

ghost use Rattle.std.specs.Prelude.{◌≡◌};
ghost use Rattle.text_same.specs.Same.{same};

// Whether two slices hold the same bytes.
// Kept so: the edit `beginning_for_the_whole` is of this function, and its contract says `==` by `same`, which theorems speak of.
pub fn same_bytes(a: &[u8], b: &[u8]) -> bool
    ensures { result ≡ same a.now b.now }
{
    a == b
}
