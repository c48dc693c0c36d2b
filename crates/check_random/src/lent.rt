// The slices that the calls are lent.
ghost use Rattle.std.specs.Prelude.{◌≡◌, length};

// Places for 60 shots.
pub(crate) fn places() -> [u16; 180]
    ensures { 180 ≡ length result }
{
    [0; 180]
}

// Entries for an index of 60 shots in 512 grid cells, or of 11 shots in 2,744, that belong to all of them.
pub(crate) fn entries() -> [u32; 33000]
    ensures { 33000 ≡ length result }
{
    [0; 33000]
}

// Bytes for the listing of 5,000 corners.
pub(crate) fn bytes() -> [u8; 35000]
    ensures { 35000 ≡ length result }
{
    [0; 35000]
}
