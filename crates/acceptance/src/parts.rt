// The front of a byte slice.
ghost use Rattle.std.specs.Prelude.{◌≤◌, ◌≡◌, length, take};

// So many bytes of the front.
pub fn front(bytes: &[u8], count: usize) -> &[u8]
    requires { count ≤ length bytes.now }
    ensures { result.now ≡ take count bytes.now }
{
    &bytes[..count]
}
