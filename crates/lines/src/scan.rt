// Looking for a byte.
ghost use Rattle.std.specs.Prelude.{◌≡◌, ◌==◌, position};

// Where it first stands.
pub(crate) fn first(byte: u8, bytes: &[u8]) -> Option<usize>
    ensures { result ≡ position (λ b. b == byte) bytes.now }
{
    bytes.iter().position(|b| *b == byte)
}
