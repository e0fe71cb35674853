// The value of an immediate.
ghost use Rattle.std.specs.Prelude.{◌≡◌};
ghost use Rattle.decoder.specs.Immediate.{value_of};

// The byte rotated right by twice the rotation, of which four bits count.
pub fn value(rotation: u32, byte: u32) -> u32
    ensures { result ≡ value_of rotation byte }
{
    byte.rotate_right(2 * (rotation % 16))
}
