// Lent bytes that say something.
ghost use Rattle.std.specs.Prelude.{◌≡◌, true};
ghost use Rattle.layout.specs.Bytes.{well_formed};

use layout::offsets::SIZE;

// The length is right, and each byte of a state, a flag or a place has a meaning.
#[derive(Clone, Copy)]
pub struct Formed<'a> {
    pub bytes: &'a [u8; SIZE],
    ghost formed: { well_formed bytes.now ≡ true },
}
