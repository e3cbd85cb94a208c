// A part of a file.
ghost use Rattle.std.specs.Prelude.{◌≡◌, ◌∷◌, ◌+◌, ◌<◌, ◌^◌, ◌==◌, Bool, MatchOption, length, position};

// Some bytes of a file, and the place of the first, counted from 0.
#[derive(Clone, Copy)]
pub struct Piece<'a> {
    pub place: usize,
    pub bytes: &'a [u8],
    pub ghost within: { place + length bytes.now < 2 ^ 64 },
}

impl<'a> Piece<'a> {
    ghost use Rattle.readings.specs.Texts.{cut_up, text, uncut};

    // What stands before and after the first `stop`, if there is one.
    pub(crate) fn split_once(self, stop: u8) -> Option<(Piece<'a>, Piece<'a>)>
        ensures { (blank : Bool) → MatchOption result (cut_up stop blank (text self.entry) ≡ uncut blank (text self.entry)) (λ p. cut_up stop blank (text self.entry) ≡ text p.0 ∷ cut_up stop blank (text p.1)) }
    {
        let at = find(self.bytes, stop)?;
        let front = Piece {
            place: self.place,
            bytes: &self.bytes[..at],
        };
        let rest = Piece {
            place: self.place + at + 1,
            bytes: &self.bytes[at + 1..],
        };
        Some((front, rest))
    }
}

// How many bytes stand before the first `stop`, if there is one.
fn find(bytes: &[u8], stop: u8) -> Option<usize>
    ensures { result ≡ position (λ c. c == stop) bytes.now }
{
    bytes.iter().position(|byte| *byte == stop)
}
