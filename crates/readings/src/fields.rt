// A line field by field.
ghost use Rattle.std.specs.Prelude.{◌≡◌, ◌∷◌, [], false, MatchOption};
ghost use Rattle.readings.specs.Texts.{fields_of, text, three};

use crate::piece::Piece;

// The fields of a line, if it has three; three pieces in an array under an `Option` were tried, and get no proof.
pub(crate) fn three_fields(line: Piece<'_>) -> Option<(Piece<'_>, Piece<'_>, Piece<'_>)>
    ensures { MatchOption result (three (fields_of (text line.entry)) ≡ false) (λ f. fields_of (text line.entry) ≡ text f.0 ∷ text f.1 ∷ text f.2 ∷ []) }
{
    let (first, rest) = line.split_once(b';')?;
    let (second, third) = rest.split_once(b';')?;
    if third.split_once(b';').is_some() {
        return None;
    }
    Some((first, second, third))
}
