// One flag of a row, worked out from those of lower conditions.
ghost use Rattle.std.specs.Prelude.{◌≡◌};
ghost use Rattle.letter.specs.Full.{means};
ghost use Rattle.psl.specs.Letter.{satisfies};
ghost use Rattle.psl.specs.Syntax.{falsity};
ghost use Rattle.truth.specs.Cell.{worked};

use crate::row;
use letter::full::Full;
use letter::kind::Kind;
use psl::entry::Condition;

// Whether the letter satisfies the condition false: top does.
pub(crate) fn is_top<K: Kind>(letter: &Full<K>) -> bool
    ensures value { result ≡ satisfies (means K.Kind.atoms K.Kind.mirrored letter.now) falsity }
{
    matches!(letter, Full::Top)
}

// Whether the letter satisfies the condition, from its row and its mirror's row of the conditions before it.
pub(crate) fn cell<K: Kind>(letter: &Full<K>, term: Condition, own: &[u8], other: &[u8]) -> bool
    ensures value { result ≡ worked (means K.Kind.atoms K.Kind.mirrored letter.now) own.now other.now term }
{
    match term {
        Condition::True => !matches!(letter, Full::Bottom),
        Condition::False => is_top(letter),
        Condition::Atom(n) => letter.satisfies(n),
        Condition::Not(a) => !row::tells(other, a),
        Condition::And(a, b) => row::tells(own, a) & row::tells(own, b),
    }
}
