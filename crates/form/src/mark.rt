// Marks of the pairs of sequences that are met.
ghost use Rattle.std.specs.Prelude.{◌≡◌, ℕ, ◌+◌, ◌*◌, ◌<◌, ◌≤◌, length, slice_index_or};
ghost use Rattle.psl.specs.declared.entry.Sequence.TheVariants.{Condition as Is};
ghost use Rattle.property.specs.Place.{conditions_of, sequences_of};
ghost use Rattle.form.specs.Grid.{cells_of};
ghost use Rattle.form.specs.Met.{with_operands, meet_sequences};

use crate::entries::sequence_at;
use crate::grid::Grid;
use crate::pair::Pair;
use property::place::Property;
use psl::entry::Sequence;

// Marks the pairs of the operands of a pair.
#[tactic(auto, using(property::proofs::Held::few))]
fn mark_sequence(p: &Property, met: &mut Grid<bool>, pair: Pair)
    requires there { pair.entry < length (sequences_of p.now) }
    ensures { cells_of met.new ≡ with_operands (slice_index_or (sequences_of p.now) pair.entry (Is 0)) pair.clock (cells_of met.old) }
{
    match sequence_at(p, pair.entry) {
        Sequence::Condition(_) | Sequence::Empty => {}
        Sequence::Concat(a, b)
        | Sequence::Fusion(a, b)
        | Sequence::Either(a, b)
        | Sequence::Both(a, b) => {
            met.put(pair.with(a), true);
            met.put(pair.with(b), true);
        }
        Sequence::Star(a) => met.put(pair.with(a), true),
        Sequence::At(a, d) => met.put(Pair { entry: a, clock: d }, true),
    }
}

// Marks, with each marked pair, those of its operands.
pub(crate) fn mark_sequences(p: &Property, met: &mut Grid<bool>)
    ensures { cells_of met.new ≡ meet_sequences (sequences_of p.now) (64 * length (sequences_of p.now)) (cells_of met.old) }
{
    // Stays a loop over keys, whose order is that of the definitions: two loops, over entries and clocks, would state twice what is marked so far.
    for k in (0..64 * p.sequence_count()).rev() {
        if met.at(k) {
            let pair = Pair::of(k);
            mark_sequence(p, met, pair);
        }
    }
}
