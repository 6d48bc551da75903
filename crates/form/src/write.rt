// The images of the met pairs of sequences.
ghost use Rattle.std.specs.Prelude.{◌≡◌, ℕ, ◌+◌, ◌*◌, ◌<◌, ◌≤◌, true, length, slice_index, slice_index_or};
ghost use Rattle.psl.specs.declared.entry.Sequence.TheVariants.{Condition as Is};
ghost use Rattle.property.specs.Place.{conditions_of, sequences_of};
ghost use Rattle.form.specs.Draft.{conditions_in, sequences_in, Grows};
ghost use Rattle.form.specs.Grid.{cells_of};
ghost use Rattle.form.specs.Pairs.{sequence_adds_conditions, sequence_adds_sequences, total};
ghost use Rattle.form.specs.SequenceImages.{Carries, ForOperands, SequencePlaced, WroteSequence, SequencesClosed, SequencesStand};

use crate::draft::Draft;
use crate::entries::sequence_at;
use crate::grid::Grid;
use crate::pair::Pair;
use property::place::Property;
use psl::entry::Sequence;

// Adds the image of a pair.
// Stays: property and draft are two, here and below, since the draft changes at each step, and a struct would owe anew each time that it carries the property.
#[tactic(auto, using(property::proofs::Held::few))]
pub(crate) fn write_sequence(p: &Property, d: &mut Draft, places: &Grid<u16>, pair: Pair) -> u16
    requires carries { Carries p.now d.old }
    requires there { pair.entry < length (sequences_of p.now) }
    requires clock { pair.clock < length (conditions_of p.now) }
    requires ready { ForOperands (SequencePlaced p.now d.old (cells_of places.now)) (slice_index_or (sequences_of p.now) pair.entry (Is 0)) pair.clock }
    requires room { (length (conditions_in d.old) + sequence_adds_conditions (slice_index_or (sequences_of p.now) pair.entry (Is 0)) ≤ 256) × (length (sequences_in d.old) + sequence_adds_sequences (slice_index_or (sequences_of p.now) pair.entry (Is 0)) ≤ 256) }
    ensures { WroteSequence p.now pair.entry pair.clock d.old d.new result }
{
    match sequence_at(p, pair.entry) {
        Sequence::Condition(b) => d.tick(pair.clock, b),
        Sequence::Concat(a, b) => d.add_sequence(Sequence::Concat(
            places.get(pair.with(a)),
            places.get(pair.with(b)),
        )),
        Sequence::Fusion(a, b) => d.add_sequence(Sequence::Fusion(
            places.get(pair.with(a)),
            places.get(pair.with(b)),
        )),
        Sequence::Either(a, b) => d.add_sequence(Sequence::Either(
            places.get(pair.with(a)),
            places.get(pair.with(b)),
        )),
        Sequence::Both(a, b) => d.add_sequence(Sequence::Both(
            places.get(pair.with(a)),
            places.get(pair.with(b)),
        )),
        Sequence::Empty => d.add_sequence(Sequence::Empty),
        Sequence::Star(a) => d.add_sequence(Sequence::Star(places.get(pair.with(a)))),
        Sequence::At(a, e) => places.get(Pair { entry: a, clock: e }),
    }
}

// Adds the image of each marked pair of a sequence and a clock.
pub(crate) fn write_sequences(p: &Property, met: &Grid<bool>, d: &mut Draft, places: &mut Grid<u16>)
    requires carries { Carries p.now d.old }
    requires closed { SequencesClosed p.now (cells_of met.now) }
    requires room { (length (conditions_in d.old) + total (Is 0) sequence_adds_conditions (sequences_of p.now) (cells_of met.now) (64 * length (sequences_of p.now)) ≤ 256)
        × (length (sequences_in d.old) + total (Is 0) sequence_adds_sequences (sequences_of p.now) (cells_of met.now) (64 * length (sequences_of p.now)) ≤ 256) }
    ensures { SequencesStand p.now (cells_of met.now) d.old d.new (cells_of places.new) (64 * length (sequences_of p.now)) }
{
    // Stays a loop over keys, whose order is that of the definitions: two loops, over entries and clocks, would state twice what is written so far.
    for k in 0..64 * p.sequence_count() {
        if met.at(k) {
            let pair = Pair::of(k);
            let r = write_sequence(p, d, &*places, pair);
            places.put(pair, r);
        }
    }
}
