// The sequences of a table, ready to be followed: each names only sequences with lower numbers, and its node tells of it.
ghost use Rattle.std.specs.Prelude.{◌≡◌};
ghost use Rattle.table.specs.Rows.{rows_of};
ghost use Rattle.automaton.specs.Nodes.{entries, lower as lower_of, AllLower, FactsBelow};
ghost use Rattle.automaton.specs.Trees.{named_sequences};

use crate::node::{Node, describe};
use psl::entry::Sequence;
use table::table::Table;

// A node for each sequence.
// Stays: operands are numbers of nodes and no boxes, since a library has no heap.
pub struct Automata {
    nodes: Table<Node, 256>,
    ghost lower: { AllLower (entries (rows_of nodes)) },
    ghost facts: { FactsBelow (named_sequences (entries (rows_of nodes))) (rows_of nodes) },
}

// Whether the sequences that an entry names have numbers below `n`.
// Stays beside the question that a property file is asked: that one asks of conditions too, of which a table that is followed may name any.
fn is_lower(n: usize, entry: Sequence) -> bool
    ensures value { result ≡ lower_of n entry }
{
    match entry {
        Sequence::Condition(_) | Sequence::Empty => true,
        Sequence::Concat(a, b)
        | Sequence::Fusion(a, b)
        | Sequence::Either(a, b)
        | Sequence::Both(a, b) => ((a as usize) < n) & ((b as usize) < n),
        Sequence::Star(a) | Sequence::At(a, _) => (a as usize) < n,
    }
}

impl Automata {
    ghost use Rattle.std.specs.Prelude.{◌<◌, ◌≤◌, ◌++◌, [], ◌∷◌, ◌&&◌, nat_lt, true, false, length, slice_index_or, take};
    ghost use Rattle.psl.specs.declared.entry.Sequence.TheVariants.{Condition as Is};
    ghost use Rattle.automaton.specs.Automata.{entries_of, Known};

    // The sequences of the table, up to the first that names itself or a later one, and 256 at most.
    #[tactic(auto, using(crate::proofs::Read::few_entries), unfolding(crate::specs::Automata::entries_of))]
    pub fn new(table: &[Sequence]) -> Automata
        ensures front { entries_of result ≡ take (length (entries_of result)) table.now }
        ensures lower { AllLower (entries_of result) }
        ensures few { length (entries_of result) ≤ 256 }
        ensures stops { let n = length (entries_of result) in n < 256 → n < length table.now → lower_of n (slice_index_or table.now n (Is 0)) ≡ false }
        ensures items { length table.now ≤ 256 → AllLower table.now → entries_of result ≡ table.now }
    {
        let mut all = Automata {
            nodes: Table::new(Node::new(Sequence::Empty, 0, 0, true, false)),
        };
        for entry in table {
            if !all.add(*entry) {
                break;
            }
        }
        all
    }

    // Adds the sequence if it names only sequences that are there, and there is room; tells whether it did.
    fn add(&mut self, entry: Sequence) -> bool
        ensures value { result ≡ (lower_of (length (entries_of self.old)) entry && nat_lt (length (entries_of self.old)) 256) }
        ensures added { result ≡ true → entries_of self.new ≡ entries_of self.old ++ entry ∷ [] }
        ensures same { result ≡ false → self.new ≡ self.old }
    {
        let nodes = self.nodes.as_slice();
        if !is_lower(nodes.len(), entry) {
            return false;
        }
        let node = describe(nodes, entry);
        self.nodes.push(node).is_ok()
    }

    // Sequence `i`, which is there.
    #[tactic(auto, using(crate::proofs::Read::length_entries, crate::proofs::Read::shape_at), unfolding(crate::specs::Automata::entries_of))]
    pub(crate) fn node(&self, i: u16) -> Node
        requires { i < length (entries_of self.now) }
        ensures { Known (entries_of self.now) i result }
    {
        self.nodes.as_slice()[i as usize]
    }
}
