// What is known of a sequence once it is read: the number of its states, and what it does with the empty word and with tops.
ghost use Rattle.std.specs.Prelude.{◌≡◌, ◌+◌, ◌*◌, true, ◌&&◌, List, length};
ghost use Rattle.psl.specs.Syntax as tree;
ghost use Rattle.automaton.specs.Nodes.{capped, Facts, FactsBelow, lower};
ghost use Rattle.automaton.specs.Trees.{named_sequence_of};

use psl::entry::Sequence;

// More states than any accepted sequence has; as many stand for more.
const TOO_MANY: usize = 241;

// A sequence, how many states it has free of a clock and under one, whether it matches the empty word, and whether it matches some tops.
#[derive(Clone, Copy)]
pub(crate) struct Node {
    pub(crate) entry: Sequence,
    pub(crate) free: usize,
    pub(crate) clocked: usize,
    pub(crate) null: bool,
    pub(crate) live: bool,
}

impl Node {
    // A node with these numbers of states, as far as 241.
    pub(crate) fn new(entry: Sequence, free: usize, clocked: usize, null: bool, live: bool) -> Node
        ensures value { result ≡ record { entry = entry; free = capped free; clocked = capped clocked; null = null; live = live } }
    {
        Node {
            entry,
            free: free.min(TOO_MANY),
            clocked: clocked.min(TOO_MANY),
            null,
            live,
        }
    }
}

// r;s, r:s or r|s: the states of both.
fn sum(entry: Sequence, x: Node, y: Node, null: bool, live: bool) -> Node
    ensures value { result ≡ record { entry = entry; free = capped (x.free + y.free); clocked = capped (x.clocked + y.clocked); null = null; live = live } }
{
    let free = x.free.saturating_add(y.free);
    Node::new(entry, free, x.clocked.saturating_add(y.clocked), null, live)
}

// r&&s: a state for each pair of states.
fn product(entry: Sequence, x: Node, y: Node) -> Node
    ensures value { result ≡ record { entry = entry; free = capped (x.free * y.free); clocked = capped (x.clocked * y.clocked); null = x.null && y.null; live = x.live && y.live } }
{
    let free = x.free.saturating_mul(y.free);
    let clocked = x.clocked.saturating_mul(y.clocked);
    Node::new(entry, free, clocked, x.null & y.null, x.live & y.live)
}

// The node of an entry that names only some of these nodes.
pub(crate) fn describe(nodes: &[Node], entry: Sequence) -> Node
    requires lower { lower (length nodes.now) entry ≡ true }
    ensures entry { result.entry ≡ entry }
    ensures facts { (rs : List tree.Sequence) → FactsBelow rs nodes.now → Facts (named_sequence_of rs entry) result }
{
    match entry {
        Sequence::Condition(_) => Node::new(entry, 1, 2, false, true),
        Sequence::Concat(a, b) => {
            let (x, y) = (nodes[a as usize], nodes[b as usize]);
            let live = (x.null & y.live) | (x.live & (y.null | y.live));
            sum(entry, x, y, x.null & y.null, live)
        }
        Sequence::Fusion(a, b) => {
            let (x, y) = (nodes[a as usize], nodes[b as usize]);
            sum(entry, x, y, false, x.live & y.live)
        }
        Sequence::Either(a, b) => {
            let (x, y) = (nodes[a as usize], nodes[b as usize]);
            sum(entry, x, y, x.null | y.null, x.live | y.live)
        }
        Sequence::Both(a, b) => product(entry, nodes[a as usize], nodes[b as usize]),
        Sequence::Empty => Node::new(entry, 0, 0, true, false),
        Sequence::Star(a) => {
            let x = nodes[a as usize];
            Node::new(entry, x.free, x.clocked, true, x.live)
        }
        Sequence::At(a, _) => {
            let x = nodes[a as usize];
            Node::new(entry, x.clocked, x.clocked, x.null, x.live)
        }
    }
}
