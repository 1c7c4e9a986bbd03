// An index of the edges, made once for many keys, or for the many steps of a repeat: an edge is found by its node and its
// event without a search of all edges. A node's edges for one key are on one of 1,024 chains, and its edges whose event is no
// key are on one of 256 others. An edge has a link to the next on its chain, and behind the 2,048 links of the edges stand the
// links to the first edge of each chain. Every value of the links leads somewhere, and the search ends on all of them.
ghost use Rattle.std.specs.Prelude.{◌≡◌, ◌<◌};
ghost use Rattle.keyparts.specs.View.{edge_words, chain_of, linked_place, link_at, Indexed};

use crate::graph::Graph;

#[repr(C)]
#[derive(Clone, Copy)]
pub struct Index {
    pub links: [u16; Index::LINKS],
}

// A graph and links that lead to its edges, lent together. Any links will do: what is found is what they lead to, and those of
// an index of the graph lead to what a search of all edges finds.
#[derive(Clone, Copy)]
pub struct IndexedGraph<'a> {
    pub graph: &'a Graph,
    pub index: &'a Index,
}

// The keys of edges whose event is a key are below this.
pub(crate) const KEYS: u64 = 65536 * 65536;

// Node and key together are multiplied with this odd number, so that keys which differ by a power of two, keys in a row and the
// same keys in all modes spread over the chains. Of the lower 32 bits of the product the ten highest tell the chain, and the 22
// below them do not.
const FACTOR: u64 = 1607379325;

const BELOW: u64 = 4194304;

// Which link leads to the first edge of the chain that edges with this key are on.
#[tactic(auto, unfolding(crate::specs::View::chain_of))]
pub(crate) fn chain_of(key: u64) -> usize
    ensures { (result ≡ chain_of key) × (result < 3328) }
{
    let chain = if key < KEYS {
        key * FACTOR / BELOW % (Index::KEY_CHAINS as u64)
    } else {
        Index::KEY_CHAINS as u64 + key % (Index::OTHER_CHAINS as u64)
    };
    Graph::EDGES as usize + (chain as usize)
}

impl Index {
    pub const KEY_CHAINS: u16 = 1024;

    pub const OTHER_CHAINS: u16 = 256;

    // A link for each edge, and one for each chain.
    pub const LINKS: usize = Graph::EDGES as usize
        + Index::KEY_CHAINS as usize
        + Index::OTHER_CHAINS as usize;

    // A link to a place where no edge is ends a chain. Both bytes of this one are alike, so all links are filled at once.
    const NONE: u16 = 65535;

    // Goes from the last edge to the first, so that each chain begins with its first edge.
    pub fn new(graph: &Graph) -> Index
        ensures { Indexed (edge_words graph.now) result.links }
    {
        let mut index = Index {
            links: [Index::NONE; Index::LINKS],
        };
        for (place, word) in graph.edge_words().iter().enumerate().rev() {
            index.link(place, word.key());
        }
        index
    }

    // The edge at this place goes before the chain of its key.
    #[tactic(auto, unfolding(crate::specs::View::link_at), using(crate::proofs::Links::link_is))]
    pub fn link(&mut self, place: usize, key: u64)
        ensures { self.new.links ≡ link_at self.old.links place key }
    {
        if Graph::EDGES as usize <= place {
            return;
        }
        let chain = chain_of(key);
        self.links[place] = self.links[chain];
        self.links[chain] = place as u16;
    }
}

impl<'a> IndexedGraph<'a> {
    // The place of the edge with this key, or the number of edges. As many steps as there may be edges end the search on links
    // that lead in a circle.
    #[tactic(auto, using(crate::proofs::Links::chain_end, crate::proofs::Links::chain_out, crate::proofs::Links::chain_hit, crate::proofs::Links::chain_miss), unfolding(crate::specs::View::linked_place))]
    pub fn place(self, key: u64) -> usize
        ensures { result ≡ linked_place (edge_words self.entry.graph.now) self.entry.index.now.links key }
    {
        let words = self.graph.edge_words();
        let mut at = self.index.links[chain_of(key)] as usize;
        for _ in 0..Graph::EDGES {
            if words.len() <= at {
                return words.len();
            }
            if words[at].key() == key {
                return at;
            }
            at = self.index.links[at] as usize;
        }
        words.len()
    }
}
