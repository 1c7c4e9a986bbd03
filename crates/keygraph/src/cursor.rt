// A cursor: where the making of a path stands in a graph that is lent, and how edges are found there. Each step goes on with the
// same graph, and is told by the rules' own (`Leads`): where it is accepted, the cursor is what that comes to, and where it is
// refused, by the same number, only the refusal counts. So steps chained by `?` are the rules' chain.
ghost use Rattle.std.specs.Prelude.{◌≡◌, ◌<◌, false};
ghost use Rattle.rules.specs.Basics as b;
ghost use Rattle.rules.specs.Graph as g;
ghost use Rattle.rules.specs.Values as v;
ghost use Rattle.keyvalues.specs.View.{event_of, maybe_of, node_in, told};
ghost use Rattle.keyparts.specs.View.{graph_of};

use keyparts::graph::Graph;
use keyparts::search::{Scan, Search};
use keyvalues::event::EdgeEvent;
use keyvalues::node::NodeWords;
use keyvalues::refusal::Refusal;
use keyvalues::tables::TableWords;

// The node come to, and whether a Fallthrough edge is owed from there.
#[derive(Clone, Copy)]
pub(crate) struct Place {
    pub prev: u16,
    pub owed: bool,
}

// A mode that exists.
#[derive(Clone, Copy)]
pub(crate) struct Mode {
    pub id: u16,
    ghost bound: { id < 16 },
}

impl TryFrom<u16> for Mode {
    type Error = Refusal;

    ghost try_from_gives = { λ id r. told (λ m. m.id) r ≡ b.unless (v.is_mode id) 1 (b.accept id) };

    fn try_from(id: u16) -> Result<Mode, Refusal> {
        if TableWords::MODES <= id {
            return Err(Refusal::OutOfRange);
        }
        Ok(Mode { id })
    }
}

#[derive(Drop)]
pub(crate) struct Cursor<'a, S: Search> {
    pub graph: &'a mut Graph,
    pub search: S,
    pub mode: Mode,
    pub at: Place,
    ghost knows: { S.Knows graph.now search } by { S.one graph.now search },
}

impl<'a, S: Search> Cursor<'a, S> {
    ghost use Rattle.keygraph.specs.Making.{Leads, Makes, upserted, paid};

    // An edge between any two nodes.
    #[tactic(auto, unfolding(rules::specs::Graph::edge_between))]
    pub(crate) fn add_edge(&mut self, from: u16, to: u16, event: EdgeEvent) -> Result<(), Refusal>
        ensures { Leads (g.edge_between from to (event_of event)) self.old result self.new }
    {
        self.graph.add_edge_by(&mut self.search, from, to, event)
    }

    // An edge from where the cursor stands.
    #[tactic(auto, unfolding(rules::specs::Graph::edge_to, rules::specs::Graph::edge_between))]
    pub(crate) fn edge_to(&mut self, to: u16, event: EdgeEvent) -> Result<(), Refusal>
        ensures { Leads (g.edge_to to (event_of event)) self.old result self.new }
    {
        self.add_edge(self.at.prev, to, event)
    }

    pub(crate) fn fall_between(&mut self, from: u16, to: u16) -> Result<(), Refusal>
        ensures { Leads (g.edge_between from to v.Fallthrough) self.old result self.new }
    {
        self.add_edge(from, to, EdgeEvent::Fallthrough)
    }

    pub(crate) fn fall_to(&mut self, to: u16) -> Result<(), Refusal>
        ensures { Leads (g.edge_to to v.Fallthrough) self.old result self.new }
    {
        self.edge_to(to, EdgeEvent::Fallthrough)
    }

    // The Fallthrough edge that is owed, if one is.
    #[tactic(auto, unfolding(crate::specs::Making::paid))]
    pub(crate) fn pay(&mut self, to: u16) -> Result<(), Refusal>
        ensures { Leads (paid to) self.old result self.new }
    {
        if self.at.owed {
            return self.fall_to(to);
        }
        Ok(())
    }

    // The Fallthrough edge to the end, if there is one.
    #[tactic(auto, unfolding(rules::specs::Graph::map_fall))]
    pub(crate) fn map_fall(&mut self, end: Option<u16>) -> Result<(), Refusal>
        ensures { Leads (g.map_fall (maybe_of end)) self.old result self.new }
    {
        match end {
            Some(n) => self.fall_to(n),
            None => Ok(()),
        }
    }

    // A node more.
    #[tactic(auto, unfolding(rules::specs::Graph::node_for))]
    pub(crate) fn add_node(&mut self, words: NodeWords) -> Result<u16, Refusal>
        ensures { Makes (g.node_for (node_in words).mode (node_in words).action) self.old result self.new }
    {
        self.graph.add_node(words)
    }

    pub(crate) fn add_empty(&mut self) -> Result<u16, Refusal>
        ensures { Makes (g.node_for self.old.mode.id g.Empty) self.old result self.new }
    {
        self.add_node(NodeWords::empty(self.mode.id))
    }

    // The end of the cursor's edge for the event, or else a node more.
    #[tactic(auto, unfolding(crate::specs::Making::upserted, rules::specs::Graph::upsert_node, rules::specs::Graph::upsert_at))]
    pub(crate) fn upsert_node(&mut self, event: EdgeEvent, words: NodeWords) -> Result<u16, Refusal>
        ensures { Makes (upserted (node_in words).mode (event_of event) (node_in words).action) self.old result self.new }
    {
        match self.graph.get_edge_by(&self.search, self.at.prev, event) {
            Some(n) => {
                self.graph.settle(n, words)?;
                Ok(n)
            }
            None => self.graph.add_node(words),
        }
    }

    // One step along the event: to the end of its edge, or to a node more; an edge that is owed is paid on the way.
    #[tactic(auto, unfolding(crate::specs::Making::upserted, crate::specs::Making::paid, rules::specs::Graph::edge_to, rules::specs::Graph::add_simple_step))]
    pub(crate) fn add_simple_step(
        &mut self,
        event: EdgeEvent,
        words: NodeWords,
    ) -> Result<(), Refusal>
        ensures { Leads (g.add_simple_step (node_in words).mode (event_of event) (node_in words).action) self.old result self.new }
    {
        let n = self.upsert_node(event, words)?;
        self.pay(n)?;
        self.edge_to(n, event)?;
        self.at.prev = n;
        self.at.owed = false;
        Ok(())
    }

    pub(crate) fn add_simple(&mut self, event: EdgeEvent) -> Result<(), Refusal>
        ensures { Leads (g.add_simple_step self.old.mode.id (event_of event) g.Empty) self.old result self.new }
    {
        self.add_simple_step(event, NodeWords::empty(self.mode.id))
    }
}

impl<'a> Cursor<'a, Scan> {
    ghost use Rattle.keygraph.specs.Making.{cursor_of};

    // At the root of the mode, with nothing owed.
    pub(crate) fn start(graph: &'a mut Graph, mode: Mode) -> Cursor<'a, Scan>
        ensures same_graph { result.graph.ghost_name ≡ graph.entry.ghost_name }
        ensures starts { (result.mode ≡ mode) × (cursor_of result ≡ g.cursor (graph_of graph.old) mode.id false) }
    {
        Cursor {
            graph,
            search: Scan {},
            mode,
            at: Place {
                prev: mode.id,
                owed: false,
            },
        }
    }
}
