// Adding a mapping, in place.
ghost use Rattle.std.specs.Prelude.{◌≡◌, [], ◌∷◌};
ghost use Rattle.rules.specs.Basics as b;
ghost use Rattle.rules.specs.Values as v;
ghost use Rattle.rules.specs.Graph as g;
ghost use Rattle.keyvalues.specs.View.{event_of, part_of, repeat_of, step_of, path_of, whole_path, whole_step, told};
ghost use Rattle.keyparts.specs.View.{graph_of};
ghost use Rattle.keygraph.specs.Making.{Leads, Makes};

use crate::cursor::{Cursor, Mode};
use keyparts::graph::Graph;
use keyparts::search::Scan;
use keyvalues::event::{EdgeEvent, EdgeRepeat};
use keyvalues::node::NodeWords;
use keyvalues::path::{EdgePath, EdgePathPart};
use keyvalues::refusal::Refusal;
use keyvalues::step::Step;

impl<'a> Cursor<'a, Scan> {
    // A node more, which holds the step.
    pub(crate) fn add_holding(&mut self, step: &Step) -> Result<u16, Refusal>
        ensures { Makes (g.node_for self.old.mode.id (g.Holds (step_of step.now))) self.old result self.new }
    {
        self.add_node(NodeWords::holding(step, self.mode.id))
    }

    // The last part of a mapping: Once.
    #[tactic(auto, unfolding(rules::specs::Graph::map_last))]
    fn map_once(&mut self, event: EdgeEvent, step: &Step) -> Result<(), Refusal>
        ensures { Leads (g.map_last self.old.mode.id v.Once (event_of event) (step_of step.now)) self.old result self.new }
    {
        self.add_simple_step(event, NodeWords::holding(step, self.mode.id))
    }

    // The last part of a mapping: Min.
    #[tactic(auto, unfolding(rules::specs::Graph::map_last))]
    pub(crate) fn map_min(&mut self, n: u16, event: EdgeEvent, step: &Step) -> Result<(), Refusal>
        ensures { Leads (g.map_last self.old.mode.id (v.Min n) (event_of event) (step_of step.now)) self.old result self.new }
    {
        let end = self.add_holding(step)?;
        let middle = self.add_empty()?;
        self.fall_between(middle, end)?;
        self.add_edge(middle, middle, event)?;
        self.add_min(n, event, end)?;
        self.edge_to(middle, event)?;
        self.at.prev = end;
        Ok(())
    }

    // The last part of a mapping: Max.
    #[tactic(auto, unfolding(rules::specs::Graph::map_last))]
    pub(crate) fn map_max(&mut self, n: u16, event: EdgeEvent, step: &Step) -> Result<(), Refusal>
        ensures { Leads (g.map_last self.old.mode.id (v.Max n) (event_of event) (step_of step.now)) self.old result self.new }
    {
        let end = self.add_holding(step)?;
        self.fall_to(end)?;
        self.add_max(n, event, end)?;
        self.at.prev = end;
        Ok(())
    }

    // The last part of a mapping.
    pub(crate) fn map_last(
        &mut self,
        repeat: EdgeRepeat,
        event: EdgeEvent,
        step: &Step,
    ) -> Result<(), Refusal>
        ensures { Leads (g.map_last self.old.mode.id (repeat_of repeat) (event_of event) (step_of step.now)) self.old result self.new }
    {
        match repeat {
            EdgeRepeat::Once => self.map_once(event, step),
            EdgeRepeat::Min(n) => self.map_min(n, event, step),
            EdgeRepeat::Max(n) => self.map_max(n, event, step),
        }
    }

    // The last part of a mapping, and the Fallthrough edge of a step that names a mode.
    #[tactic(auto, unfolding(rules::specs::Graph::map_path, keyvalues::specs::View::part_of, keyvalues::specs::View::step_of))]
    fn map_end(&mut self, part: EdgePathPart, step: &Step) -> Result<(), Refusal>
        ensures { Leads (g.map_path self.old.mode.id (part_of part ∷ []) (step_of step.now)) self.old result self.new }
    {
        self.map_last(part.repeat, part.event, step)?;
        self.map_fall(step.fallthrough)
    }

    // A whole path. An empty one changes nothing.
    #[tactic(auto, using(crate::proofs::Steps::map_whole, crate::proofs::Steps::map_refused, crate::proofs::Steps::map_none))]
    pub(crate) fn map_path(&mut self, path: &EdgePath, step: &Step) -> Result<(), Refusal>
        ensures { Leads (g.map_path self.old.mode.id (path_of path.now) (step_of step.now)) self.old result self.new }
    {
        match path.parts().split_last() {
            None => Ok(()),
            Some((last, before)) => {
                self.add_intermediates(before)?;
                self.map_end(*last, step)
            }
        }
    }
}

// A mapping in place. Refused, the graph is scratch: half of the work may stand in it, only the refusal counts, and the caller
// must not go on with it. Accepted, it is the graph with the mapping.
#[tactic(auto, unfolding(rules::specs::Values::map_valid, rules::specs::Graph::add_mapping))]
pub fn add_mapping_or_scratch(
    graph: &mut Graph,
    mode: u16,
    path: &EdgePath,
    step: &Step,
) -> Result<(), Refusal>
    ensures { told (λ _. graph_of graph.new) result ≡ b.unless (v.map_valid mode (whole_path path.now) (whole_step step.now)) 1 (g.add_mapping mode (whole_path path.now) (whole_step step.now) (graph_of graph.old)) }
{
    let mode = Mode::try_from(mode)?;
    if !path.valid() || !step.valid() {
        return Err(Refusal::OutOfRange);
    }
    let mut cursor = Cursor::start(graph, mode);
    cursor.map_path(path, step)
}
