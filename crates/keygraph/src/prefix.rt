// Adding a prefix, in place. A prefix may have a step.
ghost use Rattle.std.specs.Prelude.{◌≡◌, [], ◌∷◌, true, max, if◌then◌else◌};
ghost use Rattle.rules.specs.Basics as b;
ghost use Rattle.rules.specs.Values as v;
ghost use Rattle.rules.specs.Graph as g;
ghost use Rattle.keyvalues.specs.View.{event_of, part_of, repeat_of, path_of, whole_path, told, steps_of, whole_steps};
ghost use Rattle.keyparts.specs.View.{graph_of};
ghost use Rattle.keygraph.specs.Making.{Leads, Makes, steps_valid};

use crate::cursor::{Cursor, Mode};
use keyparts::graph::Graph;
use keyparts::search::Scan;
use keyvalues::event::{EdgeEvent, EdgeRepeat};
use keyvalues::path::{EdgePath, EdgePathPart};
use keyvalues::refusal::Refusal;
use keyvalues::step::Step;

impl<'a> Cursor<'a, Scan> {
    // A node more, with the step, if the prefix has one.
    #[tactic(auto, unfolding(rules::specs::Graph::action_of))]
    fn add_end(&mut self, step: Option<Step>) -> Result<u16, Refusal>
        ensures { Makes (g.node_for self.old.mode.id (g.action_of (steps_of step))) self.old result self.new }
    {
        match step {
            Some(s) => self.add_holding(&s),
            None => self.add_empty(),
        }
    }

    // The last part of a prefix: Once, where it does not matter whether it is the whole path. A step that is there has its node,
    // and else the edge leads to the root.
    #[tactic(auto, unfolding(rules::specs::Graph::prefix_last))]
    fn prefix_once(&mut self, event: EdgeEvent, step: Option<Step>) -> Result<(), Refusal>
        ensures { Leads (g.prefix_last self.old.mode.id true v.Once (event_of event) (steps_of step)) self.old result self.new }
    {
        match step {
            Some(s) => {
                let n = self.add_holding(&s)?;
                self.edge_to(n, event)?;
                self.fall_between(n, self.mode.id)
            }
            None => self.edge_to(self.mode.id, event),
        }
    }

    // The last part of a prefix: Min, which is one time at least, where the part is the whole path.
    #[tactic(auto, unfolding(rules::specs::Graph::prefix_last))]
    fn prefix_min(
        &mut self,
        n: u16,
        single: bool,
        event: EdgeEvent,
        step: Option<Step>,
    ) -> Result<(), Refusal>
        ensures { Leads (g.prefix_last self.old.mode.id single (v.Min n) (event_of event) (steps_of step)) self.old result self.new }
    {
        let least = at_least(single, n);
        let end = self.add_end(step)?;
        let middle = self.add_empty()?;
        self.add_edge(middle, middle, event)?;
        self.fall_between(middle, end)?;
        self.fall_between(end, self.mode.id)?;
        self.add_min(least, event, end)?;
        self.edge_to(middle, event)
    }

    // The last part of a prefix: Max. The whole path Max(0) changes nothing.
    #[tactic(auto, unfolding(rules::specs::Graph::prefix_last))]
    fn prefix_max(
        &mut self,
        n: u16,
        single: bool,
        event: EdgeEvent,
        step: Option<Step>,
    ) -> Result<(), Refusal>
        ensures { Leads (g.prefix_last self.old.mode.id single (v.Max n) (event_of event) (steps_of step)) self.old result self.new }
    {
        if single && n == 0 {
            return Ok(());
        }
        let end = self.add_end(step)?;
        self.fall_to(end)?;
        self.fall_between(end, self.mode.id)?;
        self.add_max(n, event, end)
    }

    // The last part of a prefix, which leads back to the root; `single`: it is the whole path.
    #[tactic(auto, unfolding(rules::specs::Graph::prefix_last))]
    fn prefix_last(
        &mut self,
        repeat: EdgeRepeat,
        single: bool,
        event: EdgeEvent,
        step: Option<Step>,
    ) -> Result<(), Refusal>
        ensures { Leads (g.prefix_last self.old.mode.id single (repeat_of repeat) (event_of event) (steps_of step)) self.old result self.new }
    {
        match repeat {
            EdgeRepeat::Once => self.prefix_once(event, step),
            EdgeRepeat::Min(n) => self.prefix_min(n, single, event, step),
            EdgeRepeat::Max(n) => self.prefix_max(n, single, event, step),
        }
    }

    #[tactic(auto, unfolding(rules::specs::Graph::prefix_path, keyvalues::specs::View::part_of))]
    fn prefix_end(
        &mut self,
        part: EdgePathPart,
        single: bool,
        step: Option<Step>,
    ) -> Result<(), Refusal>
        ensures { Leads (g.prefix_path self.old.mode.id single (part_of part ∷ []) (steps_of step)) self.old result self.new }
    {
        self.prefix_last(part.repeat, single, part.event, step)
    }

    // A whole path. An empty one changes nothing.
    #[tactic(auto, using(crate::proofs::Steps::prefix_whole, crate::proofs::Steps::prefix_refused, crate::proofs::Steps::prefix_none))]
    fn prefix_path(&mut self, path: &EdgePath, step: Option<Step>) -> Result<(), Refusal>
        ensures { Leads (g.prefix_path self.old.mode.id true (path_of path.now) (steps_of step)) self.old result self.new }
    {
        match path.parts().split_last() {
            None => Ok(()),
            Some((last, before)) => {
                self.add_intermediates(before)?;
                self.prefix_end(*last, before.is_empty(), step)
            }
        }
    }
}

// The rules' least number of times for Min: one at least, where the part is the whole path.
fn at_least(single: bool, n: u16) -> u16
    ensures { result ≡ (if single then max 1 n else n) }
{
    if single { n.max(1) } else { n }
}

// A step that is there is in range. Then it is as it stands in its array.
fn step_valid(step: &Option<Step>) -> bool
    ensures test { result ≡ steps_valid (whole_steps step.now) }
    ensures plain { result ≡ true → whole_steps step.now ≡ steps_of step.now }
{
    match step {
        Some(s) => s.valid(),
        None => true,
    }
}

// A prefix in place. Refused, the graph is scratch: half of the work may stand in it, only the refusal counts, and the caller
// must not go on with it. Accepted, it is the graph with the prefix.
#[tactic(auto, unfolding(rules::specs::Values::map_valid, rules::specs::Values::prefix_valid, rules::specs::Graph::add_prefix))]
pub fn add_prefix_or_scratch(
    graph: &mut Graph,
    mode: u16,
    path: &EdgePath,
    step: Option<Step>,
) -> Result<(), Refusal>
    ensures { told (λ _. graph_of graph.new) result ≡ b.unless (v.prefix_valid mode (whole_path path.now) (whole_steps step)) 1 (g.add_prefix mode (whole_path path.now) (whole_steps step) (graph_of graph.old)) }
{
    let mode = Mode::try_from(mode)?;
    if !path.valid() || !step_valid(&step) {
        return Err(Refusal::OutOfRange);
    }
    let mut cursor = Cursor::start(graph, mode);
    cursor.prefix_path(path, step)
}
