// Parts of a path in place: repeats, and the parts before the last.
ghost use Rattle.std.specs.Prelude.{map};
ghost use Rattle.rules.specs.Values as v;
ghost use Rattle.rules.specs.Graph as g;
ghost use Rattle.keyvalues.specs.View.{event_of, part_of, repeat_of, maybe_of};
ghost use Rattle.keygraph.specs.Making.{Leads, add_times, add_parts};

use crate::cursor::Cursor;
use keyparts::index::Index;
use keyparts::search::{Scan, Search};
use keyvalues::event::{EdgeEvent, EdgeRepeat};
use keyvalues::path::EdgePathPart;
use keyvalues::refusal::Refusal;

impl<'a, S: Search> Cursor<'a, S> {
    // n further times the event; if there is an end, each of them may be the last.
    #[tactic(auto, using(crate::proofs::Steps::times_more, crate::proofs::Steps::times_refused, crate::proofs::Steps::times_unended, crate::proofs::Steps::times_none))]
    fn add_each(&mut self, n: u16, event: EdgeEvent, end: Option<u16>) -> Result<(), Refusal>
        ensures { Leads (add_times n self.old.mode.id (event_of event) (maybe_of end)) self.old result self.new }
    {
        for turn in 0..n {
            self.add_simple(event)?;
            self.map_fall(end)?;
        }
        Ok(())
    }
}

impl<'a> Cursor<'a, Scan> {
    // n further times the event; if there is an end, each of them may be the last. A repeat may go 255 times along edges that
    // are there, and would search all of them three times for each. An index costs as much to make as a few searches, so it is
    // made once for the loop.
    #[tactic(auto, using(crate::proofs::Steps::times_none))]
    fn add_times(&mut self, n: u16, event: EdgeEvent, end: Option<u16>) -> Result<(), Refusal>
        ensures { Leads (add_times n self.old.mode.id (event_of event) (maybe_of end)) self.old result self.new }
    {
        if n == 0 {
            return Ok(());
        }
        let search = Index::new(self.graph);
        let mut steps = Cursor {
            graph: &mut *self.graph,
            search,
            mode: self.mode,
            at: self.at,
        };
        steps.add_each(n, event, end)?;
        self.at = steps.at;
        Ok(())
    }

    // n further times the event.
    #[tactic(auto, unfolding(crate::specs::Making::add_times))]
    pub(crate) fn add_simples(&mut self, n: u16, event: EdgeEvent) -> Result<(), Refusal>
        ensures { Leads (g.add_simples n self.old.mode.id (event_of event)) self.old result self.new }
    {
        self.add_times(n, event, None)
    }

    // n further times the event, each of which may be the last.
    #[tactic(auto, unfolding(crate::specs::Making::add_times))]
    pub(crate) fn add_optionals(
        &mut self,
        n: u16,
        event: EdgeEvent,
        end: u16,
    ) -> Result<(), Refusal>
        ensures { Leads (g.add_optionals n self.old.mode.id (event_of event) end) self.old result self.new }
    {
        self.add_times(n, event, Some(end))
    }

    // At least n times: nothing to go by at 0, and else all but the last of the n.
    #[tactic(auto, unfolding(rules::specs::Graph::add_min))]
    pub(crate) fn add_min(&mut self, n: u16, event: EdgeEvent, end: u16) -> Result<(), Refusal>
        ensures { Leads (g.add_min n self.old.mode.id (event_of event) end) self.old result self.new }
    {
        match n {
            0 => self.fall_to(end),
            _ => self.add_simples(n - 1, event),
        }
    }

    // At most n times, each of which leads to the end.
    #[tactic(auto, unfolding(rules::specs::Graph::add_max))]
    pub(crate) fn add_max(&mut self, n: u16, event: EdgeEvent, end: u16) -> Result<(), Refusal>
        ensures { Leads (g.add_max n self.old.mode.id (event_of event) end) self.old result self.new }
    {
        if n == 0 {
            return Ok(());
        }
        self.add_optionals(n - 1, event, end)?;
        self.edge_to(end, event)
    }

    // A part of a path that goes on: Min.
    #[tactic(auto, unfolding(rules::specs::Graph::add_repeat))]
    pub(crate) fn repeat_min(&mut self, n: u16, event: EdgeEvent) -> Result<(), Refusal>
        ensures { Leads (g.add_repeat self.old.mode.id (v.Min n) (event_of event)) self.old result self.new }
    {
        let middle = self.add_empty()?;
        self.add_edge(middle, middle, event)?;
        if n == 0 {
            self.fall_to(middle)?;
        } else {
            self.add_simples(n - 1, event)?;
            self.edge_to(middle, event)?;
        }
        self.at.prev = middle;
        self.at.owed = true;
        Ok(())
    }

    // A part of a path that goes on: Max.
    #[tactic(auto, unfolding(rules::specs::Graph::add_repeat))]
    pub(crate) fn repeat_max(&mut self, n: u16, event: EdgeEvent) -> Result<(), Refusal>
        ensures { Leads (g.add_repeat self.old.mode.id (v.Max n) (event_of event)) self.old result self.new }
    {
        if n == 0 {
            return Ok(());
        }
        let end = self.add_empty()?;
        self.fall_to(end)?;
        self.add_max(n, event, end)?;
        self.at.prev = end;
        Ok(())
    }

    // A part of a path that goes on and has no edge yet.
    #[tactic(auto, unfolding(rules::specs::Graph::add_repeat))]
    pub(crate) fn add_repeat(&mut self, repeat: EdgeRepeat, event: EdgeEvent) -> Result<(), Refusal>
        ensures { Leads (g.add_repeat self.old.mode.id (repeat_of repeat) (event_of event)) self.old result self.new }
    {
        match repeat {
            EdgeRepeat::Once => self.add_simple(event),
            EdgeRepeat::Min(n) => self.repeat_min(n, event),
            EdgeRepeat::Max(n) => self.repeat_max(n, event),
        }
    }

    // A part of a path that goes on. An edge that is there is followed, whatever the part's repeat.
    #[tactic(auto, unfolding(rules::specs::Graph::add_intermediate, rules::specs::Graph::go_on, keyvalues::specs::View::part_of))]
    pub(crate) fn add_intermediate(&mut self, part: EdgePathPart) -> Result<(), Refusal>
        ensures { Leads (g.add_intermediate self.old.mode.id (part_of part)) self.old result self.new }
    {
        match self.graph.get_edge(self.at.prev, part.event) {
            Some(n) => {
                self.at.prev = n;
                Ok(())
            }
            None => self.add_repeat(part.repeat, part.event),
        }
    }

    // The parts of a path that go on.
    #[tactic(auto, using(crate::proofs::Steps::parts_more, crate::proofs::Steps::parts_refused, crate::proofs::Steps::parts_none))]
    pub(crate) fn add_intermediates(&mut self, parts: &[EdgePathPart]) -> Result<(), Refusal>
        ensures { Leads (add_parts self.old.mode.id (map part_of parts.now)) self.old result self.new }
    {
        for part in parts {
            self.add_intermediate(*part)?;
        }
        Ok(())
    }
}
