// The modal machine by value: each call takes a machine and hands back the machine after it, with the answer, but for a change,
// which is never refused. A refused call hands back the machine before it. What only reads is lent the machine.
ghost use Rattle.std.specs.Prelude.{◌≡◌, List};
ghost use Rattle.rules.specs.Tables.{no_tables};
ghost use Rattle.rules.specs.Calls.{graph_kind, call, fresh, carry_over, mode_call, Open, Press, Pop, Repeats, Reset, find, hint};
ghost use Rattle.keyvalues.specs.View.{told, maybe_of, said_of};
ghost use Rattle.keyparts.specs.View.{graph_of};
ghost use Rattle.keytables.specs.View.{whole_tables, tables_of};
ghost use Rattle.keypairs.specs.View.{over_of, pop_of};
ghost use Rattle.keptcalls.specs.declared.words.CallWords.{CallWords};
ghost use Rattle.keybind.specs.View.{map_kept};
ghost use Rattle.keymachine.specs.View.{machine_of, press_of};

use crate::live;
use keybind::map::Map;
use keypairs::context::Context;
use keypairs::live::Live;
use keypairs::pair::Pair;
use keytables::tables::Tables;
use keyvalues::refusal::Refusal;
use keyvalues::tables::TableWords;

#[repr(C)]
#[derive(Clone, Copy)]
pub struct ModalMachine {
    pub map: Map,
    pub live: Live,
}

impl ModalMachine {
    // The fresh machine with no tables: mode 0, no pair, no trail, no binding.
    #[tactic(auto, unfolding(rules::specs::Tables::no_tables))]
    pub fn fresh() -> ModalMachine
        ensures { (ws : List CallWords) → machine_of ws result ≡ fresh graph_kind no_tables }
    {
        ModalMachine::over(Map::fresh(TableWords::EMPTY))
    }

    // The fresh machine over a map.
    pub fn over(map: Map) -> ModalMachine
        ensures { (ws : List CallWords) → machine_of ws result ≡ map_kept ws map (fresh graph_kind (tables_of map.tables)).state }
    {
        ModalMachine {
            map,
            live: Live::fresh(),
        }
    }

    // The fresh machine with the tables. Refused, the machine as it was.
    #[tactic(auto, using(crate::proofs::Calls::opened, crate::proofs::Calls::not_opened))]
    pub fn open(self, tables: Tables) -> (ModalMachine, Result<(), Refusal>)
        ensures { (ws : List CallWords) → (machine_of ws result.0, said_of result.1) ≡ call graph_kind (machine_of ws self) (Open (whole_tables tables)) }
    {
        match tables.pack() {
            Ok(words) => (ModalMachine::over(Map::fresh(words)), Ok(())),
            Err(refusal) => (self, Err(refusal)),
        }
    }

    // One key, and the rounds that were made. Built in, as the calls below: else the machine is copied into the call and out of it.
    #[inline(always)]
    pub fn input_key(mut self, key: u16, budget: u16) -> (ModalMachine, (u16, Result<(), Refusal>))
        ensures { (ws : List CallWords) → (machine_of ws result.0, press_of result.1) ≡ call graph_kind (machine_of ws self) (Press (record { key = key; budget = budget })) }
    {
        let m = &mut self;
        let answer = live::input_key(&m.map.graph, &m.map.tables, &mut m.live, key, budget);
        (self, answer)
    }

    // The first waiting pair, if there is one. The map's last number is set to what it is: so the compiler sees where the map ends
    // and the live state begins, and leaves the map in its place.
    #[inline(always)]
    pub fn pop(self) -> (ModalMachine, Option<Pair>)
        ensures { (ws : List CallWords) → (machine_of ws result.0, pop_of result.1) ≡ call graph_kind (machine_of ws self) Pop }
    {
        let mut live = self.live;
        let answer = live.pop();
        let mut map = self.map;
        map.kept = self.map.kept;
        (ModalMachine { map, live }, answer)
    }

    // Mode 0 is entered and every sequence broken. The trail is kept.
    #[inline(always)]
    pub fn reset_mode(mut self) -> (ModalMachine, Result<(), Refusal>)
        ensures { (ws : List CallWords) → (machine_of ws result.0, said_of result.1) ≡ call graph_kind (machine_of ws self) Reset }
    {
        let answer = live::reset_mode(&self.map.tables, &mut self.live);
        (self, answer)
    }

    // The remembered pairs of the sequence, overridden and stored again, go before the queue.
    #[inline(always)]
    pub fn repeat(
        mut self,
        sequence: u16,
        over: Option<Context>,
    ) -> (ModalMachine, Result<(), Refusal>)
        ensures { (ws : List CallWords) → (machine_of ws result.0, said_of result.1) ≡ call graph_kind (machine_of ws self) (Repeats sequence (over_of over)) }
    {
        let answer = self.live.repeat(sequence, over);
        (self, answer)
    }

    // The next machine, which was made as any is, with this one's live state in place of its own: the queue, the sequences, the
    // entered mode and the context pass over, and the new map is walked along the trail.
    #[tactic(auto, unfolding(rules::specs::Calls::carry_over))]
    pub fn change(self, mut next: ModalMachine) -> ModalMachine
        ensures { (ws ws₁ : List CallWords) → machine_of ws₁ result ≡ carry_over graph_kind (machine_of ws self) (machine_of ws₁ next) }
    {
        let m = &mut next;
        m.live = self.live;
        live::resume(&m.map.graph, &m.map.tables, &mut m.live);
        next
    }

    // The entered mode.
    pub fn mode(&self) -> u16
        ensures { (ws : List CallWords) → result ≡ mode_call graph_kind (machine_of ws self.now) }
    {
        self.live.mode()
    }

    // The lowest-numbered node of the mode whose step has the action.
    pub fn find(&self, mode: u16, action: u16) -> Result<Option<u16>, Refusal>
        ensures { told maybe_of result ≡ find (graph_of self.now.map.graph) mode action }
    {
        self.map.graph.find(mode, action)
    }

    // How many nodes are left.
    pub fn free_nodes(&self) -> u16
        ensures { result ≡ hint (graph_of self.now.map.graph) }
    {
        self.map.graph.free_nodes()
    }
}
