// What the host keeps and lends to each call: the machine, which a call may copy, and beside it the words of the kept binding
// calls, which no call but binding, opening, changing the map and writing looks at. By value it is handed back by a binding call,
// which keeps something, and by a change, whose kept calls are the new map's.
ghost use Rattle.std.specs.Prelude.{◌≡◌};
ghost use Rattle.rules.specs.Calls.{graph_kind, bind, carry_over, settled};
ghost use Rattle.keyvalues.specs.View.{said_of};
ghost use Rattle.keptcalls.specs.View.{binding_in};
ghost use Rattle.keymachine.specs.View.{scanner_of};

use crate::machine::ModalMachine;
use keptcalls::binding::Binding;
use keptcalls::words::CallWords;
use keyvalues::refusal::Refusal;

#[repr(C)]
#[derive(Clone, Copy)]
pub struct Scanner {
    pub machine: ModalMachine,
    pub kept: [CallWords; CallWords::KEPT as usize],
}

impl Scanner {
    // A binding call more.
    pub fn bind(mut self, call: &Binding) -> (Scanner, Result<(), Refusal>)
        ensures { (scanner_of result.0, said_of result.1) ≡ settled graph_kind (scanner_of self) (bind graph_kind (binding_in call.now) (scanner_of self)) }
    {
        let (map, answer) = self.machine.map.bind(&mut self.kept, call);
        self.machine.map = map;
        (self, answer)
    }

    // The map of the next scanner, with the calls that it kept, takes the place of this one's.
    pub fn change(self, mut next: Scanner) -> Scanner
        ensures { scanner_of result ≡ carry_over graph_kind (scanner_of self) (scanner_of next) }
    {
        next.machine = self.machine.change(next.machine);
        next
    }
}
