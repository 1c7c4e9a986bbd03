// The calls by value are proved against the rules as the lent ones are. Here both run, and answer the same.
use crate::play;
use keptcalls::binding::Binding;
use keymachine::machine::ModalMachine;
use keymachine::scanner::Scanner;
use keymap::lent;
use keytables::tables::Tables;
use keyvalues::event::{EdgeEvent, EdgeRepeat};
use keyvalues::path::{EdgePath, EdgePathPart};
use keyvalues::step::Step;
use std::process::Abort;
use std::test::Fail;

// The key 5, which gives action 7.
fn binding() -> Binding {
    let part = EdgePathPart {
        repeat: EdgeRepeat::Once,
        event: EdgeEvent::Key(5),
    };
    let mut step = Step::default();
    step.actions.items[0] = 7;
    step.actions.count = 1;
    Binding::Mapping {
        mode: 0,
        path: EdgePath {
            parts: [part; EdgePath::PARTS as usize],
            count: 1,
        },
        step,
    }
}

// The key 5, and then its pair, on a machine by value and on one that is lent.
fn gives_action_7(
    rt: &impl Abort,
    machine: ModalMachine,
    m: &mut Scanner,
) -> Result<ModalMachine, Fail> {
    let (pressed, (rounds, answer)) = machine.input_key(5, 10);
    let (lent_rounds, lent_answer) = lent::input_key(m, 5, 10);
    assert_eq!(rt; rounds, lent_rounds);
    assert_eq!(rt; answer, lent_answer);

    let (popped, pair) = pressed.pop();
    assert_eq!(rt; pair.map(|pair| pair.action), Some(7));
    assert_eq!(rt; pair, lent::pop(m));
    Ok(popped)
}

#[test]
fn by_value_as_lent(rt: HostRuntime) -> Result<(), Fail> {
    let mut m = play::fresh();
    let mut s = play::fresh();

    let (machine, opened) = s.machine.open(Tables::default());
    s.machine = machine;
    assert_eq!(rt; opened, lent::open(&mut m, Tables::default()));

    let (after, bound) = s.bind(&binding());
    s = after;
    assert_eq!(rt; bound, lent::bind(&mut m, &binding()));

    s.machine = gives_action_7(&rt, s.machine, &mut m)?;

    let (machine, repeated) = s.machine.repeat(0, None);
    s.machine = machine;
    assert_eq!(rt; repeated, lent::repeat(&mut m, 0, None));

    let (machine, reset) = s.machine.reset_mode();
    s.machine = machine;
    assert_eq!(rt; reset, lent::reset_mode(&mut m));

    let (next, kept) = play::fresh().bind(&binding());
    assert_eq!(rt; kept.is_ok(), true);
    lent::change(&mut m, &next.machine.map, &next.kept);
    s = s.change(next);
    s.machine = gives_action_7(&rt, s.machine, &mut m)?;

    assert_eq!(rt; s.machine.mode(), lent::mode(&m));
    assert_eq!(rt; s.machine.find(0, 7), lent::find(&m, 0, 7));
    assert_eq!(rt; s.machine.free_nodes(), lent::free_nodes(&m));
    Ok(())
}
