// A binding call by value.
use keyvalues::path::EdgePath;
use keyvalues::step::Step;

#[derive(Clone, Copy, Debug, PartialEq, Eq)]
pub enum Binding {
    Mapping {
        mode: u16,
        path: EdgePath,
        step: Step,
    },
    Prefix {
        mode: u16,
        path: EdgePath,
        step: Option<Step>,
    },
}
