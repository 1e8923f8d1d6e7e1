// A cross dock: its name, and the times of the leg into it and of the leg out of it.
use crate::name::Name;
use semiring::Time;
use std::fmt;

#[derive(Clone, Copy, Default)]
pub struct Dock {
    pub name: Name,
    pub leg_in: Time,
    pub leg_out: Time,
}

impl fmt::Display for Dock {
    fn fmt<W: fmt::Write>(&self, f: &mut fmt::Formatter<W>) -> fmt::Result {
        let Dock {
            name,
            leg_in,
            leg_out,
        } = *self;
        write!(f, "{name}: in {leg_in}, out {leg_out}")
    }
}
