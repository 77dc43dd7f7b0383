// What rules grant, as the lists of rules are ordered.
ghost use Rattle.std.specs.Prelude.{◌≡◌, ◌<◌};
ghost use Rattle.dom_trans.specs.Inner.RuleLists.{place_of};

/// What the rules of a list do: give a permission, or set the default domain of a process.
#[derive(Clone, Copy)]
pub enum Grant {
    Transition,
    Dyntransition,
    Setexec,
    Setcurrent,
    Execute,
    Entrypoint,
    Default,
}

impl Grant {
    /// The place of its list among the seven.
    pub fn place(self) -> usize
        ensures exact { result ≡ place_of self }
        ensures small { result < 7 }
    {
        self as usize
    }
}
