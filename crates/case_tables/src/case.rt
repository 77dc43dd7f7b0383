// A case: a run of the tools, and the answer that it has to give.
ghost use Rattle.std.specs.Prelude.{◌<◌};

use crate::answer::Answer;
use crate::edit::Edit;
use crate::sweep::Sweep;
use se_options::Words;
use std::alloc::{AllocError, Global};

/// A file of the folder, with edits that are made one after the other.
#[derive(Drop)]
pub struct Source {
    pub file: String,
    pub edits: Vec<Edit>,
}

/// What files or a sink in memory are told.
#[derive(Clone, Copy)]
pub struct Orders {
    /// The call that fails, counted from 1, or 0 where none does.
    pub fail: u64,
    /// The most bytes that one call moves.
    pub most: usize,
    /// The most bytes that a sink holds.
    pub room: usize,
    ghost takes: { 0 < most },
}

/// What all that stands outside of a run is told.
#[derive(Clone, Copy)]
pub struct Outside {
    pub files: Orders,
    /// The pattern that is refused, counted from 1, or 0 where none is.
    pub patterns: u64,
    pub out: Orders,
    pub err: Orders,
}

/// A run of the tools, and the answer that it has to give.
#[derive(Drop)]
pub struct Case {
    /// The line of its words in the table, counted from 1.
    pub line: usize,
    pub words: Words,
    /// The name of the policy among the files.
    pub name: String,
    /// The policy, where the files have one.
    pub policy: Option<Source>,
    /// The permission map, where the files have one. Its name is `map`.
    pub map: Option<Source>,
    /// The checklist, where the files have one. Its name is `list`.
    pub list: Option<Source>,
    pub outside: Outside,
    /// What goes wrong in turn, where the case is run many times. The answer is then that of its last run.
    pub sweep: Option<Sweep>,
    pub wanted: Answer,
    /// The file that standard output has to be, where the table does not write it.
    pub wanted_file: Option<Source>,
}

impl Orders {
    /// No call fails, and a sink holds a mebibyte.
    pub fn new() -> Orders {
        Orders {
            fail: 0,
            most: usize::MAX,
            room: 1_048_576,
        }
    }

    /// With that call failing.
    pub fn failing(self, call: u64) -> Orders {
        let Orders {
            fail: _,
            most,
            room,
        } = self;
        Orders {
            fail: call,
            most,
            room,
        }
    }

    /// With that most bytes that one call moves.
    pub fn moving(self, most: usize) -> Orders
        requires { 0 < most }
    {
        let Orders {
            fail,
            most: _,
            room,
        } = self;
        Orders { fail, most, room }
    }

    /// With that most bytes that a sink holds.
    pub fn holding(self, room: usize) -> Orders {
        let Orders {
            fail,
            most,
            room: _,
        } = self;
        Orders { fail, most, room }
    }

    /// How many calls at least move so many bytes.
    pub fn turns(&self, length: usize) -> u64 {
        length.div_ceil(self.most) as u64
    }
}

impl Outside {
    /// No call fails.
    pub fn new() -> Outside {
        Outside {
            files: Orders::new(),
            patterns: 0,
            out: Orders::new(),
            err: Orders::new(),
        }
    }
}

impl Case {
    /// A run of no words over no files, which ends with 0 and gives nothing.
    pub fn new(alloc: Global) -> Result<Case, AllocError> {
        Ok(Case {
            line: 0,
            words: Words::new(alloc),
            name: String::from_str(alloc, "pol")?,
            policy: None,
            map: None,
            list: None,
            outside: Outside::new(),
            sweep: None,
            wanted: Answer::new(alloc),
            wanted_file: None,
        })
    }
}
