//! The far state: all that stands beside the words of local memory.

ghost use Rattle.std.specs.Prelude.{◌≡◌, ◌≤◌, IfOk};
ghost use Rattle.cb_types.specs.Config.{IsAccepted};
ghost use Rattle.cb_world.specs.Empty.{empty_far};

use crate::counts::Counts;
use crate::homes::Homes;
use crate::joining::Joining;
use crate::leaving::Leaving;
use crate::sets::Sets;
use crate::spans::Spans;
use crate::survey::Survey;
use cb_frame::Frames;
use cb_member::{Code, Members, NoMemory};
use cb_node::Nodes;
use cb_types::Config;
use std::alloc::Global;
use std::marker::Model;

/// The far state: all that stands beside the words of local memory. It is the far lock's to change.
#[derive(Drop)]
pub struct Far {
    /// From where its parts, and the calls on them, take memory.
    pub alloc: Global,
    /// The version that a make gives.
    pub first: u64,
    /// How many handles were made.
    pub made: u32,
    pub frames: Frames,
    pub spans: Spans,
    pub sets: Sets,
    pub homes: Homes,
    pub nodes: Nodes,
    pub members: Members,
    /// The code in force: that of the next set.
    pub code: Code,
    pub leaving: Option<Leaving>,
    pub joining: Option<Joining>,
    pub counts: Counts,
    /// What is known of how the committed sets stand.
    pub survey: Survey,
}

impl Model for Far {
    ghost use Rattle.cb_world.specs.FarState.{FarState};
    ghost use Rattle.std.specs.Coded.{codes};
    ghost use Rattle.cb_node.specs.NodesState.{nodes_code};
    ghost use Rattle.cb_world.specs.Sets.{sets_code};

    ghost Value = { FarState };

    ghost coded = { Prim.hlevel (codes, sets_code, nodes_code) };

    ghost view = { λ a. record {
      first = a.first;
      made = a.made;
      frames = a.frames;
      spans = a.spans;
      sets = a.sets;
      homes = a.homes;
      nodes = a.nodes;
      members = a.members;
      code = a.code;
      leaving = a.leaving;
      joining = a.joining;
      counts = a.counts;
      survey = a.survey;
    } };
}

impl Far {
    /// The far state of a configuration at the start: all frames are free, no object was made, and
    /// all nodes are up without rows. Each make gives the version `first`, which is at least 1,
    /// since 0 is the version of an object that was never made. Takes the memory of all frames'
    /// spans, their index and all homes.
    pub fn new(alloc: Global, first: u64, config: Config) -> Result<Far, NoMemory>
        requires config { IsAccepted config }
        requires first { 1 ≤ first }
        ensures empty { IfOk result (λ far. far ≡ empty_far first config) }
    {
        // (the largest last: each `?` drops what was made before it)
        let members = Members::new(alloc, config.nodes)?;
        let frames = Frames::new(alloc, config.frames)?;
        let homes = Homes::new(alloc, config.handles)?;
        let nodes = Nodes::new(alloc, config.nodes, config.room)?;
        let spans = Spans::new(alloc, config.frames)?;
        Ok(Far {
            alloc,
            first,
            made: 0,
            frames,
            spans,
            sets: Sets::new(alloc),
            homes,
            nodes,
            members,
            code: Code {
                k: config.k,
                r: config.r,
            },
            leaving: None,
            joining: None,
            counts: Counts::new(),
            survey: Survey::new(),
        })
    }

    /// The code in force: that of the next set.
    pub fn in_force(&self) -> Code
        ensures { result ≡ self.now.code }
    {
        self.code
    }
}
