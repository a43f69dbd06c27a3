//! What a run leaves beside its text, for its contract alone.

ghost use Rattle.std.specs.Prelude.{◌≡◌, [], None, Some};
ghost use Rattle.cb_app.specs.Scripts.{given_by_nodes};

use crate::threads::ThreadsEnd;
use cb_cli::Pieces;
use cb_lanes::SeqEnd;
use cb_shared::Seal;
use cb_types::{Answers, Config, Losses};
use cb_world::World;
use std::alloc::Global;

/// What a run leaves beside its text.
#[derive(Drop)]
pub struct Ending {
    /// The configuration of the header, where a script or commands were run.
    pub config: Option<Config>,
    /// The answers, one for each line of a script after the header, in order.
    pub answers: Answers,
    /// The crashes that took place.
    pub losses: Losses,
    /// The world that the lines led to, where a script or commands were answered.
    pub world: Option<World>,
    /// The seal of the runtime that was closed, where threads or a far array and map answered.
    pub seal: Option<Seal>,
}

impl Ending {
    /// The empty ending. Takes no memory.
    pub fn new(alloc: Global) -> Ending
        ensures empty { result ≡ record {
          config = None;
          answers = [];
          losses = [];
          world = None;
          seal = None;
        } }
    {
        Ending {
            config: None,
            answers: Answers::new(alloc),
            losses: Losses::from(Vec::new(alloc)),
            world: None,
            seal: None,
        }
    }

    /// The ending of a script of this configuration that was answered on one thread.
    pub(crate) fn answered(config: Config, told: SeqEnd) -> Ending
        ensures { result ≡ record {
          config = Some config;
          answers = told.answers;
          losses = told.losses;
          world = Some told.world;
          seal = None;
        } }
    {
        Ending {
            config: Some(config),
            answers: told.answers,
            losses: told.losses,
            world: Some(told.world),
            seal: None,
        }
    }

    /// The ending of a script of this configuration that threads answered, and the text that tells
    /// the answers.
    pub(crate) fn threaded(config: Config, told: ThreadsEnd) -> (Ending, Pieces)
        ensures ending { result.0 ≡ record {
          config = Some config;
          answers = told.answers;
          losses = told.losses;
          world = Some told.world;
          seal = Some told.seal;
        } }
        ensures text { result.1 ≡ told.text }
    {
        let ThreadsEnd {
            answers,
            losses,
            world,
            seal,
            text,
        } = told;
        let ending = Ending {
            config: Some(config),
            answers,
            losses,
            world: Some(world),
            seal: Some(seal),
        };
        (ending, text)
    }

    /// The ending of commands that were run on a runtime of this configuration. Takes no memory.
    pub(crate) fn mapped(alloc: Global, config: Config, world: World, seal: Seal) -> Ending
        ensures { result ≡ record {
          config = Some config;
          answers = [];
          losses = [];
          world = Some world;
          seal = Some seal;
        } }
    {
        Ending {
            config: Some(config),
            answers: Answers::new(alloc),
            losses: Losses::from(Vec::new(alloc)),
            world: Some(world),
            seal: Some(seal),
        }
    }

    /// The ending of a script of this configuration that was checked. Takes no memory.
    pub(crate) fn checked(alloc: Global, config: Config) -> Ending
        ensures { result ≡ record {
          config = Some config;
          answers = [];
          losses = [];
          world = None;
          seal = None;
        } }
    {
        Ending {
            config: Some(config),
            answers: Answers::new(alloc),
            losses: Losses::from(Vec::new(alloc)),
            world: None,
            seal: None,
        }
    }

    /// How many rows the nodes of the world that is left gave out; 0 where none is left.
    pub(crate) fn given_by_nodes(&self) -> u64
        ensures { result ≡ given_by_nodes self.now.world }
    {
        match &self.world {
            Some(world) => world.far.nodes.given(),
            None => 0,
        }
    }

    /// Puts another ending in the place of this one.
    pub(crate) fn set(&mut self, ending: Ending)
        ensures { self.new ≡ ending }
    {
        *self = ending;
    }
}
