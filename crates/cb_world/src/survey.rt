//! What is known of how the sets stand.

ghost use Rattle.std.specs.Prelude.{◌≡◌};
ghost use Rattle.cb_world.specs.Survey.{no_survey, survey_without};

/// What is known since the last crash that lost a row of how the committed sets stand: none with a
/// number below `below` is weak, and `gone` of them have lost more shards than they have parities.
/// A rebuild goes on from here, so that it looks at no set twice between two such crashes but at
/// the one that it mends.
///
/// Where a pair was looked for and none was found, `no_pair` is how many turns that look for none
/// were counted then: until the next such turn there is none.
#[derive(Clone, Copy)]
pub struct Survey {
    pub below: u64,
    pub gone: u32,
    pub no_pair: Option<u64>,
}

impl Survey {
    /// Nothing is known.
    pub fn new() -> Survey
        ensures { result ≡ no_survey }
    {
        Survey {
            below: 0,
            gone: 0,
            no_pair: None,
        }
    }

    /// What is known once the committed set of a number is dropped, which was broken or not.
    pub fn without(self, id: u64, broken: bool) -> Survey
        ensures { result ≡ survey_without self id broken }
    {
        if id < self.below && broken {
            return Survey {
                below: self.below,
                gone: self.gone.saturating_sub(1),
                no_pair: self.no_pair,
            };
        }
        self
    }
}
