use im_history::History;
use im_replies::Reply;
use im_worker::Ended;
use std::marker::Model;

/// What a race shows.
#[derive(Drop)]
pub struct Report {
    /// The replies to its prelude, each with the number of its line.
    pub prelude: Vec<(u64, Reply)>,
    /// The history, whole.
    pub history: History,
    /// How each worker ended, by rising numbers of workers.
    pub ends: Vec<Ended>,
    /// The replies to the lines behind the prelude, in order, each with the number of its line.
    pub answers: Vec<(u64, Reply)>,
}

impl Model for Report {
    ghost use Rattle.im_race.specs.Report as spec;

    ghost Value = { spec.Report };

    ghost view = { λ r. record {
      prelude = r.prelude.items;
      history = r.history.entries;
      ends = r.ends.items;
      answers = r.answers.items;
    } };
}
