use im_history::Task;
use im_unit::ColumnUnit;
use std::marker::Model;
use std::sync::Arc;

/// A build, its unit being ready.
#[derive(Drop)]
pub struct Build {
    pub task: Task,
    pub unit: Arc<ColumnUnit>,
}

impl Model for Build {
    ghost use Rattle.im_worker.specs.Background.{Ready};

    ghost Value = { Ready };

    ghost view = { λ b. record { task = b.task; content = b.unit.value } };
}
