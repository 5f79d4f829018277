// How far a call has come.
ghost use Rattle.std.specs.Prelude.{◌≡◌, ◌-◌, ◌<◌, ◌≤◌};
ghost use Rattle.fn_core.specs.State.{hi_of, lo_of};
ghost use Rattle.fn_core.specs.After.{based_stage};
ghost use Rattle.fn_climb.specs.Course.{batch_of, at_stage, risen, sunk, weight_below};

use fn_layout::Kind;
use fn_rows::Stage;

/// A batch that a call has closed: the sums at its aggregator between which it lies.
#[derive(Clone, Copy, Drop)]
pub struct Batch {
    pub at: u64,
    pub hi: u64,
}

/// How far a call has come: its kind, its level, the main word that it has loaded for an exchange, where it stands at its level, the batches that it has closed at the levels below, the lowest first, and the row of its pass that it fills at each level.
#[derive(Clone, Copy, Drop)]
pub struct Course {
    pub kind: Kind,
    pub level: u32,
    pub word: Option<u64>,
    pub stage: Stage,
    pub below: [Batch; 2],
    pub rows: [u32; 3],
}

impl Batch {
    fn weight(self) -> u64
        ensures { result ≡ self.hi - self.at }
    {
        self.hi.saturating_sub(self.at)
    }
}

impl Course {
    // The batch that the call has closed.
    fn batch(&self) -> Batch
        ensures { result ≡ batch_of self.now.stage }
    {
        match self.stage {
            Stage::Shut(at, hi) => Batch { at, hi },
            _ => Batch { at: 0, hi: 0 },
        }
    }

    /// The weight of the batch that the call has closed.
    pub fn weight(&self) -> u64
        ensures { result ≡ hi_of self.now.stage - lo_of self.now.stage }
    {
        self.batch().weight()
    }

    /// The weight of the batch that the call has closed one level below its own.
    pub fn weight_below(&self) -> u64
        requires low { 1 ≤ self.now.level }
        requires high { self.now.level ≤ 3 }
        ensures { result ≡ weight_below self.now }
    {
        if self.level == 1 {
            0
        } else {
            self.below[(self.level - 2) as usize].weight()
        }
    }

    /// The call goes on to a stage at its level.
    pub fn go_to(&mut self, stage: Stage)
        ensures { self.new ≡ at_stage self.old stage }
    {
        self.stage = stage;
        self.word = None;
    }

    /// The call gets a base for its batch.
    pub fn take_base(&mut self, base: u64)
        ensures { self.new ≡ at_stage self.old (based_stage base self.old.stage) }
    {
        let stage = match self.stage {
            Stage::Shut(at, hi) => Stage::Based(at, hi, base),
            held => held,
        };
        self.go_to(stage);
    }

    /// The call goes up a level with the batch that it has closed.
    pub fn rise(&mut self, seen: u64)
        requires low { 1 ≤ self.old.level }
        requires high { self.old.level < 3 }
        ensures { self.new ≡ risen self.old seen }
    {
        self.below[(self.level - 1) as usize] = self.batch();
        self.level += 1;
        self.go_to(Stage::Saw(seen));
    }

    /// The call goes down a level, where it gets a base for its batch.
    pub fn sink(&mut self, base: u64)
        requires low { 1 < self.old.level }
        requires high { self.old.level ≤ 3 }
        ensures { self.new ≡ sunk self.old base }
    {
        let batch = self.below[(self.level - 2) as usize];
        self.level -= 1;
        self.go_to(Stage::Based(batch.at, batch.hi, base));
    }
}
