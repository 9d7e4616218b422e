ghost use Rattle.std.specs.Prelude.{◌≤◌, ◌+◌, length};
ghost use Rattle.batches.specs.declared.batch.TheConstants.{BATCH_LINES};

use batches::{Batch, Request};
use std::alloc::Global;
use trial_kit::Random;
use world_actions::{Action, LIMIT, Refusal};

/// A batch that is filled again and again with random requests.
#[derive(Drop)]
pub struct Draft {
    batch: Batch,
    ghost room: { BATCH_LINES ≤ batch.room + length batch.list },
}

impl Draft {
    /// An empty batch.
    pub fn new(alloc: Global) -> Result<Self, Refusal> {
        Ok(Draft {
            batch: Batch::new(alloc)?,
        })
    }

    /// The batch.
    pub fn batch(&self) -> &Batch {
        &self.batch
    }

    /// Fills it for a world of so many cells, mostly with few requests. Now and then it has none,
    /// or more requests than a tick may have actions.
    pub fn fill(&mut self, cells: u32, random: &mut Random) {
        self.batch.clear();
        let count = match random.below(200) {
            0..12 => 0,
            12 => 400u64.saturating_add(random.below(200)),
            _ => 1u64.saturating_add(random.below(5)),
        };
        for _ in 0..count {
            self.add(request(cells, random));
        }
    }

    /// Fills it with a read of the first cell.
    pub fn fill_small(&mut self) {
        self.batch.clear();
        self.add(Request::Get(0));
    }

    fn add(&mut self, request: Request) {
        if !self.batch.is_full() {
            self.batch.push_reserved(request);
        }
    }
}

fn request(cells: u32, random: &mut Random) -> Request {
    match random.below(10) {
        0 => Request::Get(cell(cells, random)),
        1 if random.percent(10) => Request::Bad,
        2 | 3 => Request::Act(Action::Set {
            cell: cell(cells, random),
            value: amount(random),
        }),
        4 => Request::Act(Action::Transfer {
            from: cell(cells, random),
            to: cell(cells, random),
            amount: amount(random),
        }),
        5 => Request::Act(Action::Swap {
            a: cell(cells, random),
            b: cell(cells, random),
        }),
        6 => Request::Act(Action::Cap {
            cell: cell(cells, random),
            value: amount(random),
        }),
        _ => Request::Act(Action::Add {
            cell: cell(cells, random),
            by: difference(random),
        }),
    }
}

// Chooses a cell, mostly one that the world has.
fn cell(cells: u32, random: &mut Random) -> u32 {
    if random.percent(2) {
        return cells.saturating_add(random.below(2) as u32);
    }
    random.below(u64::from(cells)) as u32
}

// Chooses an amount, mostly a small one, else one near the limit.
fn amount(random: &mut Random) -> u64 {
    if random.percent(10) {
        LIMIT.saturating_sub(1).saturating_add(random.below(3))
    } else {
        random.below(50)
    }
}

// Chooses a difference of such a size and either sign.
fn difference(random: &mut Random) -> i64 {
    let size = i64::try_from(amount(random)).unwrap_or(i64::MAX);
    if random.below(2) == 0 {
        size
    } else {
        0i64.saturating_sub(size)
    }
}
