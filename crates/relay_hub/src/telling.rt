//! The updates that are made for one edit, and whom they told.
ghost use Rattle.std.specs.Prelude.{◌≡◌, ◌<◌, ◌-◌, ℕ, nat_eq, IfOk, OnErr, false};
ghost use Rattle.std.specs.List.{list_any};
ghost use Rattle.relay_history.specs.History.{Reaches};
ghost use Rattle.relay_patch.specs.Weight.{ops_weight};
ghost use Rattle.relay_room.specs.Room.{revision};
ghost use Rattle.relay_hub.specs.Allowance.{smaller, less};
ghost use Rattle.relay_hub.specs.Telling.{OfNewest, Tells};
ghost use Rattle.relay_hub.specs.Told.{is_told};
ghost use Rattle.relay_hub.specs.Update.{left_of};

use crate::config::HubConfig;
use crate::cost;
use crate::cost_meter::CostMeter;
use crate::encoded_patch::EncodedPatch;
use crate::told::Told;
use crate::update::Update;
use relay_room::{CatchFault, Room};
use relay_tree::Budget;
use relay_view::View;
use std::alloc::{AllocError, Global};

/// The telling of one edit: what its patches may still weigh, whom it told, and what that cost.
#[derive(Drop)]
pub struct Telling {
    /// The most that the patches which wait for one session may weigh.
    pub most: Budget,
    /// The weight that is left for the patches still to be made.
    pub left: Budget,
    /// The sessions that were told.
    pub told: Told,
    /// The cost of the updates that were made, and of giving them.
    pub cost: CostMeter,
}

impl Telling {
    /// Before the first update. Allocates nothing.
    pub fn new(alloc: Global, config: HubConfig) -> Telling
        ensures most { result.most ≡ config.waiting_weight }
        ensures left { result.left ≡ config.telling_weight }
    {
        Telling {
            most: config.waiting_weight,
            left: config.telling_weight,
            told: Told::nobody(alloc),
            cost: CostMeter::new(),
        }
    }

    /// Makes the update of the newest edit for a view, within what is left. A patch is paid. Out of
    /// memory changes nothing. Costs what [`Room::catch_up_within`] costs for the edit's changes,
    /// and the text of a patch.
    pub fn make(&mut self, alloc: Global, room: &Room, view: &View) -> Result<Update, AllocError>
        requires edited { 0 < revision room.now }
        requires reaches { Reaches room.now.history (revision room.now - 1) }
        ensures update { IfOk result (λ update. OfNewest room.now
            (Tells (smaller self.old.most self.old.left) room.now view.now update)) }
        ensures left { IfOk result (λ update. self.new.left ≡ left_of update self.old.left) }
        ensures err { OnErr result (self.new.left ≡ self.old.left) }
        ensures most { self.new.most ≡ self.old.most }
        ensures told { self.new.told ≡ self.old.told }
    {
        let budget = smaller(self.most, self.left);
        let update = match room.catch_up_within(alloc, room.revision() - 1, view, budget) {
            Ok(how) => Update::of(alloc, room.revision(), how)?,
            Err(CatchFault::NoMemory) => return Err(AllocError),
            Err(CatchFault::Future) => unreachable!(),
        };
        self.cost.add(cost::making(&update, budget));
        if let Update::Patch(patch) = &update {
            self.left = less(self.left, patch);
        }
        Ok(update)
    }

    /// Notes that these sessions are told. If memory runs out, it may be any.
    pub fn note(&mut self, alloc: Global, sessions: &[u64])
        ensures told { (t : ℕ) → is_told self.new.told t ≡ false
            → (is_told self.old.told t ≡ false)
            × (list_any (nat_eq t) sessions.now ≡ false) }
        ensures most { self.new.most ≡ self.old.most }
        ensures left { self.new.left ≡ self.old.left }
    {
        self.cost.add(cost::telling(sessions.len() as u64));
        if self.told.add(sessions).is_err() {
            self.told = Told::everybody(alloc);
        }
    }
}

/// The smaller of two budgets.
fn smaller(one: Budget, other: Budget) -> Budget
    ensures { result ≡ smaller one other }
{
    match (one, other) {
        (Budget::Left(one), Budget::Left(other)) => Budget::Left(one.min(other)),
        (Budget::Left(one), Budget::Unbounded) => Budget::Left(one),
        (Budget::Unbounded, other) => other,
    }
}

/// The remainder of a budget after a patch is made that it pays for.
fn less(left: Budget, patch: &EncodedPatch) -> Budget
    ensures { result ≡ less (ops_weight patch.now.1) left }
{
    match left {
        Budget::Unbounded => Budget::Unbounded,
        Budget::Left(left) => {
            Budget::Left(left.saturating_sub(patch.weight().unwrap_or(u64::MAX)))
        }
    }
}
