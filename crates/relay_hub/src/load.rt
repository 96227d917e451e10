//! The weight of the patches that wait in an outbox. It is counted beside the outbox, and only if
//! it is bounded.
ghost use Rattle.std.specs.Prelude.{◌≡◌, ◌≤◌, ◌<◌, ◌+◌, ◌^◌};
ghost use Rattle.relay_outbox.specs.Outbox.{folded, cleared, without_front};
ghost use Rattle.relay_tree.specs.declared.budget.Budget.TheVariants.{Left};
ghost use Rattle.relay_hub.specs.Load.{IsLoad};
ghost use Rattle.relay_hub.specs.Session.{with_patch_within, patches_weight};

use crate::boxed_reply::BoxedReply;
use crate::encoded_patch::EncodedPatch;
use crate::message_counts::SnapshotCause;
use relay_outbox::{Front, Outbox};
use relay_tree::Budget;

/// Adds a patch behind the others. The outbox folds instead if the budget does not pay for all of
/// them, or if as many wait as may; a snapshot that is due already stays. Returns why it folded, if
/// it did. Allocates nothing.
pub fn put(
    outbox: &mut Outbox<BoxedReply, EncodedPatch>,
    load: &mut u64,
    budget: Budget,
    encoded_patch: EncodedPatch,
) -> SnapshotCause
    requires { IsLoad budget load.old outbox.old }
    ensures contents { outbox.new ≡ with_patch_within budget encoded_patch outbox.old }
    ensures load { IsLoad budget load.new outbox.new }
{
    match budget {
        Budget::Unbounded => {
            outbox.patch(encoded_patch);
            SnapshotCause::Patches
        }
        Budget::Left(most) => put_within(outbox, load, most, encoded_patch),
    }
}

#[tactic(auto, using(crate::proofs::Loads::one_more))]
fn put_within(
    outbox: &mut Outbox<BoxedReply, EncodedPatch>,
    load: &mut u64,
    most: u64,
    encoded_patch: EncodedPatch,
) -> SnapshotCause
    requires counted { load.old ≡ patches_weight outbox.old.patches }
    requires within { load.old ≤ most }
    ensures contents { outbox.new ≡ with_patch_within (Left most) encoded_patch outbox.old }
    ensures counted { load.new ≡ patches_weight outbox.new.patches }
    ensures within { load.new ≤ most }
{
    match encoded_patch.weight() {
        Some(weight) if weight <= most - *load => {
            outbox.patch(encoded_patch);
            if outbox.is_due() {
                *load = 0;
            } else {
                *load += weight;
            }
            SnapshotCause::Patches
        }
        _ => {
            outbox.fold();
            *load = 0;
            SnapshotCause::Weight
        }
    }
}

/// Drops the patches and makes a snapshot due. Allocates nothing.
pub fn fold(outbox: &mut Outbox<BoxedReply, EncodedPatch>, load: &mut u64)
    ensures contents { outbox.new ≡ folded outbox.old }
    ensures load { load.new ≡ 0 }
{
    outbox.fold();
    *load = 0;
}

/// Drops the patches and the due snapshot. Allocates nothing.
pub fn clear(outbox: &mut Outbox<BoxedReply, EncodedPatch>, load: &mut u64)
    ensures contents { outbox.new ≡ cleared outbox.old }
    ensures load { load.new ≡ 0 }
{
    outbox.clear();
    *load = 0;
}

/// Removes the message at the front. Allocates nothing.
pub fn drop_front(outbox: &mut Outbox<BoxedReply, EncodedPatch>, load: &mut u64, budget: Budget)
    requires { IsLoad budget load.old outbox.old }
    ensures contents { outbox.new ≡ without_front outbox.old }
    ensures load { IsLoad budget load.new outbox.new }
{
    match budget {
        Budget::Unbounded => outbox.drop_front(),
        Budget::Left(_) => drop_counted(outbox, load),
    }
}

fn drop_counted(outbox: &mut Outbox<BoxedReply, EncodedPatch>, load: &mut u64)
    requires counted { load.old ≡ patches_weight outbox.old.patches }
    ensures contents { outbox.new ≡ without_front outbox.old }
    ensures counted { load.new ≡ patches_weight outbox.new.patches }
    ensures less { load.new ≤ load.old }
{
    let weight = front_weight(outbox, *load);
    outbox.drop_front();
    *load -= weight;
}

/// The weight of the patch at the front; 0 if another message is there, or none.
#[tactic(auto, using(crate::proofs::Loads::after_reply, crate::proofs::Loads::after_patch, crate::proofs::Loads::after_snapshot, crate::proofs::Loads::after_nothing))]
fn front_weight(outbox: &Outbox<BoxedReply, EncodedPatch>, load: u64) -> u64
    requires { load ≡ patches_weight outbox.now.patches }
    ensures { result + patches_weight (without_front outbox.now).patches
        ≡ patches_weight outbox.now.patches }
{
    match outbox.front() {
        Front::Patch(encoded_patch) => encoded_patch.weight().unwrap_or(load),
        Front::Reply(_) | Front::Snapshot | Front::Nothing => 0,
    }
}
