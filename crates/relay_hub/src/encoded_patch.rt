//! A waiting patch with its text, which is written once and shared by all sessions that are sent
//! the same patch.
ghost use Rattle.std.specs.Prelude.{◌≡◌};
ghost use Rattle.relay_patch.specs.Weight.{ops_weight};
ghost use Rattle.relay_hub.specs.EncodedPatch.{counted};

use bytes::ByteStr;
use relay_patch::Patch;
use relay_proto::patch_text;
use relay_tree::Budget;
use std::alloc::{AllocError, Global};
use std::marker::Model;
use std::rc::Rc;

/// A patch, the revision that it brings a view to, and the text of their message.
#[derive(Drop)]
struct Encoding {
    rev: u64,
    patch: Patch,
    text: ByteStr,
    /// The weight of the patch; `None` if it does not fit in 64 bits.
    weight: Option<u64>,
}

/// A patch that waits in one outbox or in several. Contracts see it as the revision that it brings
/// a view to, and its operations.
#[derive(Drop)]
pub struct EncodedPatch {
    encoding: Rc<Encoding>,
}

impl Model for EncodedPatch {
    ghost use Rattle.std.specs.Prelude.{◌≡◌, ℕ, List};
    ghost use Rattle.std.specs.Coded.{coded×, coded_ℕ, coded_list};
    ghost use Rattle.relay_patch.specs.contracts.op.Op as op;
    ghost use Rattle.relay_patch.specs.declared.op.Op.{Op};
    ghost use Rattle.relay_hub.specs.EncodedPatch.{counted, patch_message, IsTextOf};
    ghost use Rattle.relay_patch.specs.Weight.{ops_weight};

    ghost Value = { ℕ × List Op };

    ghost coded = { coded× coded_ℕ (coded_list op.the_row.coded) };

    ghost view = { λ p. (p.encoding.value.rev, p.encoding.value.patch) };

    ghost invariant = { λ p. IsTextOf p.encoding.value.text
        (patch_message (p.encoding.value.rev, p.encoding.value.patch))
        × (p.encoding.value.weight ≡ counted (ops_weight p.encoding.value.patch)) };
}

impl EncodedPatch {
    ghost use Rattle.std.specs.Prelude.{◌≡◌, Some, is_some, IfOk};
    ghost use Rattle.relay_tree.specs.Budget.{paid};
    ghost use Rattle.relay_hub.specs.EncodedPatch.{counted, patch_message, message_text, ReadsBack};
    ghost use Rattle.relay_patch.specs.Weight.{ops_weight};

    /// Makes a patch with its text. Costs a copy of the patch, as text.
    pub fn new(alloc: Global, rev: u64, patch: Patch) -> Result<EncodedPatch, AllocError>
        ensures { IfOk result (λ encoded_patch. encoded_patch ≡ (rev, patch)) }
    {
        let text = ByteStr::from_string(patch_text(alloc, rev, &patch)?)?;
        let weight = weight_of(&patch);
        let encoding = Encoding {
            rev,
            patch,
            text,
            weight,
        };
        let Ok(encoding) = Rc::new(alloc, encoding) else {
            return Err(AllocError);
        };
        Ok(EncodedPatch { encoding })
    }

    /// Shares the patch: raises the reference count and allocates nothing. `AllocError`: the count
    /// is at its maximum.
    pub fn share(&self) -> Result<EncodedPatch, AllocError>
        ensures { IfOk result (λ encoded_patch. encoded_patch ≡ self.now) }
    {
        Ok(EncodedPatch {
            encoding: self.encoding.clone()?,
        })
    }

    /// The weight of the patch; `None` if it does not fit in 64 bits.
    pub fn weight(&self) -> Option<u64>
        ensures { result ≡ counted (ops_weight self.now.1) }
    {
        self.encoding.weight
    }

    /// Returns true if a budget pays for the patch.
    pub fn is_within(&self, budget: Budget) -> bool
        ensures { result ≡ is_some (paid (ops_weight self.now.1) budget) }
    {
        match (budget, self.weight()) {
            (Budget::Unbounded, _) => true,
            (Budget::Left(left), Some(weight)) => weight <= left,
            (Budget::Left(_), None) => false,
        }
    }

    /// The text of the message. Allocates nothing.
    pub fn as_str(&self) -> &str
        ensures { result.now ≡ message_text (patch_message self.now) }
    {
        self.encoding.text.as_str()
    }

    /// The text of the message, shared: no byte is copied. `AllocError`: it has too many owners.
    pub fn text(&self) -> Result<ByteStr, AllocError>
        ensures text { IfOk result (λ text. text ≡ message_text (patch_message self.now)) }
        ensures reads_back { ReadsBack (Some (patch_message self.now)) }
    {
        self.encoding.text.clone()
    }
}

/// The weight of a patch; `None` if it does not fit in 64 bits.
fn weight_of(patch: &Patch) -> Option<u64>
    ensures { result ≡ counted (ops_weight patch.now) }
{
    match patch.pay(Budget::Left(u64::MAX)) {
        Some(Budget::Left(left)) => Some(u64::MAX - left),
        _ => None,
    }
}
