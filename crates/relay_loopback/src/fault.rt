//! The fault that ends a job with sockets early.
use relay_hub::HubNewFault;
use relay_script::ScriptFault;
use std::alloc::AllocError;
use std::io;
use std::net::SocketAddr;
use thiserror::Error;

/// The cause for which a job with sockets ended early. Its connections are dropped.
///
/// ```
/// let fault = ServeFault::from(ScriptFault::Input);
/// assert!(rt; fault == ServeFault::Ended(ScriptFault::Input));
/// ```
#[derive(Clone, Copy, Debug, PartialEq, Eq, Error)]
pub enum ServeFault {
    /// The address cannot be opened for listening. `code` is the number of the system's error, if
    /// it gave one.
    #[error("cannot listen")]
    Listen {
        address: SocketAddr,
        code: Option<i32>,
    },
    /// The system's poll for ready sockets cannot be set up.
    #[error("cannot wait for sockets")]
    Wait,
    /// The store cannot be opened, or no hub can be made of it. Whoever opened it has said why.
    #[error("the store cannot be opened")]
    Store,
    /// Nothing can be kept any more, so nobody was told what happened since; or, at the end of a
    /// run, the log of the store could not be moved into its file. Whoever keeps has said why.
    #[error("the store cannot be written")]
    Lost,
    /// A fault with which a script can end too.
    #[error("{0}")]
    Ended(ScriptFault),
}

impl ServeFault {
    ghost use Rattle.std.specs.Prelude.{◌≡◌};
    ghost use Rattle.std.specs.IoError.{raw_os_error};

    /// The fault of an address that cannot be opened for this reason.
    pub fn listen(address: SocketAddr, error: &io::Error) -> ServeFault
        ensures { result ≡ ServeFault.Listen address (raw_os_error error.now) }
    {
        ServeFault::Listen {
            address,
            code: error.raw_os_error(),
        }
    }
}

impl From<ScriptFault> for ServeFault {
    ghost use Rattle.std.specs.Prelude.{◌≡◌};
    ghost use Rattle.relay_loopback.specs.declared.fault.ServeFault.TheVariants.{Ended};

    ghost from_gives = { λ fault ended. ended ≡ Ended fault };

    fn from(fault: ScriptFault) -> ServeFault {
        ServeFault::Ended(fault)
    }
}

impl From<HubNewFault> for ServeFault {
    ghost use Rattle.std.specs.Prelude.{◌≡◌};
    ghost use Rattle.relay_script.specs.Faults.{not_made};
    ghost use Rattle.relay_loopback.specs.declared.fault.ServeFault.TheVariants.{Ended};

    ghost from_gives = { λ fault ended. ended ≡ Ended (not_made fault) };

    fn from(fault: HubNewFault) -> ServeFault {
        ServeFault::Ended(ScriptFault::from(fault))
    }
}

impl From<AllocError> for ServeFault {
    ghost use Rattle.std.specs.Prelude.{◌≡◌};
    ghost use Rattle.relay_script.specs.declared.fault.ScriptFault.TheVariants.{NoMemory};
    ghost use Rattle.relay_loopback.specs.declared.fault.ServeFault.TheVariants.{Ended};

    ghost from_gives = { λ _ ended. ended ≡ Ended NoMemory };

    fn from(_: AllocError) -> ServeFault {
        ServeFault::Ended(ScriptFault::NoMemory)
    }
}
