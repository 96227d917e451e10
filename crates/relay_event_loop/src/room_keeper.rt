//! The place where a server's rooms are kept through the end of its process.
ghost use Rattle.std.specs.Prelude.{◌≡◌};
ghost use Rattle.relay_event_loop.specs.Keeping.{HasCaughtUp};
ghost use Rattle.relay_event_loop.specs.declared.room_keeper.Keeping.TheVariants.{Done, Unchanged};
ghost use Rattle.relay_hub.specs.Log.{Log};
ghost use Rattle.relay_hub.specs.State.{State};

use relay_hub::Hub;
use std::alloc::Global;

/// The outcome of keeping rooms.
///
/// ```
/// let hub = Hub::new(alloc, 1, 1, 64, 32).ok()?;
/// assert!(rt; NotKept.keep(alloc, &hub) == Keeping::Unchanged);
/// ```
#[derive(Clone, Copy, Debug, PartialEq, Eq)]
pub enum Keeping {
    /// A commit was made, and the rooms are kept as they are.
    Done,
    /// The rooms were kept as they are, so nothing was committed.
    Unchanged,
    /// There was no memory, and nothing was kept. The next call keeps it.
    Later,
    /// Nothing can be kept any more.
    Lost,
}

/// Keeps the rooms of a server. One that tells only what is kept ([`crate::Server::tell_kept`])
/// calls it before it tells anybody what happened.
///
/// ```
/// /// Keeps nothing, and says that it is lost.
/// #[derive(Drop)]
/// struct Broken;
///
/// impl RoomKeeper for Broken {
///     ghost use Rattle.std.specs.Prelude.{⊥};
///
///     ghost has_kept = { λ _ _ _. ⊥ };
///
///     fn is_keeping(&self) -> bool {
///         true
///     }
///
///     fn keep(&mut self, _: Global, _: &Hub) -> Keeping {
///         Keeping::Lost
///     }
/// }
///
/// let (wire, script) = (Wire::new(alloc), ReadinessScript::new(alloc));
/// let listener = MemoryListener::new(alloc);
/// let hub = Hub::new(alloc, 1, 1, 64, 32).ok()?;
/// let mut server = Server::new(alloc, hub, ScriptedReadiness::of(&script), 1_000_000);
/// server.tell_kept();
/// wire.try_borrow_mut().ok()?.perform(alloc, "asks 13 /rooms/a").ok()?;
/// listener.add(&wire)?;
/// // Nobody gets a message any more, and no further round is run.
/// let run = server.run(alloc, &listener, 9, &mut Broken, &mut NoLog);
/// assert!(rt; run.made == 1 && run.is_lost);
/// ```
pub trait RoomKeeper {
    /// All rooms of this hub, which stands for this log, are kept as they are, and so is its floor.
    ghost has_kept: { Self → Log → State → Type 0 };

    /// True if it keeps anything.
    fn is_keeping(&self) -> bool;

    /// Keeps all rooms of the hub, and its floor, as they are now.
    fn keep(&mut self, alloc: Global, hub: &Hub) -> Keeping
        ensures kept { result ≡ Done → HasCaughtUp has_kept self.old self.new hub.now }
        ensures unchanged { result ≡ Unchanged → HasCaughtUp has_kept self.old self.new hub.now };
}

/// Keeps nothing: the rooms end with the process.
#[derive(Clone, Copy, Debug)]
pub struct NotKept;

impl RoomKeeper for NotKept {
    ghost use Rattle.std.specs.Prelude.{⊤};

    // it promises nothing, and so it has done all that it promised
    ghost has_kept = { λ _ _ _. ⊤ };

    fn is_keeping(&self) -> bool {
        false
    }

    fn keep(&mut self, _: Global, _: &Hub) -> Keeping {
        Keeping::Unchanged
    }
}
