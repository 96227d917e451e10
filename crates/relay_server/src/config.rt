//! The configuration of a job's hub.
ghost use Rattle.std.specs.Prelude.{◌≡◌};
ghost use Rattle.relay_hub.specs.Config.{bounded_by};
ghost use Rattle.relay_server.specs.Config.{config_of};

use relay_hub::HubConfig;
use relay_options::Settings;
use relay_script::FIRST_SESSION;
use relay_tree::Budget;

/// The hub configuration for some settings. Sessions are numbered from [`FIRST_SESSION`].
pub(crate) fn config_of(settings: Settings) -> HubConfig
    ensures { result ≡ config_of settings }
{
    HubConfig {
        epoch: settings.epoch,
        first: FIRST_SESSION,
        rooms: settings.rooms,
        sessions: settings.sessions,
        history: settings.history,
        max_waiting_patches: settings.max_waiting_patches,
        history_weight: budget_of(settings.history_weight),
        waiting_weight: budget_of(settings.waiting_weight),
        telling_weight: budget_of(settings.telling_weight),
        view_weight: budget_of(settings.view_weight),
    }
}

fn budget_of(most: Option<u64>) -> Budget
    ensures { result ≡ bounded_by most }
{
    match most {
        Some(most) => Budget::Left(most),
        None => Budget::Unbounded,
    }
}
