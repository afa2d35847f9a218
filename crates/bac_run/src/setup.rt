//! The settings of a run.

ghost use Rattle.std.specs.Prelude.{◌≡◌, ◌<◌, ◌↔◌, IsSome, IfSome};

use bac_tsm::Config;

/// The settings of a run: those of its client, and how many requests are open at most.
#[derive(Clone, Copy)]
pub struct Setup {
    /// The timeout and the retries.
    pub config: Config,
    /// How many requests are open at most; it is not 0. A client has room for 64, and refuses more as `full`.
    pub window: usize,
    ghost some: { 0 < window },
}

impl Setup {
    /// Returns a setup with these settings. None only if no request may be open.
    pub fn new(config: Config, window: usize) -> Option<Self>
        ensures valid { IsSome result ↔ (0 < window) }
        ensures settings { IfSome result (λ setup. (setup.config ≡ config) × (setup.window ≡ window)) }
    {
        if window == 0 {
            return None;
        }
        Some(Setup { config, window })
    }
}
