ghost use Rattle.std.specs.Prelude.{◌≡◌, ◌<◌, Bool, List, Some, IfSome};
ghost use Rattle.chip_words.specs.Causes.{least_cause, no_causes, with_cause};

use chip_words::CAUSE_COUNT;
use std::marker::Model;

/// The causes of resets that are requested, of which a reset takes the least.
#[derive(Debug, Drop)]
pub struct Causes {
    requested: [bool; CAUSE_COUNT],
    // The least of them: each tick asks for it, so it is kept and not searched for.
    least: Option<u8>,
}

impl Model for Causes {
    ghost Value = { List Bool };

    ghost view = { λ c. c.requested };

    ghost invariant = { λ c. (c.least ≡ least_cause c.requested) × IfSome c.least (λ n. n < 65) };
}

impl Causes {
    /// No cause is requested.
    #[tactic(auto, unfolding(chip_words::specs::Causes::no_causes))]
    pub fn new() -> Causes
        ensures { result ≡ no_causes }
    {
        Causes {
            requested: [false; CAUSE_COUNT],
            least: None,
        }
    }

    /// Requests a reset, besides those that are requested already.
    pub fn request(&mut self, cause: u8)
        requires { cause < 65 }
        ensures { self.new ≡ with_cause (Some cause) self.old }
    {
        self.requested[cause as usize] = true;
        self.least = Some(self.least.map_or(cause, |least| least.min(cause)));
    }

    /// The cause that a reset takes now.
    pub fn least(&self) -> Option<u8>
        ensures cause { result ≡ least_cause self.now }
        ensures number { IfSome result (λ cause. cause < 65) }
    {
        self.least
    }

    /// Drops all requests.
    pub fn clear(&mut self)
        ensures { self.new ≡ no_causes }
    {
        if self.least.is_some() {
            *self = Causes::new();
        }
    }
}
