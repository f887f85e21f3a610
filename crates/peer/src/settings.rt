// The settings of one access point, station or ad hoc peer, and what its role may do. Any numbers may come in: `fit` says whether they are settings.
ghost use Rattle.std.specs.Prelude.{◌≡◌};
ghost use Rattle.peer.specs.Settings.{network_fits, query_times_fit, role_answers, role_asks, role_associates, settings_fit};

use octets::address::valid;

#[repr(C)]
#[derive(Clone, Copy)]
pub struct Settings {
    pub own: u64,
    // The address of an ad hoc network; not looked at in the other roles.
    pub network: u64,
    // Timeouts in TU.
    pub authentication: u16,
    pub association: u16,
    pub role: u8,
    // Whether RSNA is required, 0 or 1.
    pub rsna: u8,
    // Which rule a rejected association follows: 1, document 001's; 2, document 004's.
    pub edition: u8,
    // Whether management frame protection is in use, 0 or 1.
    pub protection: u8,
    // An SA Query's retry time and its maximum, in TU.
    pub retry: u16,
    pub maximum: u16,
}

// Whether a role sends requests.
#[tactic(auto, unfolding(crate::specs::Settings::role_asks))]
pub fn asks(role: u8) -> bool
    ensures { result ≡ role_asks role }
{
    role != Settings::AP
}

// Whether a role answers requests for authentication.
#[tactic(auto, unfolding(crate::specs::Settings::role_answers))]
pub fn answers(role: u8) -> bool
    ensures { result ≡ role_answers role }
{
    role != Settings::STATION
}

// Whether a role takes part in associations.
#[tactic(auto, unfolding(crate::specs::Settings::role_associates))]
pub fn associates(role: u8) -> bool
    ensures { result ≡ role_associates role }
{
    role != Settings::AD_HOC
}

impl Settings {
    // The roles, numbers and no enum: any may come in, and `fit` says whether it is a role.
    pub const AP: u8 = 1;

    pub const STATION: u8 = 2;

    pub const AD_HOC: u8 = 3;

    // Whether the times of a query are in range.
    #[tactic(auto, unfolding(crate::specs::Settings::query_times_fit, crate::specs::Settings::time_fits))]
    fn query_times_fit(self) -> bool
        ensures { result ≡ query_times_fit self }
    {
        self.retry != 0 && self.maximum != 0
    }

    // Whether an ad hoc network has a valid address.
    #[tactic(auto, unfolding(crate::specs::Settings::network_fits))]
    fn network_fits(self) -> bool
        ensures { result ≡ network_fits self }
    {
        associates(self.role) || valid(self.network)
    }

    // Whether the settings are in range and the own address is valid.
    #[tactic(auto, unfolding(crate::specs::Settings::settings_fit, crate::specs::Settings::time_fits))]
    pub fn fit(self) -> bool
        ensures { result ≡ settings_fit self }
    {
        self.role != 0
            && self.role <= 3
            && self.rsna <= 1
            && self.authentication != 0
            && self.association != 0
            && self.protection <= 1
            && self.edition != 0
            && self.edition <= 2
            && self.query_times_fit()
            && self.network_fits()
            && valid(self.own)
    }
}
