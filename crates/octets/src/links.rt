// The link addresses of a device: up to four, in four slots. A slot without a link is 0.
ghost use Rattle.std.specs.Prelude.{◌≡◌, get_or};
ghost use Rattle.octets.specs.Links.{links_of, no_links, unlinked};

// Four fields, and 0 for no link: `links_of` and `links_at` name them, and so a row crosses to C.
#[derive(Clone, Copy, PartialEq, Eq)]
pub struct Links {
    pub one: u64,
    pub two: u64,
    pub three: u64,
    pub four: u64,
}

impl Links {
    // How many slots there are.
    pub const SLOTS: usize = 4;

    pub fn none() -> Links
        ensures { result ≡ unlinked }
    {
        Links {
            one: 0,
            two: 0,
            three: 0,
            four: 0,
        }
    }

    // The link in a slot; 0 where there is no such slot.
    pub fn at(self, j: usize) -> u64
        ensures { result ≡ get_or (links_of self) j 0 }
    {
        match j {
            0 => self.one,
            1 => self.two,
            2 => self.three,
            3 => self.four,
            _ => 0,
        }
    }

    // Whether no slot has a link.
    #[tactic(auto, unfolding(crate::specs::Links::no_links))]
    pub fn is_none(self) -> bool
        ensures { result ≡ no_links self }
    {
        self == Links::none()
    }
}
