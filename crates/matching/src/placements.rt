// Making and reading placements.
ghost use Rattle.std.specs.Prelude.{◌≡◌};
ghost use Rattle.matching.specs.Entries.{place};

use crate::placement::Placement;

impl Placement {
    /// The placement that has each worker with the tenant at its number, 255 for none.
    pub fn new(places: [u8; 64]) -> Placement
        ensures { result.places ≡ places }
    {
        Placement { places }
    }

    /// The tenant of a worker, 255 for none.
    pub fn tenant(&self, worker: u8) -> u8
        ensures { result ≡ place self.now.places worker }
    {
        self.places.get(worker as usize).copied().unwrap_or(255)
    }
}
