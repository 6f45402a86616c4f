// Making a staffing, changing it, and what can be asked of it.
ghost use Rattle.std.specs.Prelude.{◌≡◌, ℕ, ◌<◌, not, ◌&&◌, ◌||◌, ◌==◌, slice_index_or, slice_set};
ghost use Rattle.fleet.specs.Market.{staff as staff_of};
ghost use Rattle.fleet.specs.Members.{members};
ghost use Rattle.matching.specs.Entries.{place};
ghost use Rattle.matching.specs.Staffs.{no_workers};

use crate::placement::Placement;
use crate::staffing::Staffing;
use fleet::WorkerSet;

impl Staffing {
    /// The staffing of a placement, made in one pass over the workers.
    pub fn new(placement: Placement) -> Staffing
        ensures { result.placement ≡ placement }
    {
        let mut staffs = [WorkerSet::empty(); 16];
        for (worker, tenant) in placement.places.iter().enumerate() {
            enter(&mut staffs, worker as u8, *tenant);
        }
        Staffing { placement, staffs }
    }

    /// Gives a worker another tenant, 255 for none; there is no worker past 63.
    pub fn put(&mut self, worker: u8, tenant: u8)
        ensures { self.new.placement.places ≡ slice_set self.old.placement.places worker tenant }
    {
        if worker < 64 {
            let staffs = self.reassigned(worker, tenant);
            let mut places = self.placement.places;
            places[worker as usize] = tenant;
            *self = Staffing {
                placement: Placement { places },
                staffs,
            };
        }
    }

    // The workers of each tenant once a worker has another tenant.
    fn reassigned(&self, worker: u8, tenant: u8) -> [WorkerSet; 16]
        requires { worker < 64 }
        ensures { (t w : ℕ) → t < 16 → members (slice_index_or result t no_workers) w ≡ staff_of (place (slice_set self.now.placement.places worker tenant)) t w }
    {
        let mut staffs = self.staffs;
        leave(&mut staffs, worker, self.placement.tenant(worker));
        enter(&mut staffs, worker, tenant);
        staffs
    }

    // The workers of a tenant, nobody past 15.
    pub(crate) fn staff(&self, tenant: u8) -> WorkerSet
        ensures { tenant < 16 → members result ≡ staff_of (place self.now.placement.places) tenant }
    {
        let staff = self.staffs.get(tenant as usize).copied();
        staff.unwrap_or(WorkerSet::empty())
    }
}

// Takes a worker from a tenant.
fn leave(staffs: &mut [WorkerSet; 16], worker: u8, tenant: u8)
    ensures { (t w : ℕ) → t < 16 → members (slice_index_or staffs.new t no_workers) w ≡ (members (slice_index_or staffs.old t no_workers) w && not (t == tenant && w == worker)) }
{
    if tenant < 16 {
        staffs[tenant as usize] = staffs[tenant as usize].without(worker);
    }
}

// Gives a worker to a tenant.
fn enter(staffs: &mut [WorkerSet; 16], worker: u8, tenant: u8)
    requires { worker < 64 }
    ensures { (t w : ℕ) → t < 16 → members (slice_index_or staffs.new t no_workers) w ≡ (members (slice_index_or staffs.old t no_workers) w || (t == tenant && w == worker)) }
{
    if tenant < 16 {
        staffs[tenant as usize] = staffs[tenant as usize].with(worker);
    }
}
