// A farm, and a farm with its workers placed.
use crate::staffing::Staffing;
use fleet::Lists;

/// A build farm: each worker's list of tenants, and the policy by which the tenants choose.
#[derive(Drop)]
pub struct Farm<'a, P> {
    pub lists: &'a Lists,
    pub policy: &'a P,
}

/// A farm whose workers are placed.
#[derive(Drop)]
pub struct Situation<'a, P> {
    pub farm: &'a Farm<'a, P>,
    pub staffing: &'a Staffing,
}
