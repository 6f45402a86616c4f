// Why a policy is not made, or a tenant not added.

/// Why a policy is not made, or a tenant not added to it.
#[derive(Clone, Copy, PartialEq, Eq, Debug)]
pub enum PolicyRefusal {
    /// A cap is past 64.
    Cap,
    /// A worker's class is past 7.
    Class,
    /// There are sixteen tenants already.
    Full,
}
