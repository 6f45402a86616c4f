// How a roster grows, its tenants by number, and the policy that it is.
ghost use Rattle.std.specs.Prelude.{◌≡◌, true, [], length};
ghost use Rattle.std.specs.List.{slice_get};
ghost use Rattle.std.specs.Option.{option_map};
ghost use Rattle.policy.specs.Kinds.{by_number};
ghost use Rattle.policy.specs.Rosters.{held, rules, push_answer, adding, added};
ghost use Rattle.policy.specs.Tenants.{roster_keeps};

use crate::Policy;
use crate::refusal::PolicyRefusal;
use crate::roster::Roster;
use crate::tenant::Tenant;
use fleet::WorkerSet;

impl<T: Tenant> Roster<T, T::Common> {
    /// The roster of nobody, with what its tenants will have in common.
    pub(crate) fn of_nobody(common: T::Common) -> Roster<T, T::Common>
        ensures none { held result ≡ [] }
        ensures same { result.common ≡ common }
    {
        Roster {
            common,
            count: 0,
            tenants: [T::blank(); 16],
        }
    }

    /// The tenants, by number.
    pub fn as_slice(&self) -> &[T]
        ensures { result.now ≡ held self.now }
    {
        &self.tenants[..self.count as usize]
    }

    /// The tenant of this number.
    pub fn tenant(&self, number: u8) -> Option<&T>
        ensures { option_map (λ t. T.rule t.now) result ≡ slice_get (rules T.rule self.now) number }
    {
        self.as_slice().get(number as usize)
    }

    /// Adds a tenant; a 17th is refused, and nothing changes then.
    pub(crate) fn add(&mut self, tenant: T) -> Result<(), PolicyRefusal>
        ensures answer { push_answer result ≡ adding true (rules T.rule self.old) }
        ensures after { rules T.rule self.new ≡ added true (rules T.rule self.old) (T.rule tenant) }
        ensures same { self.new.common ≡ self.old.common }
    {
        if self.count >= 16 {
            return Err(PolicyRefusal::Full);
        }
        self.tenants[self.count as usize] = tenant;
        self.count += 1;
        Ok(())
    }
}

impl<T: Tenant> Policy for Roster<T, T::Common> {
    ghost tenants = { λ p. length (rules T.rule p) };

    ghost chosen = { λ p. by_number (T.choice p.common) (rules T.rule p) };

    ghost lawful = { λ p. roster_keeps T.rule p (T.choice p.common) (T.Tenant.lawful p.common) };

    fn count(&self) -> u8 {
        self.count
    }

    fn choose(&self, tenant: u8, of: WorkerSet) -> WorkerSet {
        match self.tenant(tenant) {
            Some(found) => found.choose(&self.common, of),
            None => WorkerSet::empty(),
        }
    }
}
