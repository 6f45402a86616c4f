// What a sheet holds.
ghost use Rattle.std.specs.Prelude.{◌≡◌, ℕ, ◌≤◌, true, slice_index};
ghost use Rattle.sheet.specs.Sheets.{tenants_in, well_formed};
ghost use Rattle.sheet.specs.Texts.{text_of};

use crate::tenants::Tenants;
use fleet::{Lists, Ranking};

/// A well-formed sheet: the workers' lists, the tenants, and the workers in quarantine.
#[derive(Clone, Copy)]
pub struct Sheet {
    pub(crate) lists: Lists,
    pub(crate) tenants: Tenants,
    pub(crate) quarantine: Ranking<64>,
    ghost counted: { lists.tenants ≡ tenants_in (text_of lists tenants quarantine) },
    ghost idle: { (w : ℕ) → lists.workers ≤ w → slice_index tenants.seated.common.classes w ≡ 0 },
    ghost formed: { well_formed (text_of lists tenants quarantine) ≡ true },
}
