//! Certified programs of their own for entries.

ghost use Rattle.std.specs.Prelude.{◌≡◌, IfOk};
ghost use Rattle.ap_certify.specs.declared.certified.Scope.TheVariants.{Of};
ghost use Rattle.ap_certify.specs.Certificate.{AreMissingGiven};
ghost use Rattle.ap_certify.specs.Scopes.{AreSameEntries, IsScopeOf};

use ap_certify::{Certified, Scope};
use ap_cge::Annotated;
use ap_patterns::{Entries, Entry};
use ap_term::NoMemory;

/// The same entries again.
fn copy_entries(entries: &Entries) -> Result<Entries, NoMemory>
    ensures { IfOk result (AreSameEntries entries.now) }
{
    match entries {
        Entries::All => Ok(Entries::All),
        Entries::One(entry) => {
            let marks = entry.marks.clone()?;
            Ok(Entries::One(Entry {
                predicate: entry.predicate,
                marks,
            }))
        }
        Entries::Query => Ok(Entries::Query),
    }
}

/// The program, certified for the entries.
pub fn certified(annotated: Annotated, entries: &Entries) -> Result<Certified, NoMemory>
    requires { AreMissingGiven annotated (Of entries.now) }
    ensures program { IfOk result (λ c. c.program ≡ annotated) }
    ensures scope { IfOk result (λ c. IsScopeOf entries.now c.scope) }
    ensures given { IfOk result (λ c. AreMissingGiven c.program c.scope) }
{
    let scope = Scope::Of(copy_entries(entries)?);
    Ok(Certified::new(annotated, scope))
}
