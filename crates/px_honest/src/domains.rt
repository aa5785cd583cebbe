ghost use Rattle.std.specs.Prelude.{◌≡◌, map, IfOk};

use px_terms::{Domain, Items, NoMemory};
use std::alloc::Global;

/// The numbers of domains, in order.
pub(crate) fn kinds_of(alloc: Global, domains: &[Box<dyn Domain>]) -> Result<Items<u8>, NoMemory>
    ensures { IfOk result (λ kinds. kinds ≡ map (λ b. number b) domains.now) }
{
    let mut kinds = Items::new(alloc);
    for domain in domains {
        kinds.push(kind_of(domain))?;
    }
    Ok(kinds)
}

fn kind_of(domain: &Box<dyn Domain>) -> u8
    ensures { result ≡ number domain.now }
{
    domain.kind()
}
