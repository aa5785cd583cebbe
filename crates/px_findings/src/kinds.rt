ghost use Rattle.std.specs.Prelude.{◌≡◌, map, IfOk};

use px_terms::{Domain, Items, NoMemory};
use std::alloc::Global;

/// The kinds of domains, in their order.
pub fn kinds_of(alloc: Global, domains: &[Box<dyn Domain>]) -> Result<Items<u8>, NoMemory>
    ensures { IfOk result (λ kinds. kinds ≡ map (λ b. number b) domains.now) }
{
    let mut kinds = Items::new(alloc);
    for domain in domains {
        kinds.push(kind(domain))?;
    }
    Ok(kinds)
}

fn kind(domain: &Box<dyn Domain>) -> u8
    ensures { result ≡ number domain.now }
{
    domain.kind()
}
