//! The balanced collection of an optimum.

ghost use Rattle.std.specs.Prelude.{◌≡◌, IfOk};
ghost use Rattle.kohlberg.specs.Pairs.{placed};
ghost use Rattle.balanced_collections.specs.Collections.{CollectionData};

use balanced_collections::Collection;
use coalitions::Coalition;
use fractions::OutOfMemory;
use kohlberg::put_pair;
use simplex::Optimal;
use std::alloc::Global;

/// The coalitions that have a weight in an optimum, in mask order, over the weights' denominator.
pub(crate) fn collection_of(alloc: Global, best: &Optimal) -> Result<Collection, OutOfMemory>
    ensures { IfOk result (λ c. c ≡ record { weights = placed best.now.weights.items; k = best.now.weight_den }) }
{
    let mut weights = Vec::new(alloc);
    for (id, weight) in best.weights.as_slice() {
        put_pair(&mut weights, Coalition(*id), *weight)?;
    }
    Ok(Collection {
        weights,
        k: best.weight_den,
    })
}
