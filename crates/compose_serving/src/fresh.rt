//! The keysyms that the loads of a service may list as fresh.
ghost use Rattle.std.specs.Prelude.{map};
ghost use Rattle.compose_serving.specs.Fresh.{Allows};

use compose_answer::Refusal;
use compose_migration::look_up_keys;
use compose_service::Service;
use compose_tree::BuildTable;
use std::alloc::Global;

/// Returns the service with the keysyms of these names as the only ones that its loads may list as
/// fresh. O(bytes of the names).
///
/// Errors: `Key` with the index, from 0, of the first name that has no keysym, or `NoMemory` if
/// memory runs out.
pub fn allow_fresh<T: BuildTable>(
    alloc: Global,
    service: Service<T>,
    key_names: &[&str],
) -> Result<Service<T>, Refusal>
    ensures { Allows service (map (λ key_name. key_name.now) key_names.now) result }
{
    let keysyms = look_up_keys(alloc, service.names(), key_names)?;
    Ok(service.allow_fresh(keysyms))
}
