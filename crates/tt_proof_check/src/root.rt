//! Paths that begin with the facts of a root.

ghost use Rattle.std.specs.Prelude.{◌≡◌, ◌<◌, [], length, Err, IfOk, OnOk};
ghost use Rattle.tt_path.specs.declared.path.TheConstants.{MAX_FACTS};

use std::alloc::Global;
use tt_instance::Instance;
use tt_path::{Fact, Path, PathFault};
use tt_path_trail::TrailPath;

/// Removes all facts of a path.
fn clear<'i, P: Path<'i>>(path: &mut P)
    ensures empty { P.facts path.new ≡ [] }
    ensures unchanged { P.problem path.new ≡ P.problem path.old }
{
    while path.depth() > 0 {
        let _ = path.pop();
    }
}

/// Replaces the facts of a path with those of a root, in their order.
pub fn restart<'i, P: Path<'i>>(path: &mut P, root: &[Fact]) -> Result<(), PathFault>
    ensures facts { OnOk result (P.facts path.new ≡ root.now) }
    ensures deep { result ≡ Err PathFault.TooDeep → MAX_FACTS < length root.now }
    ensures unchanged { P.problem path.new ≡ P.problem path.old }
{
    clear(path);
    for fact in root {
        path.push(*fact)?;
    }
    Ok(())
}

/// Creates a path with the facts of a root, in their order.
pub fn start_path<'p, 'i>(
    alloc: Global,
    instance: &'p Instance<'i>,
    root: &[Fact],
) -> Result<TrailPath<'p, 'i>, PathFault>
    ensures problem { IfOk result (λ s. s.problem ≡ instance.now) }
    ensures facts { IfOk result (λ s. s.facts ≡ root.now) }
    ensures deep { result ≡ Err PathFault.TooDeep → MAX_FACTS < length root.now }
{
    let mut path = match TrailPath::new(alloc, instance) {
        Ok(path) => path,
        Err(_) => return Err(PathFault::OutOfMemory),
    };
    restart(&mut path, root)?;
    Ok(path)
}
