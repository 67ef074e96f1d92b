// What a client is known to know.
ghost use Rattle.std.specs.Prelude.{◌≡◌, ◌≤◌, ◌<◌, ◌∷◌, ◌||◌, [], ℕ, List, length, filter, not, nat_eq, OnOk, OnErr};
ghost use Rattle.std.specs.HashSet.{contains, spare};
ghost use Rattle.protocol_model.specs.World.{class_at};
ghost use Rattle.class_layout.specs.Tables.{table_in};
ghost use Rattle.netguid_map.specs.Paths.{Knows, IsListed, is_in_path, needed_of};

use bit_io::Memory;
use class_layout::{Classes, Guid, GuidList};
use std::alloc::Global;
use std::collections::HashSet;
use std::marker::Model;

/// The segments that a client is known to know, by their guids. These are guids of the server's own
/// table, 1,024 at most.
#[derive(Drop)]
pub struct Paths {
    alloc: Global,
    known: HashSet<u32>,
}

impl Model for Paths {
    ghost use Rattle.std.specs.Prelude.{List, ℕ};

    ghost Value = { List ℕ };

    ghost view = { λ p. p.known.keys };
}

impl Paths {
    /// Nothing is known; later calls take memory of this allocator.
    pub fn new(alloc: Global) -> Paths
        ensures { Knows result [] }
    {
        Paths {
            alloc,
            known: HashSet::new(alloc),
        }
    }

    /// The guids of a class's path that aren't known, outermost first. The class is a place in the
    /// table. `Memory` comes only where some are needed.
    pub fn needed(&self, classes: &Classes, class: u16) -> Result<GuidList, Memory>
        requires { class < length classes.now.classes }
        ensures { (paths : List (List ℕ)) → Knows self.now paths
            → IsListed (needed_of paths (class_at (table_in classes.now) class)) result }
    {
        match classes.class(class) {
            Some(class) => unknown(self.alloc, &self.known, class.path.as_slice()),
            None => Ok(GuidList::new(self.alloc)),
        }
    }

    /// The segments of a path are known from now on. `Memory` changes nothing.
    pub fn known(&mut self, path: &GuidList) -> Result<(), Memory>
        ensures knows { OnOk result ((paths : List (List ℕ)) → Knows self.old paths
            → Knows self.new (path.now ∷ paths)) }
        ensures err { OnErr result (self.new ≡ self.old) }
    {
        self.known.reserve(path.len())?;
        put_all(&mut self.known, path.as_slice());
        Ok(())
    }
}

/// The guids of a path that aren't in the set.
fn unknown(alloc: Global, known: &HashSet<u32>, path: &[Guid]) -> Result<GuidList, Memory>
    ensures { IsListed (filter (λ g. not (contains nat_eq known.now g)) path.now) result }
{
    let mut guids = GuidList::new(alloc);
    for guid in path {
        if !known.contains(&guid.0) {
            let Ok(()) = guids.push(*guid) else {
                return Err(Memory);
            };
        }
    }
    Ok(guids)
}

/// Puts the guids of a path into a set that has room for them.
fn put_all(known: &mut HashSet<u32>, path: &[Guid])
    requires { length path.now ≤ spare known.old }
    ensures { (g : ℕ) → contains nat_eq known.new g
        ≡ (is_in_path g path.now || contains nat_eq known.old g) }
{
    for guid in path {
        known.insert(guid.0).unwrap();
    }
}
