//! The trust list.

ghost use Rattle.std.specs.Prelude.{◌≡◌, ◌<◌, ◌≤◌, [], length, IfOk, IfSome, MatchOption};
ghost use Rattle.std.specs.Arc.{arc_value};
ghost use Rattle.std.specs.Option.{option_copied};
ghost use Rattle.cs_trust.specs.Listed.{listed};
ghost use Rattle.cs_policy.specs.declared.trust.TrustEvent.TheVariants.{LoadModule, Lookup};
ghost use Rattle.pg_trusted.specs.TrustStep.{cache_at, trust_step};
ghost use Rattle.pg_trusted.specs.Kept.{entries_of, tables_of, IsTableOf, opened};

use cs_policy::{Refusal, TrustReply};
use cs_trust::{Module, StaticTrust};
pub use std::alloc::AllocError as NoMemory;
use std::alloc::Global;
use std::marker::Model;
use std::sync::Arc;

/// The most modules that can be loaded.
pub const MAX_LOADED: u32 = 64;

/// The trust list, seen as its static modules, its declared caches and its loaded modules. It keeps which caches
/// were loaded, and copies no module.
#[derive(Drop)]
pub struct Trusted {
    fixed: Arc<StaticTrust>,
    caches: Vec<Result<Module, Refusal>>,
    loaded: Vec<u32>,
}

impl Model for Trusted {
    ghost use Rattle.std.specs.Prelude.{◌≤◌, vec_len};
    ghost use Rattle.std.specs.Vec.{vec_capacity};
    ghost use Rattle.std.specs.Arc.{arc_value};
    ghost use Rattle.pg_trusted.specs.TrustStep.{TrustList};
    ghost use Rattle.pg_trusted.specs.Kept.{list_of};

    ghost Value = { TrustList };

    ghost view = { λ t. list_of (arc_value t.fixed) t.caches.items t.loaded.items };

    ghost invariant = { λ t. (vec_len t.loaded ≤ 64) × (64 ≤ vec_capacity t.loaded) };
}

/// The module of a cache; `None` where the cache was refused or is not declared, and so lists nothing.
fn module_of(caches: &[Result<Module, Refusal>], cache: u32) -> Option<&Module>
    ensures { IsTableOf (entries_of (cache_at caches.now cache)) (option_copied result) }
{
    let cache = cache as usize;
    if cache >= caches.len() {
        return None;
    }
    match &caches[cache] {
        Ok(found) => Some(found),
        Err(_) => None,
    }
}

/// Where the modules of the loaded caches list a cdhash, the first loaded one having the number 0.
fn look_loaded(
    caches: &[Result<Module, Refusal>],
    loaded: &[u32],
    cdhash: &[u8; 20],
) -> Option<(u32, u64)>
    requires { length loaded.now ≤ 64 }
    ensures place { result ≡ listed (tables_of caches.now loaded.now) cdhash.now }
    ensures within { IfSome result (λ found. found.0 < 64) }
{
    for (number, cache) in loaded.iter().enumerate() {
        if let Some(found) = module_of(caches, *cache) {
            if let Some(place) = found.look(cdhash) {
                return Some((number as u32, place));
            }
        }
    }
    None
}

impl Trusted {
    /// The list of these static modules and declared caches, of which none is loaded yet. A cache whose bytes
    /// were refused stands as its refusal. All memory that the list needs is taken here: `NoMemory` comes where
    /// there is none for the numbers of 64 loaded caches.
    pub fn open(
        alloc: Global,
        fixed: Arc<StaticTrust>,
        caches: Vec<Result<Module, Refusal>>,
    ) -> Result<Trusted, NoMemory>
        ensures { IfOk result (λ list. list ≡ opened (arc_value fixed) caches.items) }
    {
        Ok(Trusted {
            loaded: Vec::with_capacity(alloc, MAX_LOADED as usize)?,
            fixed,
            caches,
        })
    }

    /// Loads a declared cache, of which the first has the number 0. A cache may be loaded several times and is
    /// then several modules. The reply is Refused where its bytes were refused, Full where 64 modules are loaded,
    /// and else Loaded.
    pub fn load(&mut self, cache: u32) -> TrustReply
        requires { cache < length self.old.caches }
        ensures reply { result ≡ (trust_step self.old (LoadModule cache)).0 }
        ensures list { self.new ≡ (trust_step self.old (LoadModule cache)).1 }
        ensures fixed { self.new.fixed ≡ self.old.fixed }
        ensures caches { self.new.caches ≡ self.old.caches }
    {
        if let Err(refusal) = &self.caches[cache as usize] {
            return TrustReply::Refused(*refusal);
        }
        let loaded = self.loaded.len() as u32;
        if loaded == MAX_LOADED {
            return TrustReply::Full { limit: MAX_LOADED };
        }
        self.loaded.push_reserved(cache);
        TrustReply::Loaded {
            module: self.fixed.len() + loaded,
        }
    }

    /// Looks a cdhash up: Listed with the least module and in it the least place that have it, or Unlisted
    /// exactly where no entry of any module has it.
    pub fn lookup(&self, cdhash: &[u8; 20]) -> TrustReply
        ensures { result ≡ (trust_step self.now (Lookup cdhash.now)).0 }
    {
        if let Some((module, place)) = self.fixed.look(cdhash) {
            return TrustReply::Listed { module, place };
        }
        match look_loaded(&self.caches, &self.loaded, cdhash) {
            Some((number, place)) => TrustReply::Listed {
                module: self.fixed.len() + number,
                place,
            },
            None => TrustReply::Unlisted,
        }
    }

    /// The static modules, which can also be searched without the list.
    pub fn fixed(&self) -> &Arc<StaticTrust>
        ensures { arc_value result.now ≡ self.now.fixed }
    {
        &self.fixed
    }
}
