//! What the classes of a file have in common memory of what they declare.

ghost use Rattle.std.specs.Prelude.{◌≡◌, ℕ, List, IfOk};
ghost use Rattle.dexspec.specs.Mentions.{Mentions};
ghost use Rattle.dexmembers.specs.SharedMembers.{AreSharedMembers};
ghost use Rattle.dexmembers.specs.internal.SharedCodes.{debugs_in, stored_in};

use crate::code_list::{CodeList, StoredCode};
use crate::shared_codes::{SharedCode, SharedCodes};
use dexcode::{Code, Debug};
use dexpool::{SharedItem, SharedPool};
use dexval::SharedItems;
use std::alloc::{AllocError, Global};

/// What the classes of a file have in common memory: sets of annotations, static values, code and debug programs, each
/// once; or nothing, where each class has what it declares in memory of its own.
#[derive(Drop)]
pub struct SharedMembers<'a> {
    pub(crate) items: Option<SharedItems>,
    pub(crate) codes: Option<SharedCodePools<'a>>,
}

impl<'a> SharedMembers<'a> {
    /// Nothing: each class has what it declares in memory of its own.
    pub fn none() -> SharedMembers<'a>
        ensures { (b : List ℕ) (m : Mentions) → AreSharedMembers b m result }
    {
        SharedMembers {
            items: None,
            codes: None,
        }
    }

    /// Nothing yet: what classes declare is put there.
    pub fn empty(alloc: Global) -> SharedMembers<'a>
        ensures { (b : List ℕ) (m : Mentions) → AreSharedMembers b m result }
    {
        SharedMembers {
            items: Some(SharedItems::none(alloc)),
            codes: Some(SharedCodePools::none(alloc)),
        }
    }
}

/// The keys of the code of a list and of its debug programs. No clause speaks of them.
#[derive(Drop)]
pub(crate) struct CodeKeys {
    pub(crate) codes: Vec<u128>,
    pub(crate) debugs: Vec<u128>,
}

/// Code and debug programs by their keys, in memory that lists of methods share.
#[derive(Drop)]
pub(crate) struct SharedCodePools<'a> {
    codes: SharedPool<Code<'a>>,
    debugs: SharedPool<Debug<'a>>,
}

// The key at a place, or 0 where there is none.
fn key_at(keys: &[u128], place: usize) -> u128 {
    keys.get(place).copied().unwrap_or(0)
}

// Code as it is stored, in memory that lists share.
fn shared_codes<'a>(
    items: Vec<StoredCode<Code<'a>>>,
    keys: &[u128],
    pool: &mut SharedPool<Code<'a>>,
) -> Result<Vec<SharedCode<'a>>, AllocError>
    ensures { IfOk result (λ shared. stored_in shared.items ≡ items.entry.items) }
{
    let mut shared = Vec::with_capacity(*items.allocator(), items.len())?;
    for item in items {
        let StoredCode { code, debug } = item;
        let code = pool.share(key_at(keys, shared.len()), code)?;
        shared.push(StoredCode { code, debug })?;
    }
    Ok(shared)
}

// Debug programs in memory that lists share.
fn shared_debugs<'a>(
    debugs: Vec<Debug<'a>>,
    keys: &[u128],
    pool: &mut SharedPool<Debug<'a>>,
) -> Result<Vec<SharedItem<Debug<'a>>>, AllocError>
    ensures { IfOk result (λ shared. debugs_in shared.items ≡ debugs.entry.items) }
{
    let mut shared = Vec::with_capacity(*debugs.allocator(), debugs.len())?;
    for debug in debugs {
        let debug = pool.share(key_at(keys, shared.len()), debug)?;
        shared.push(debug)?;
    }
    Ok(shared)
}

impl<'a> SharedCodePools<'a> {
    // Nothing yet.
    fn none(alloc: Global) -> SharedCodePools<'a> {
        SharedCodePools {
            codes: SharedPool::none(alloc),
            debugs: SharedPool::none(alloc),
        }
    }

    /// The code of a list, in memory that other lists have too where their code or a debug program is the same.
    pub(crate) fn share(
        &mut self,
        list: CodeList<'a>,
        keys: &CodeKeys,
    ) -> Result<SharedCodes<'a>, AllocError>
        ensures { IfOk result (λ shared. shared ≡ list.entry) }
    {
        let CodeList { items, debugs } = list;
        let items = shared_codes(items, &keys.codes, &mut self.codes)?;
        let debugs = shared_debugs(debugs, &keys.debugs, &mut self.debugs)?;
        Ok(SharedCodes { items, debugs })
    }
}
