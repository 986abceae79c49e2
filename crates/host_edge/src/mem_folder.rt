//! A folder in memory, whose calls fail where they are set to.

ghost use Rattle.std.specs.Prelude.{◌≡◌, ℕ, List, ◌+◌, ◌≤◌, length, Some, None, IfOk, OnOk, OnErr};
ghost use Rattle.std.specs.Prelude.{IsErrOf, IfSome, IsSomeAnd, IsTrue, ◌↔◌, ◌||◌, ◌++◌, ◌∷◌, []};
ghost use Rattle.std.specs.Prelude.{IsErr};
ghost use Rattle.std.specs.Option.{option_copied};
ghost use Rattle.host_edge.specs.Mem.{files_of, faults_of, counts_for, is_absent, folder_view};
ghost use Rattle.host_edge.specs.Mem.{folder_plan};
ghost use Rattle.faults.specs.Plans.{is_due, next_call};
ghost use Rattle.host_edge.specs.Views.{FolderView, Known, NoCountFalls};
ghost use Rattle.faults.specs.Counts.{Rose, RoseBy, raised};
ghost use Rattle.host_edge.specs.Views.{SameLoadFaults, HasNoFaults, HasBytes, IsLonger};
ghost use Rattle.host_edge.specs.Views.{KeepsOthers, SameFiles, CountsFault, Unfailed};

use crate::NoMemory;
use crate::answer::{Failed, LoadNo};
use crate::folder::Folder;
use faults::{CallPlan, raised};
use std::alloc::Global;
use std::collections::BTreeMap;

/// A file, and the load faults of its name.
#[derive(Drop)]
struct Kept {
    bytes: Vec<u8>,
    load_faults: u64,
}

/// Keeps files by name. A call that is set to fail, a load of a name without a file and a store
/// that finds no
/// memory are faults. A name with a file has a count of load faults of its own, which starts with
/// the count
/// that all names without a file share.
#[derive(Drop)]
pub struct MemFolder {
    files: BTreeMap<String, Kept>,
    other_load_faults: u64,
    store_faults: u64,
    taken: u64,
    plan: CallPlan,
    alloc: Global,
}

/// The count of load faults of this name.
fn fault_count(files: &BTreeMap<String, Kept>, others: u64, name: &str) -> u64
    ensures { result ≡ faults_of files.now others name.now }
{
    match files.get(name) {
        Some(kept) => kept.load_faults,
        None => others,
    }
}

/// Counts a fault of a load of this name.
fn count_load_fault(files: &mut BTreeMap<String, Kept>, others: &mut u64, name: &str)
    ensures files { SameFiles (files_of files.old) (files_of files.new) }
    ensures counts { CountsFault (counts_for (files_of files.old) name.now)
        (faults_of files.old others.old) (faults_of files.new others.new) }
    ensures none_falls { (q : List ℕ) → faults_of files.old others.old q
        ≤ faults_of files.new others.new q }
{
    if let Some(kept) = files.get_mut(name) {
        kept.load_faults = raised(kept.load_faults, 1);
    } else {
        *others = raised(*others, 1);
    }
}

/// Sets the file of this name to the bytes and leaves its count, or leaves all as it is.
fn set_file(
    files: &mut BTreeMap<String, Kept>,
    others: u64,
    name: &str,
    bytes: &[u8],
    alloc: Global,
) -> Result<(), NoMemory>
    ensures others { KeepsOthers name.now (files_of files.old) (files_of files.new) }
    ensures stored { OnOk result (files_of files.new name.now ≡ Some bytes.now) }
    ensures unchanged { OnErr result (SameFiles (files_of files.old) (files_of files.new)) }
    ensures counts { (q : List ℕ) → faults_of files.new others q ≡ faults_of files.old others q }
{
    let load_faults = fault_count(files, others, name);
    let key = String::from_str(alloc, name).map_err(|_| NoMemory)?;
    let bytes = Vec::from_slice(alloc, bytes).map_err(|_| NoMemory)?;
    match files.insert(key, Kept { bytes, load_faults }) {
        Ok(_) => Ok(()),
        Err(_) => Err(NoMemory),
    }
}

impl MemFolder {
    pub fn new(alloc: Global) -> MemFolder
        ensures files { IsSomeAnd (folder_view result).holds (λ files. (q : List ℕ)
            → files q ≡ None) }
        ensures faults { HasNoFaults (folder_view result) }
        ensures plan { folder_plan result ≡ record { calls = 0; failing = [] } }
    {
        MemFolder {
            files: BTreeMap::new(alloc),
            other_load_faults: 0,
            store_faults: 0,
            taken: 0,
            plan: CallPlan::new(alloc),
            alloc,
        }
    }

    /// Sets the file to the bytes. It is no call of the folder: it cannot be set to fail, and
    /// counts nothing.
    pub fn put_file(&mut self, name: &str, bytes: &[u8]) -> Result<(), NoMemory>
        ensures others { Known (KeepsOthers name.now) (folder_view self.old).holds
            (folder_view self.new).holds }
        ensures stored { OnOk result (HasBytes (folder_view self.new) name.now bytes.now) }
        ensures unchanged { OnErr result (Known SameFiles (folder_view self.old).holds
            (folder_view self.new).holds) }
        ensures load_faults { SameLoadFaults (folder_view self.old) (folder_view self.new) }
        ensures store_faults { (folder_view self.new).store_faults
            ≡ (folder_view self.old).store_faults }
        ensures taken { (folder_view self.new).taken ≡ (folder_view self.old).taken }
        ensures plan { folder_plan self.new ≡ folder_plan self.old }
    {
        set_file(
            &mut self.files,
            self.other_load_faults,
            name,
            bytes,
            self.alloc,
        )
    }

    /// Lets the call of this number fail. Loads and stores are counted together, from 1.
    pub fn fail_at(&mut self, call: u64) -> Result<(), NoMemory>
        ensures view { folder_view self.new ≡ folder_view self.old }
        ensures listed { OnOk result (folder_plan self.new
            ≡ record (folder_plan self.old) {
              failing = (folder_plan self.old).failing ++ call
                  ∷ [];
            }) }
        ensures unlisted { OnErr result (folder_plan self.new ≡ folder_plan self.old) }
    {
        self.plan.fail_at(call)
    }

    pub fn file(&self, name: &str) -> Option<&[u8]>
        ensures { IsSomeAnd (folder_view self.now).holds (λ files. option_copied result
            ≡ files name.now) }
    {
        match self.files.get(name) {
            Some(kept) => Some(kept.bytes.as_slice()),
            None => None,
        }
    }
}

impl Folder for MemFolder {
    ghost view = { folder_view };

    fn load(&mut self, name: &str, limit: u64, alloc: Global) -> Result<Vec<u8>, LoadNo>
        ensures files { (folder_view self.new).holds ≡ (folder_view self.old).holds }
        ensures counts { NoCountFalls (folder_view self.old) (folder_view self.new) }
        ensures bytes { IfOk result (λ bytes. HasBytes (folder_view self.old) name.now
            bytes.items) }
        ensures within { IfOk result (λ bytes. length bytes.items ≤ limit) }
        ensures unfailed { OnOk result (Unfailed (folder_view self.old) (folder_view self.new)) }
        ensures failed { IsErrOf result LoadNo.Failed
            → Rose ((folder_view self.old).load_faults name.now)
            ((folder_view self.new).load_faults name.now) }
        ensures too_long { IsErrOf result LoadNo.TooLong
            → RoseBy (limit + 1) (folder_view self.old).taken (folder_view self.new).taken }
        ensures longer { IsErrOf result LoadNo.TooLong
            → IsLonger limit (folder_view self.old) name.now }
        ensures failed_where { IsErrOf result LoadNo.Failed
            ↔ IsTrue (is_due (folder_plan self.old) || is_absent (folder_view self.old) name.now) }
        ensures plan { folder_plan self.new ≡ next_call (folder_plan self.old) }
        ensures taken { IfOk result (λ bytes. (folder_view self.new).taken
            ≡ raised (length bytes.items) (folder_view self.old).taken) }
        ensures no_fault { ¬ IsErrOf result LoadNo.Failed
            → SameLoadFaults (folder_view self.old) (folder_view self.new) }
        ensures fault { IsErrOf result LoadNo.Failed
            → IsSomeAnd (folder_view self.old).holds
            (λ files. CountsFault (counts_for files name.now) (folder_view self.old).load_faults
            (folder_view self.new).load_faults) }
        ensures no_store_fault { (folder_view self.new).store_faults
            ≡ (folder_view self.old).store_faults }
    {
        let fails = self.plan.next();
        let bytes = match self.files.get(name) {
            Some(kept) if !fails => kept.bytes.as_slice(),
            _ => {
                count_load_fault(&mut self.files, &mut self.other_load_faults, name);
                return Err(LoadNo::Failed);
            }
        };
        let length = bytes.len() as u64;
        if limit < length {
            self.taken = raised(self.taken, length);
            return Err(LoadNo::TooLong);
        }
        let copy = Vec::from_slice(alloc, bytes).map_err(|_| LoadNo::NoMemory)?;
        self.taken = raised(self.taken, length);
        Ok(copy)
    }

    fn store(&mut self, name: &str, bytes: &[u8]) -> Result<(), Failed>
        ensures others { Known (KeepsOthers name.now) (folder_view self.old).holds
            (folder_view self.new).holds }
        ensures counts { NoCountFalls (folder_view self.old) (folder_view self.new) }
        ensures stored { OnOk result (HasBytes (folder_view self.new) name.now bytes.now) }
        ensures unfailed { OnOk result (Unfailed (folder_view self.old) (folder_view self.new)) }
        ensures failed { OnErr result (Rose (folder_view self.old).store_faults
            (folder_view self.new).store_faults) }
        ensures unchanged { OnErr result (Known SameFiles (folder_view self.old).holds
            (folder_view self.new).holds) }
        ensures due { IsTrue (is_due (folder_plan self.old)) → IsErr result }
        ensures plan { folder_plan self.new ≡ next_call (folder_plan self.old) }
        ensures no_load_fault { SameLoadFaults (folder_view self.old) (folder_view self.new) }
        ensures taken { (folder_view self.new).taken ≡ (folder_view self.old).taken }
    {
        let fails = self.plan.next();
        if !fails && self.put_file(name, bytes).is_ok() {
            Ok(())
        } else {
            self.store_faults = raised(self.store_faults, 1);
            Err(Failed)
        }
    }
}
