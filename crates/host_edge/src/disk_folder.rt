//! The files of the file system, which tells no content.

ghost use Rattle.std.specs.Prelude.{◌≡◌, ◌≢◌, ℕ, ◌+◌, ◌<◌, ◌≤◌, length, Some, None, IfOk, OnOk};
ghost use Rattle.std.specs.Prelude.{OnErr, IsErrOf, slice_index, take, position, IfSome};
ghost use Rattle.std.specs.Str.{bytes_eq};
ghost use Rattle.host_edge.specs.Disk.{place_of, counts_together, words_of, disk_view};
ghost use Rattle.host_edge.specs.Views.{FolderView, Known, NoCountFalls};
ghost use Rattle.faults.specs.Counts.{Rose, RoseBy, raised};
ghost use Rattle.host_edge.specs.Views.{SameLoadFaults, CountsFault, HasBytes, IsLonger};
ghost use Rattle.host_edge.specs.Views.{KeepsOthers, HasNoFaults, Unfailed};

use crate::answer::{Failed, LoadNo};
use crate::disk_file::set_file;
use crate::folder::Folder;
use crate::stream::read_whole;
use faults::raised;
use std::alloc::Global;
use std::fs;

/// Files of the file system. Each of the first eight words of the command line has a count of load
/// faults of
/// its own, which equal words share, and all other names have one.
#[derive(Drop)]
pub struct DiskFolder<'a> {
    rt: HostRuntime,
    words: &'a [&'a str],
    load_faults: [u64; 9],
    store_faults: u64,
    taken: u64,
}

impl<'a> DiskFolder<'a> {
    pub fn new(rt: HostRuntime, words: &'a [&'a str]) -> DiskFolder<'a>
        ensures known { (disk_view result).holds ≡ None }
        ensures faults { HasNoFaults (disk_view result) }
        ensures words { words_of result ≡ words.now }
    {
        DiskFolder {
            rt,
            words,
            load_faults: [0; 9],
            store_faults: 0,
            taken: 0,
        }
    }
}

/// The words that have counts of their own.
fn counted<'a, 'b>(words: &'b [&'a str]) -> &'b [&'a str]
    ensures value { result.now ≡ take 8 words.now }
    ensures few { length result.now ≤ 8 }
{
    if words.len() < 8 { words } else { &words[..8] }
}

/// Where the name stands first.
fn position_of(words: &[&str], name: &str) -> Option<usize>
    ensures value { result ≡ position (λ word. bytes_eq word.now name.now) words.now }
    ensures bound { IfSome result (λ at. at < length words.now) }
{
    words.iter().position(|word| *word == name)
}

/// The place of the count that the faults of this name go to.
fn place(words: &[&str], name: &str) -> usize
    ensures value { result ≡ place_of words.now name.now }
    ensures bound { result < 9 }
{
    position_of(counted(words), name).unwrap_or(8)
}

/// Counts a fault of a load of this name.
fn count_fault(counts: &mut [u64; 9], words: &[&str], name: &str)
    ensures raised { slice_index counts.new (place_of words.now name.now)
        ≡ raised 1 (slice_index counts.old (place_of words.now name.now)) }
    ensures others { (at : ℕ) → at ≢ place_of words.now name.now
        → slice_index counts.new at ≡ slice_index counts.old at }
    ensures none_falls { (at : ℕ) → slice_index counts.old at ≤ slice_index counts.new at }
{
    let at = place(words, name);
    counts[at] = raised(counts[at], 1);
}

impl Folder for DiskFolder<'_> {
    ghost view = { disk_view };

    fn load(&mut self, name: &str, limit: u64, alloc: Global) -> Result<Vec<u8>, LoadNo>
        ensures files { (disk_view self.new).holds ≡ (disk_view self.old).holds }
        ensures counts { NoCountFalls (disk_view self.old) (disk_view self.new) }
        ensures bytes { IfOk result (λ bytes. HasBytes (disk_view self.old) name.now bytes.items) }
        ensures within { IfOk result (λ bytes. length bytes.items ≤ limit) }
        ensures unfailed { OnOk result (Unfailed (disk_view self.old) (disk_view self.new)) }
        ensures failed { IsErrOf result LoadNo.Failed
            → Rose ((disk_view self.old).load_faults name.now)
            ((disk_view self.new).load_faults name.now) }
        ensures too_long { IsErrOf result LoadNo.TooLong
            → RoseBy (limit + 1) (disk_view self.old).taken (disk_view self.new).taken }
        ensures longer { IsErrOf result LoadNo.TooLong
            → IsLonger limit (disk_view self.old) name.now }
        ensures taken { IfOk result (λ bytes. (disk_view self.new).taken
            ≡ raised (length bytes.items) (disk_view self.old).taken) }
        ensures no_fault { ¬ IsErrOf result LoadNo.Failed
            → SameLoadFaults (disk_view self.old) (disk_view self.new) }
        ensures fault { IsErrOf result LoadNo.Failed
            → CountsFault (counts_together (words_of self.old) name.now)
            (disk_view self.old).load_faults (disk_view self.new).load_faults }
        ensures words { words_of self.new ≡ words_of self.old }
        ensures no_store_fault { (disk_view self.new).store_faults
            ≡ (disk_view self.old).store_faults }
    {
        let (taken, answer) = match fs::open(&self.rt, name) {
            Ok(mut file) => read_whole(&mut file, limit, alloc),
            Err(_) => (0, Err(LoadNo::Failed)),
        };
        self.taken = raised(self.taken, taken);
        if let Err(LoadNo::Failed) = &answer {
            count_fault(&mut self.load_faults, self.words, name);
        }
        answer
    }

    fn store(&mut self, name: &str, bytes: &[u8]) -> Result<(), Failed>
        ensures others { Known (KeepsOthers name.now) (disk_view self.old).holds
            (disk_view self.new).holds }
        ensures counts { NoCountFalls (disk_view self.old) (disk_view self.new) }
        ensures stored { OnOk result (HasBytes (disk_view self.new) name.now bytes.now) }
        ensures unfailed { OnOk result (Unfailed (disk_view self.old) (disk_view self.new)) }
        ensures failed { OnErr result (Rose (disk_view self.old).store_faults
            (disk_view self.new).store_faults) }
        ensures no_load_fault { SameLoadFaults (disk_view self.old) (disk_view self.new) }
        ensures taken { (disk_view self.new).taken ≡ (disk_view self.old).taken }
        ensures words { words_of self.new ≡ words_of self.old }
    {
        if set_file(&self.rt, name, bytes) {
            Ok(())
        } else {
            self.store_faults = raised(self.store_faults, 1);
            Err(Failed)
        }
    }
}
