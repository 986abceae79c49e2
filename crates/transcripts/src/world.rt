//! What stands at a line of a case.

use crate::numbers::decimal;
use crate::sent::Sent;
use crate::stop::LineError;
use host_edge::{MemFolder, MemSink, NoMemory};
use std::alloc::{AllocError, Global};
use std::collections::BTreeMap;
use std::mem;

/// The files of a case's folder, the calls that are to fail in the next command, of each part
/// counted from 1, and what the chip of the last command was sent; a list of such, kept to be
/// compared with a later one.
pub struct World {
    files: BTreeMap<String, Vec<u8>>,
    failing_chip: Vec<u64>,
    failing_folder: Vec<u64>,
    failing_sink: Vec<u64>,
    sent: Vec<Sent>,
    has_sent: bool,
    kept: Vec<Sent>,
    has_kept: bool,
    pub alloc: Global,
}

impl Drop for World {
    fn drop(self) {
        let World {
            files: _,
            failing_chip: _,
            failing_folder: _,
            failing_sink: _,
            sent: _,
            has_sent: _,
            kept: _,
            has_kept: _,
            alloc: _,
        } = self;
    }
}

impl World {
    pub fn new(alloc: Global) -> World {
        World {
            files: BTreeMap::new(alloc),
            failing_chip: Vec::new(alloc),
            failing_folder: Vec::new(alloc),
            failing_sink: Vec::new(alloc),
            sent: Vec::new(alloc),
            has_sent: false,
            kept: Vec::new(alloc),
            has_kept: false,
            alloc,
        }
    }

    /// Gives another world the same files.
    pub fn copy_files(&self, other: &mut World) -> Result<(), AllocError> {
        for (name, bytes) in &self.files {
            other.set(name.as_str(), bytes)?;
        }
        Ok(())
    }

    pub fn file(&self, name: &str) -> Option<&[u8]> {
        match self.files.get(name) {
            Some(bytes) => Some(bytes.as_slice()),
            None => None,
        }
    }

    /// A file that has to be there.
    pub fn existing(&self, name: &str) -> Result<&[u8], LineError> {
        self.file(name).ok_or(LineError::Unread)
    }

    /// A file that has to be there, to be changed.
    pub fn changed(&mut self, name: &str) -> Result<&mut Vec<u8>, LineError> {
        self.files.get_mut(name).ok_or(LineError::Unread)
    }

    /// The file of a name, which is empty now, to be written.
    pub fn begun(&mut self, name: &str) -> Result<&mut Vec<u8>, LineError> {
        if name.is_empty() {
            return Err(LineError::Unread);
        }
        self.set(name, b"")?;
        self.changed(name)
    }

    /// Sets the file of a name to these bytes.
    pub fn set(&mut self, name: &str, bytes: &[u8]) -> Result<(), AllocError> {
        let name = String::from_str(self.alloc, name)?;
        self.files.insert(name, bytes.to_vec(self.alloc)?)?;
        Ok(())
    }

    /// Makes another file the same.
    pub fn copy(&mut self, name: &str, other: &str) -> Result<(), LineError> {
        let bytes = self.existing(name)?.to_vec(self.alloc)?;
        let other = String::from_str(self.alloc, other)?;
        self.files.insert(other, bytes)?;
        Ok(())
    }

    /// Lets a call of a part fail in the next command.
    pub fn fail(&mut self, part: &str, call: &str) -> Result<(), LineError> {
        let call: u64 = decimal(call)?;
        let list = match part {
            "chip" => &mut self.failing_chip,
            "folder" => &mut self.failing_folder,
            "sink" => &mut self.failing_sink,
            _ => return Err(LineError::Unread),
        };
        if call == 0 {
            return Err(LineError::Unread);
        }
        list.push(call)?;
        Ok(())
    }

    /// Whether calls are to fail in the next command.
    pub fn is_failing(&self) -> bool {
        !self.failing_chip.is_empty()
            || !self.failing_folder.is_empty()
            || !self.failing_sink.is_empty()
    }

    /// The calls of the chip that are to fail; none are any more.
    pub fn take_failing(&mut self) -> Vec<u64> {
        mem::replace(&mut self.failing_chip, Vec::new(self.alloc))
    }

    /// Gives an empty folder these files and the calls that fail in it; none are to fail any more.
    pub fn fill(&mut self, folder: &mut MemFolder) -> Result<(), NoMemory> {
        for (name, bytes) in &self.files {
            folder.put_file(name.as_str(), bytes)?;
        }
        for call in &self.failing_folder {
            folder.fail_at(*call)?;
        }
        self.failing_folder.clear();
        Ok(())
    }

    /// Gives a sink the calls that fail in it; none are to fail any more.
    pub fn set_failing(&mut self, out: &mut MemSink) -> Result<(), NoMemory> {
        for call in &self.failing_sink {
            out.fail_at(*call)?;
        }
        self.failing_sink.clear();
        Ok(())
    }

    /// Whether each file is as in the folder.
    pub fn is_as_in(&self, folder: &MemFolder) -> bool {
        for (name, bytes) in &self.files {
            if folder.file(name.as_str()) != Some(bytes.as_slice()) {
                return false;
            }
        }
        true
    }

    /// Keeps what the chip of a command was sent.
    pub fn hear(&mut self, sent: Vec<Sent>) {
        self.sent = sent;
        self.has_sent = true;
    }

    /// What the chip of the last command was sent.
    pub fn heard(&self) -> Result<&[Sent], LineError> {
        if self.has_sent {
            Ok(self.sent.as_slice())
        } else {
            Err(LineError::Unread)
        }
    }

    /// Keeps it to be compared with.
    pub fn keep(&mut self) -> Result<(), LineError> {
        self.kept = self.heard()?.to_vec(self.alloc)?;
        self.has_kept = true;
        Ok(())
    }

    /// What was kept.
    pub fn kept(&self) -> Result<&[Sent], LineError> {
        if self.has_kept {
            Ok(self.kept.as_slice())
        } else {
            Err(LineError::Unread)
        }
    }
}
