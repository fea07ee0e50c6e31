// Files in memory.
ghost use Rattle.std.specs.Prelude.{◌≡◌, ◌<◌, ◌≤◌, [], length, map, None, Some, IfOk, OnOk, OnErr, IsErrOf, IsOkUnless, option_map};
ghost use Rattle.ap_outside.specs.Faults.{Rises};
ghost use Rattle.ap_outside.specs.Files.{content_of, HasContent};
ghost use Rattle.ap_outside.specs.MemFiles.{entries_of};

use crate::{FileErr, Files, Got};
use std::alloc::{AllocError, Global};

#[derive(Drop)]
struct MemFile {
    name: String,
    content: Vec<u8>,
}

/// Files in memory. A name that none of them has is a fault.
#[derive(Drop)]
pub struct MemFiles {
    files: Vec<MemFile>,
    faults: u64,
}

impl MemFiles {
    /// Files of these names and bytes, the first of a name counting.
    pub fn new(alloc: Global, files: &[(&str, &[u8])]) -> Result<MemFiles, AllocError>
        ensures entries { IfOk result (λ made. ⟦<MemFiles as Files>⟧.entries made ≡ Some (map (λ file. (file.0.now, file.1.now)) files.now)) }
        ensures faults { IfOk result (λ made. ⟦<MemFiles as Files>⟧.faults made ≡ 0) }
    {
        let mut list = Vec::new(alloc);
        for (name, content) in files {
            list.push(MemFile {
                name: name.to_string(alloc)?,
                content: content.to_vec(alloc)?,
            })?;
        }
        Ok(MemFiles {
            files: list,
            faults: 0,
        })
    }
}

// The first file of that name.
fn find_file<'a>(files: &'a [MemFile], name: &str) -> Option<&'a MemFile>
    ensures { option_map (λ file. file.now.content.items) result ≡ content_of (entries_of files.now) name.now }
{
    for file in files {
        if file.name.as_str() == name {
            return Some(file);
        }
    }
    None
}

// Copies content that is at most `limit` long.
fn copy_within(content: &[u8], into: &mut Vec<u8>, limit: u64) -> Result<Got, FileErr>
    requires { into.old.items ≡ [] }
    ensures whole { result ≡ Ok Got.Whole → into.new.items ≡ content.now }
    ensures fits { result ≡ Ok Got.Whole → length content.now ≤ limit }
    ensures too_long { result ≡ Ok Got.TooLong → limit < length content.now }
    ensures emptied { result ≡ Ok Got.TooLong → into.new.items ≡ [] }
    ensures emptied_err { OnErr result (into.new.items ≡ []) }
    ensures memory { IsOkUnless result FileErr.NoMemory }
{
    if content.len() as u64 > limit {
        return Ok(Got::TooLong);
    }
    match into.extend_from_slice(content) {
        Ok(()) => Ok(Got::Whole),
        Err(_) => Err(FileErr::NoMemory),
    }
}

impl Files for MemFiles {
    ghost entries = { λ s. Some (entries_of s.files.items) };

    ghost faults = { λ s. s.faults };

    fn read(&mut self, name: &str, into: &mut Vec<u8>, limit: u64) -> Result<Got, FileErr>
        ensures whole { result ≡ Ok Got.Whole → HasContent (Some (entries_of self.old.files.items)) name.now (λ bytes. into.new.items ≡ bytes) }
        ensures fits { result ≡ Ok Got.Whole → length into.new.items ≤ limit }
        ensures too_long { result ≡ Ok Got.TooLong → HasContent (Some (entries_of self.old.files.items)) name.now (λ bytes. limit < length bytes) }
        ensures emptied { result ≡ Ok Got.TooLong → into.new.items ≡ [] }
        ensures emptied_err { OnErr result (into.new.items ≡ []) }
        ensures same { self.new.files ≡ self.old.files }

        // It fails at names that it does not have.
        ensures missing { IsErrOf result FileErr.Failed → content_of (entries_of self.old.files.items) name.now ≡ None }
        ensures cause { IsErrOf result FileErr.Failed → Rises self.old.faults self.new.faults }
        ensures counted { OnOk result (self.new.faults ≡ self.old.faults) }
        ensures counted_memory { IsErrOf result FileErr.NoMemory → self.new.faults ≡ self.old.faults }
    {
        into.clear();
        match find_file(&self.files, name) {
            None => {
                self.faults = self.faults.saturating_add(1);
                Err(FileErr::Failed)
            }
            Some(file) => copy_within(&file.content, into, limit),
        }
    }
}
