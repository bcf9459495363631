ghost use Rattle.std.specs.Prelude.{◌≡◌, ◌≤◌, IfOk, OnOk, IsErrOf, vec_len, length, string_bytes, option_copied, take, Some};
ghost use Rattle.std.specs.List.{position};
ghost use Rattle.std.specs.Str.{bytes_eq};
ghost use Rattle.pg_io.specs.Files.{contents as contents_of, next_read, ReadGives};
ghost use Rattle.pg_io.specs.InMemory.{files_of, files_after};
ghost use Rattle.pg_bytes.specs.Counts.{Rose};

use crate::NoMemory;
use crate::calls::Calls;
use crate::files::{Files, ReadFail};
use std::alloc::Global;
use std::marker::Model;

/// Files in memory, and the numbers of the reads that are to fail.
#[derive(Drop)]
pub struct MemFiles {
    names: Vec<String>,
    contents: Vec<Vec<u8>>,
    calls: Calls,
    faults: u64,
}

impl Model for MemFiles {
    ghost use Rattle.std.specs.Prelude.{◌≡◌, vec_len};
    ghost use Rattle.pg_io.specs.InMemory.{FilesNow, files_of};

    ghost Value = { FilesNow };

    ghost view = { λ files. record {
      told = record {
        files = files_of files.names.items files.contents.items;
        made = files.calls.made;
        fails = files.calls.fails.items;
      };
      faults = files.faults;
    } };

    ghost invariant = { λ files. vec_len files.names ≡ vec_len files.contents };
}

impl MemFiles {
    /// Files of these names, each with the bytes at its place in `contents`. The reads whose numbers
    /// stand in `fails` are to fail: the first read is number 1.
    pub fn new(names: Vec<String>, contents: Vec<Vec<u8>>, fails: Vec<u64>) -> MemFiles
        requires { vec_len names ≡ vec_len contents }
        ensures files { result.told.files ≡ files_of names.items contents.items }
        ensures unread { result.told.made ≡ 0 }
        ensures fails { result.told.fails ≡ fails.items }
        ensures faultless { result.faults ≡ 0 }
    {
        MemFiles {
            names,
            contents,
            calls: Calls::new(fails),
            faults: 0,
        }
    }

    // The whole file that the next read finds.
    fn next_read(&self, name: &str) -> Option<&[u8]>
        ensures { option_copied result ≡ next_read self.now.told name.now }
    {
        if self.calls.next_fails() {
            return None;
        }
        find(&self.names, &self.contents, name)
    }
}

// The bytes of the first of these files that has the name.
fn find<'a>(names: &[String], contents: &'a [Vec<u8>], name: &str) -> Option<&'a [u8]>
    requires { length names.now ≡ length contents.now }
    ensures { option_copied result ≡ contents_of (files_of names.now contents.now) name.now }
{
    let at = place(names, name)?;
    Some(&contents[at])
}

// The place of the first of these names that is `name`.
fn place(names: &[String], name: &str) -> Option<usize>
    ensures { result ≡ position (λ own. bytes_eq (string_bytes own) name.now) names.now }
{
    names.iter().position(|own| own.as_str() == name)
}

// The first `most` bytes, or all.
fn first_part(alloc: Global, whole: &[u8], most: u64) -> Result<Vec<u8>, NoMemory>
    ensures { IfOk result (λ v. v.items ≡ take most whole.now) }
{
    let length = most.min(whole.len() as u64);
    Vec::from_slice(alloc, &whole[..length as usize])
}

impl Files for MemFiles {
    ghost tells = { λ files. Some files.told };

    ghost faults = { λ files. files.faults };

    fn read(&mut self, alloc: Global, name: &str, most: u64) -> Result<Vec<u8>, ReadFail>
        ensures gives { ReadGives self.old.told name.now most result (Some self.new.told) }
        ensures after { self.new ≡ files_after result self.old }
        ensures most { IfOk result (λ v. vec_len v ≤ most) }
        ensures later { self.old.faults ≤ self.new.faults }
        ensures failed { IsErrOf result ReadFail.Failed → Rose self.old.faults self.new.faults }
        ensures sound { OnOk result (self.new.faults ≡ self.old.faults) }
    {
        let Some(whole) = self.next_read(name) else {
            self.calls.count();
            self.faults = self.faults.saturating_add(1);
            return Err(ReadFail::Failed);
        };
        // Want of memory comes before anything has changed.
        let Ok(given) = first_part(alloc, whole, most) else {
            return Err(ReadFail::NoMemory);
        };
        self.calls.count();
        Ok(given)
    }
}
