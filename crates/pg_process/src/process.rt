//! The process.

ghost use Rattle.std.specs.Prelude.{◌≡◌, ◌+◌, ◌<◌, ◌≤◌, IfOk, IsTrue};
ghost use Rattle.cs_policy.specs.declared.process.ProcEvent.TheVariants.{Start, Insert, Resolve, Remove, Debug, Punish, ClearValid, Exit};
ghost use Rattle.pg_bytes.specs.PageSize.{is_page_size};
ghost use Rattle.pg_process.specs.ProcessStep.{fresh, process_step};

use crate::mapping::{
    Mapping, drop_at, file_page, files_of, least_met, put, region_at, region_with,
};
use crate::state::{State, unless_alive, unless_standing};
use bitflags::Flags;
use cs_policy::{Access, ProcFlags, ProcReply, Prot};
pub use std::alloc::AllocError as NoMemory;
use std::alloc::Global;
use std::marker::Model;

/// The most regions that stand at a time.
pub const MAX_REGIONS: u32 = 256;

/// How many numbers a process has for the regions that it ever makes.
pub const REGION_NUMBERS: u32 = 4096;

/// A process, seen as its number, the size of its pages, its flags, its state, the count of regions that it ever made, and
/// its regions in the order of their addresses.
#[derive(Drop)]
pub struct Process {
    pid: u32,
    page: u32,
    declared: ProcFlags,
    flags: ProcFlags,
    state: State,
    made: u32,
    regions: Vec<Mapping>,
}

impl Model for Process {
    ghost use Rattle.pg_process.specs.ProcessStep.{PlainProcess};

    ghost Value = { PlainProcess };

    ghost use Rattle.pg_process.specs.Kept.{process_of, IsKept};

    ghost view = { process_of };

    ghost invariant = { IsKept };
}

impl Process {
    /// A process that was not started, with its number, its declared flags and the size of its pages, which is 4,096
    /// or 16,384 bytes. All memory that it needs is taken here: `NoMemory` comes where there is none for 256 regions.
    pub fn open(
        alloc: Global,
        pid: u32,
        declared: ProcFlags,
        page: u32,
    ) -> Result<Process, NoMemory>
        requires number { pid < 1048576 }
        requires size { IsTrue (is_page_size page) }
        ensures { IfOk result (λ p. p ≡ fresh pid declared page) }
    {
        Ok(Process {
            regions: Vec::with_capacity(alloc, MAX_REGIONS as usize)?,
            pid,
            page,
            declared,
            flags: declared,
            state: State::Fresh,
            made: 0,
        })
    }

    /// The flags that the process was declared with.
    pub fn declared(&self) -> ProcFlags
        ensures { result ≡ self.now.declared }
    {
        self.declared
    }

    /// Starts the process, once, with its declared flags and VALID. The reply is Began, or Started where it was
    /// started before.
    pub fn start(&mut self) -> ProcReply
        ensures reply { result ≡ (process_step self.old Start).0 }
        ensures after { self.new ≡ (process_step self.old Start).1 }
        ensures made { self.new.made ≡ self.old.made }
        ensures page { self.new.page ≡ self.old.page }
    {
        if self.state != State::Fresh {
            return ProcReply::Started { pid: self.pid };
        }
        self.state = State::Alive;
        self.flags = self.declared.union(ProcFlags::VALID);
        ProcReply::Began { flags: self.flags }
    }

    /// Maps `pages` pages of a file that has `file_pages`, from its page `first` on, at the address `at`. The reply
    /// is Dead or Killed where the process does not run, else OutOfFile where the file ends before these pages,
    /// else Overlap with the least number of the regions that these addresses meet, else Full where 256 regions
    /// stand, and else Inserted with the number of the new region.
    pub fn insert(
        &mut self,
        at: u64,
        file: u32,
        file_pages: u64,
        first: u64,
        pages: u64,
        prot: Prot,
        shared: bool,
    ) -> ProcReply
        requires file { file < 16 }
        requires pages { 0 < pages }
        requires numbers { self.old.made < 4096 }
        ensures reply { result ≡ (process_step self.old (Insert at file file_pages first pages prot shared)).0 }
        ensures after { self.new ≡ (process_step self.old (Insert at file file_pages first pages prot shared)).1 }
        ensures flags { self.new.flags ≡ self.old.flags }
        ensures made { self.new.made ≤ self.old.made + 1 }
        ensures page { self.new.page ≡ self.old.page }
    {
        if let Some(reply) = unless_alive(self.state) {
            return reply;
        }
        if u128::from(first) + u128::from(pages) > u128::from(file_pages) {
            return ProcReply::OutOfFile { pages: file_pages };
        }
        if let Some(id) = least_met(&self.regions, self.page, at, pages) {
            return ProcReply::Overlap { id };
        }
        if self.regions.len() == MAX_REGIONS as usize {
            return ProcReply::Full { limit: MAX_REGIONS };
        }
        let id = self.pid * REGION_NUMBERS + self.made;
        let mapping = Mapping {
            at,
            id,
            file,
            first,
            pages,
            prot,
            shared,
        };
        put(&mut self.regions, self.page, mapping);
        self.made += 1;
        ProcReply::Inserted { id }
    }

    /// Where an address lies. The reply is Dead or Killed where the process does not run, else NoMap where no
    /// region has the address, else Prot where its region does not permit the access, and else Region.
    pub fn resolve(&mut self, addr: u64, access: Access) -> ProcReply
        ensures reply { result ≡ (process_step self.old (Resolve addr access)).0 }
        ensures after { self.new ≡ (process_step self.old (Resolve addr access)).1 }
        ensures flags { self.new.flags ≡ self.old.flags }
        ensures made { self.new.made ≡ self.old.made }
        ensures page { self.new.page ≡ self.old.page }
    {
        if let Some(reply) = unless_alive(self.state) {
            return reply;
        }
        let Some(region) = region_with(&self.regions, self.page, addr) else {
            return ProcReply::NoMap;
        };
        if !region.prot.permits(access) {
            return ProcReply::Prot { id: region.id };
        }
        ProcReply::Region {
            id: region.id,
            file: region.file,
            page: file_page(&region, self.page, addr),
            flags: self.flags,
        }
    }

    /// Unmaps the region that begins at an address. The reply is Dead or Killed where the process does not run,
    /// else NoMap where no region begins there, and else Removed.
    pub fn remove(&mut self, at: u64) -> ProcReply
        ensures reply { result ≡ (process_step self.old (Remove at)).0 }
        ensures after { self.new ≡ (process_step self.old (Remove at)).1 }
        ensures flags { self.new.flags ≡ self.old.flags }
        ensures made { self.new.made ≡ self.old.made }
        ensures page { self.new.page ≡ self.old.page }
    {
        if let Some(reply) = unless_alive(self.state) {
            return reply;
        }
        let Some(region) = region_at(&self.regions, self.page, at) else {
            return ProcReply::NoMap;
        };
        drop_at(&mut self.regions, self.page, at);
        ProcReply::Removed {
            id: region.id,
            file: region.file,
        }
    }

    /// Sets DEBUGGED, for good. The reply is Dead or Killed where the process does not run, and else Debugged.
    pub fn debug(&mut self) -> ProcReply
        ensures reply { result ≡ (process_step self.old Debug).0 }
        ensures after { self.new ≡ (process_step self.old Debug).1 }
        ensures made { self.new.made ≡ self.old.made }
        ensures page { self.new.page ≡ self.old.page }
    {
        if let Some(reply) = unless_alive(self.state) {
            return reply;
        }
        self.flags.insert(ProcFlags::DEBUGGED);
        ProcReply::Debugged { flags: self.flags }
    }

    /// Punishes the process for a denied access. The reply is Dead or Killed where the process does not run, else
    /// Kill where KILL is set and DEBUGGED is not, which kills the process and sets KILLED, and else Spare.
    pub fn punish(&mut self) -> ProcReply
        ensures reply { result ≡ (process_step self.old Punish).0 }
        ensures after { self.new ≡ (process_step self.old Punish).1 }
        ensures made { self.new.made ≡ self.old.made }
        ensures page { self.new.page ≡ self.old.page }
    {
        if let Some(reply) = unless_alive(self.state) {
            return reply;
        }
        if !self.flags.contains(ProcFlags::KILL) || self.flags.contains(ProcFlags::DEBUGGED) {
            return ProcReply::Spare;
        }
        self.state = State::Killed;
        self.flags.insert(ProcFlags::KILLED);
        ProcReply::Kill
    }

    /// Clears VALID. The reply is Dead or Killed where the process does not run, and else Cleared.
    pub fn clear_valid(&mut self) -> ProcReply
        ensures reply { result ≡ (process_step self.old ClearValid).0 }
        ensures after { self.new ≡ (process_step self.old ClearValid).1 }
        ensures made { self.new.made ≡ self.old.made }
        ensures page { self.new.page ≡ self.old.page }
    {
        if let Some(reply) = unless_alive(self.state) {
            return reply;
        }
        self.flags.remove(ProcFlags::VALID);
        ProcReply::Cleared { flags: self.flags }
    }

    /// Ends the process, alive or killed, with its regions. The reply is Dead where it was not started or has
    /// exited before, and else Exited with the files of its regions.
    pub fn exit(&mut self) -> ProcReply
        ensures reply { result ≡ (process_step self.old Exit).0 }
        ensures after { self.new ≡ (process_step self.old Exit).1 }
        ensures flags { self.new.flags ≡ self.old.flags }
        ensures made { self.new.made ≡ self.old.made }
        ensures page { self.new.page ≡ self.old.page }
    {
        if let Some(reply) = unless_standing(self.state) {
            return reply;
        }
        let files = files_of(&self.regions);
        self.state = State::Gone;
        self.regions.clear();
        ProcReply::Exited { files }
    }
}
