//! The parts of a run.

ghost use Rattle.std.specs.Prelude.{◌≡◌, ◌<◌, ℕ, length, IfOk, IsErr, OnErr};
ghost use Rattle.pg_bytes.specs.PageSize.{IsPageSize};
ghost use Rattle.pg_digest.specs.Kinds.{Hash};
ghost use Rattle.cs_policy.specs.declared.entry.Event.TheVariants as event;
ghost use Rattle.cs_policy.specs.declared.entry.Place.TheVariants as place;
ghost use Rattle.pg_history.specs.Opening.{pages_of, range_of};
ghost use Rattle.pg_calls.specs.Parts.{PartsNow, HasRoom, Asks};
ghost use Rattle.pg_calls.specs.Asking.{event_of, TakesMemory, IsProper, IsProperOf, IsProperTrust};

use crate::NoMemory;
use crate::file_call::FileCall;
use cs_policy::{Entry, ProcEvent, TrustEvent, Who};
use pg_book::Receipt;
use pg_bytes::Range;

/// The files, the processes and the trust list of a run, which a worker asks for one event at a time.
///
/// Each call that asks gives the receipt of one entry more, with this worker and call, this place and this event, and a
/// reply of the event. Its stamp is above those of all entries that the worker made through these parts before.
pub trait Parts {
    /// The function of the digesters of the files.
    ghost hash: { Hash };

    /// What is seen of the parts: their opening, what each worker may use, and the entries that were made through them.
    ghost shows: { Self → PartsNow };

    /// Calls of this worker may go through them.
    ghost serves: { Self → ℕ → Type 0 };

    /// Asks a file. Want of memory comes only of an event that reads a signature or writes, and then nothing was made.
    fn file(&mut self, who: Who, file: u32, asked: FileCall) -> Result<Receipt<Entry>, NoMemory>
        requires serves { serves self.old who.worker }
        requires declared { file < length (shows self.old).numbers.files }
        requires proper { IsProper hash (shows self.old) who file asked }
        requires room { HasRoom (shows self.old) who (place.File file)
            (event.File (event_of asked)) }
        ensures asks { IfOk result (λ receipt. Asks (shows self.old) who (place.File file)
            (event.File (event_of asked)) receipt (shows self.new)) }
        ensures unmade { OnErr result (shows self.new ≡ shows self.old) }
        ensures memory { IsErr result → TakesMemory (event_of asked) }
        ensures serves { serves self.new who.worker };

    /// Asks a process.
    fn process(&mut self, who: Who, pid: u32, asked: ProcEvent) -> Receipt<Entry>
        requires serves { serves self.old who.worker }
        requires declared { pid < (shows self.old).numbers.processes }
        requires proper { IsProperOf (shows self.old).numbers asked }
        requires room { HasRoom (shows self.old) who (place.Process pid) (event.Proc asked) }
        ensures asks { Asks (shows self.old) who (place.Process pid) (event.Proc asked) result
            (shows self.new) }
        ensures serves { serves self.new who.worker };

    /// Asks the trust list.
    fn trust(&mut self, who: Who, asked: TrustEvent) -> Receipt<Entry>
        requires serves { serves self.old who.worker }
        requires proper { IsProperTrust (shows self.old).numbers asked }
        requires room { HasRoom (shows self.old) who place.Trust (event.Trust asked) }
        ensures asks { Asks (shows self.old) who place.Trust (event.Trust asked) result
            (shows self.new) }
        ensures serves { serves self.new who.worker };

    /// How many pages a file has, or 0 where there is no such file.
    fn file_pages(&self, file: u32) -> u64
        ensures pages { result ≡ pages_of (shows self.now).numbers file };

    /// Where a slice of a file lies, or `None` exactly where the file has no such slice that is a signed image.
    fn slice(&self, file: u32, slice: u32) -> Option<Range>
        ensures range { result ≡ range_of (shows self.now).numbers file slice };

    /// The size of a page in bytes.
    fn page_size(&self) -> u32
        ensures size { result ≡ (shows self.now).numbers.page_size }
        ensures known { IsPageSize result };

    /// Whether the policy lets ad hoc signatures be attached that no trust cache lists.
    fn adhoc(&self) -> bool
        ensures policy { result ≡ (shows self.now).numbers.adhoc };
}
