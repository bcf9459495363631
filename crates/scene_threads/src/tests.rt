//! Runs of two workers, over files in memory.

use crate::csrun_main;
use cs_samples::DIRECTORY;
use pg_bytes::Status;
use pg_io::{Gate, MemFiles, MemSink, Moment, OpenGate};
use std::alloc::Global;
use std::sync::Wait;
use std::sync::atomic::{AtomicBool, Ordering};
use std::test::Fail;
use std::thread;
use std::thread::Threads;
use std::time::{Clock, Duration};

/// Pages of 4,096 bytes 0x41, 0x42 and 0x43, and a code directory of them.
fn three_pages(alloc: Global) -> Result<Vec<u8>, Fail> {
    let mut bytes = Vec::new(alloc);
    for byte in [0x41, 0x42, 0x43] {
        let page = vec![in alloc; byte; 4096]?;
        bytes.extend_from_slice(&page)?;
    }
    bytes.extend_from_slice(&DIRECTORY)?;
    Ok(bytes)
}

/// Runs the scene by these words, where its path is `s` and `A` is the file of three pages.
pub(crate) fn run_words<R: Threads + Wait + Sync + AllocGlobal, G: Gate + Sync>(
    rt: &R,
    words: &[&str],
    scene: &str,
    gate: &G,
) -> Result<(Status, String), Fail> {
    let alloc = rt.alloc();
    let mut given = Vec::new(alloc);
    for word in words {
        given.push(String::from_str(alloc, word)?)?;
    }
    let names = vec![in alloc;
        String::from_str(alloc, "A")?,
        String::from_str(alloc, "s")?,
    ]?;
    let scene = Vec::from_slice(alloc, scene.as_bytes())?;
    let contents = vec![in alloc; three_pages(alloc)?, scene]?;
    let mut files = MemFiles::new(names, contents, Vec::new(alloc));
    let mut out = MemSink::open(alloc, 1_048_576, usize::MAX, Vec::new(alloc))?;
    let status = csrun_main(rt, alloc, &given, &mut files, &mut out, gate);
    let text = String::from_str(alloc, str::from_utf8(out.bytes())?)?;
    Ok((status, text))
}

/// Whether scripts run at once here. With one processor they do not, and no worker comes to a gate.
pub(crate) fn run_at_once<R: Threads>(rt: &R) -> bool {
    thread::available_parallelism(rt).map_or(1, |count| count.get()) > 1
}

/// Two workers, each of whom faults a page of a file of its own for execution.
const TWO_FILES: &str = "\
scene 1
raw A 12288 186
raw A 12288 186
process enforce
process enforce
admit dd2875b1ed5de5cda3421fc7fe4869ab72113510
script
spawn p0
map p0 0x10000 f0 0 3 r-x private
attach f0 0
fault p0 0x10000 x
debug p0
script
spawn p1
map p1 0x10000 f1 0 3 r-x private
attach f1 0
fault p1 0x10000 x
";

/// The number of the fault in each script, and of the call behind it in that of worker 0.
pub(crate) const FAULT: u32 = 3;

const BEHIND: u32 = 4;

/// Holds worker 0 inside its fault until that of worker 1 was answered, and worker 1 inside its own until worker 0 is
/// inside. Worker 1 then waits until the call behind that fault of worker 0 was answered.
#[derive(Drop)]
struct Crossing<'a, R> {
    rt: &'a R,
    first_is_inside: AtomicBool,
    second_is_inside: AtomicBool,
    second_was_answered: AtomicBool,
    first_saw_answer: AtomicBool,
    second_saw_first: AtomicBool,
    first_went_on: AtomicBool,
    second_saw_more: AtomicBool,
}

impl<R: Clock> Crossing<'_, R> {
    /// Waits until this was set, for 1,000,000 turns at most, and answers whether it was.
    fn hold_until(&self, flag: &AtomicBool) -> bool {
        for turn in 0..1_000_000 {
            if flag.load(Ordering::SeqCst) {
                return true;
            }
            if turn % 1000 == 999 {
                thread::sleep(self.rt, Duration::from_millis(5));
            }
        }
        false
    }
}

impl<R: Clock> Gate for Crossing<'_, R> {
    fn pass(&self, worker: u32, call: u32, moment: Moment) {
        match (worker, call, moment) {
            (0, FAULT, Moment::Inside) => {
                self.first_is_inside.store(true, Ordering::SeqCst);
                let saw = self.hold_until(&self.second_was_answered);
                self.first_saw_answer.store(saw, Ordering::SeqCst);
            }
            (1, FAULT, Moment::Inside) => {
                self.second_is_inside.store(true, Ordering::SeqCst);
                let saw = self.hold_until(&self.first_is_inside);
                self.second_saw_first.store(saw, Ordering::SeqCst);
            }
            (1, FAULT, Moment::Answered) => {
                self.second_was_answered.store(true, Ordering::SeqCst);
                let saw = self.hold_until(&self.first_went_on);
                self.second_saw_more.store(saw, Ordering::SeqCst);
            }
            (0, BEHIND, Moment::Answered) => self.first_went_on.store(true, Ordering::SeqCst),
            _ => {}
        }
    }
}

#[test]
fn faults_on_two_files_at_once(rt: HostRuntime) -> Result<(), Fail> {
    if !run_at_once(&rt) {
        return Ok(());
    }
    let gate = Crossing {
        rt: &rt,
        first_is_inside: AtomicBool::new(false),
        second_is_inside: AtomicBool::new(false),
        second_was_answered: AtomicBool::new(false),
        first_saw_answer: AtomicBool::new(false),
        second_saw_first: AtomicBool::new(false),
        first_went_on: AtomicBool::new(false),
        second_saw_more: AtomicBool::new(false),
    };
    let (status, text) = run_words(&rt, &["s"], TWO_FILES, &gate)?;
    assert_eq!(rt; status, Status::Done);
    assert!(rt; gate.first_is_inside.load(Ordering::SeqCst));
    assert!(rt; gate.second_is_inside.load(Ordering::SeqCst));
    assert!(rt; gate.second_saw_first.load(Ordering::SeqCst));
    assert!(rt; gate.first_saw_answer.load(Ordering::SeqCst));
    assert!(rt; gate.second_saw_more.load(Ordering::SeqCst));
    // What was answered stands in the history before what was held.
    let (before, _) = text.split_once(" f0 enter ").unwrap_or(("", ""));
    assert!(rt; before.contains(" f1 enter 4096 0 x "), "{text}");
    assert!(rt; text.ends_with("calls 9\ngiven 2\ndenied 0\n"));
    Ok(())
}

/// A worker who starts a process, and another who starts another.
const TWO_STARTS: &str = "\
scene 1
process none
process none
script
spawn p0
script
spawn p1
";

const FIRST_STARTS: &str = "\
0 0.0 p0 start -> began 00000001
1 1.0 p1 start -> began 00000001
events 2
calls 2
given 0
denied 0
";

const SECOND_STARTS: &str = "\
0 1.0 p1 start -> began 00000001
1 0.0 p0 start -> began 00000001
events 2
calls 2
given 0
denied 0
";

#[test]
fn two_starts_in_either_order(rt: HostRuntime) -> Result<(), Fail> {
    let (status, text) = run_words(&rt, &["s"], TWO_STARTS, &OpenGate)?;
    assert_eq!(rt; status, Status::Done);
    assert!(rt;
        text.as_str() == FIRST_STARTS || text.as_str() == SECOND_STARTS,
        "{text}"
    );
    let (status, text) = run_words(&rt, &["solo", "s"], TWO_STARTS, &OpenGate)?;
    assert_eq!(rt; status, Status::Done);
    assert_eq!(rt; text.as_str(), FIRST_STARTS);
    let (status, text) = run_words(&rt, &["s", "solo"], TWO_STARTS, &OpenGate)?;
    assert_eq!(rt; status, Status::Usage);
    assert_eq!(rt; text.as_str(), USAGE);
    Ok(())
}

/// The first byte of page 0 is changed and put back ten times each, by one worker.
fn writes_and_faults(alloc: Global) -> Result<String, Fail> {
    let mut scene = String::from_str(
        alloc,
        "\
scene 1
raw A 12288 186
process enforce
admit dd2875b1ed5de5cda3421fc7fe4869ab72113510
script
",
    )?;
    for _ in 0..10 {
        scene.push_str("write f0 0 ff\nwrite f0 0 41\n")?;
    }
    scene.push_str("script\nspawn p0\nmap p0 0x10000 f0 0 3 r-x private\nattach f0 0\n")?;
    for _ in 0..20 {
        scene.push_str("fault p0 0x10000 x\n")?;
    }
    Ok(scene)
}

/// The reply to a fault on page 0 while its first byte is 0xff: the digests of the page as it is, and of its slot.
const DENIED: &str =
    " -> denied mismatch 0 0 8bfd6e275f094efc4cf12ec9b6227bdabf3f16e6637cf0c3d0d817d1e0e26a3c 6896d9ea3f73a4434f5832bc65714e7d066f177373f36f34dc8a6f735daa41b1";

/// What the lines of a journal say of page 0.
#[derive(Clone, Copy, Debug, PartialEq, Eq)]
struct Seen {
    writes: u32,
    given: u32,
    denied: u32,
    fits: bool,
}

/// Goes through the events of a journal: whether each stands at its stamp, and each fault's reply is that of the bytes
/// which the writes before it have left.
fn seen_in(alloc: Global, text: &str) -> Result<Seen, Fail> {
    let mut seen = Seen {
        writes: 0,
        given: 0,
        denied: 0,
        fits: true,
    };
    let mut changed = false;
    for (stamp, line) in text.lines().enumerate() {
        if line.starts_with("events ") {
            break;
        }
        let place = format!(in alloc; "{stamp} ")?;
        seen.fits = seen.fits && line.starts_with(place.as_str());
        if line.contains(" f0 write 0 ") {
            seen.writes = seen.writes.saturating_add(1);
            changed = line.ends_with(" ff -> written 1");
            seen.fits = seen.fits && (changed || line.ends_with(" 41 -> written 1"));
        } else if line.contains(" f0 enter 0 0 x ") && changed {
            seen.denied = seen.denied.saturating_add(1);
            seen.fits = seen.fits && line.ends_with(DENIED);
        } else if line.contains(" f0 enter 0 0 x ") {
            seen.given = seen.given.saturating_add(1);
            seen.fits = seen.fits && line.ends_with(" -> given");
        }
    }
    Ok(seen)
}

#[test]
fn twenty_writes_beside_twenty_faults(rt: HostRuntime) -> Result<(), Fail> {
    let alloc = rt.alloc();
    let scene = writes_and_faults(alloc)?;
    let (status, text) = run_words(&rt, &["s"], &scene, &OpenGate)?;
    assert_eq!(rt; status, Status::Done);
    let seen = seen_in(alloc, &text)?;
    assert!(rt; seen.fits, "{text}");
    assert_eq!(rt; seen.writes, 20);
    assert_eq!(rt; seen.given.saturating_add(seen.denied), 20);
    let sums = format!(in alloc; "calls 43\ngiven {}\ndenied {}\n", seen.given, seen.denied)?;
    assert!(rt; text.ends_with(sums.as_str()), "{text}");
    Ok(())
}

/// What is printed for words behind `gen`. The sums are those of a program that keeps the bytes of each page.
const MADE: [(&str, Status, &str); 5] = [
    (
        "1",
        Status::Done,
        "events 8605\ncalls 4012\ngiven 1441\ndenied 1570\n",
    ),
    (
        "1000",
        Status::Done,
        "events 8664\ncalls 4012\ngiven 1450\ndenied 1595\n",
    ),
    ("0", Status::Usage, USAGE),
    ("1001", Status::Usage, USAGE),
    ("01", Status::Usage, USAGE),
];

const USAGE: &str = "usage: csrun SCENE | csrun solo SCENE | csrun gen N\n";

#[test]
fn made_scenes_are_summed_up(rt: HostRuntime) -> Result<(), Fail> {
    for (number, status, text) in MADE {
        for _ in 0..2 {
            let (ended, printed) = run_words(&rt, &["gen", number], TWO_STARTS, &OpenGate)?;
            assert_eq!(rt; ended, status, "behind gen {number}");
            assert_eq!(rt; printed.as_str(), text, "behind gen {number}");
        }
    }
    Ok(())
}
