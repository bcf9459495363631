//! Runs whose workers are held at the gate.

use crate::tests::{FAULT, run_at_once, run_words};
use pg_bytes::Status;
use pg_io::{Gate, Moment};
use std::alloc::Global;
use std::sync::atomic::{AtomicBool, AtomicU32, Ordering};
use std::test::Fail;
use std::thread;
use std::time::{Clock, Duration};

/// Eight workers, each of whom faults a page of a file of its own for execution.
fn eight_files(alloc: Global) -> Result<String, Fail> {
    let mut scene = String::from_str(alloc, "scene 1\n")?;
    for _ in 0..8 {
        scene.push_str("raw A 12288 186\nprocess enforce\n")?;
    }
    scene.push_str("admit dd2875b1ed5de5cda3421fc7fe4869ab72113510\n")?;
    for n in 0..8 {
        let script = format!(in alloc;
            "script\nspawn p{n}\nmap p{n} 0x10000 f{n} 0 3 r-x private\nattach f{n} 0\nfault p{n} 0x10000 x\n"
        )?;
        scene.push_str(&script)?;
    }
    Ok(scene)
}

/// Holds each worker at one moment of one of its calls until so many workers are there.
#[derive(Drop)]
struct Meeting<'a, R> {
    rt: &'a R,
    workers: u32,
    call: u32,
    moment: Moment,
    there: AtomicU32,
    met: AtomicU32,
}

impl<'a, R: Clock> Meeting<'a, R> {
    /// So many workers are to meet at this moment of the call.
    fn new(rt: &'a R, workers: u32, call: u32, moment: Moment) -> Meeting<'a, R> {
        Meeting {
            rt,
            workers,
            call,
            moment,
            there: AtomicU32::new(0),
            met: AtomicU32::new(0),
        }
    }

    /// Waits until all are there, for 1,000,000 turns at most, and answers whether they were.
    fn are_all_there(&self) -> bool {
        for turn in 0..1_000_000 {
            if self.there.load(Ordering::SeqCst) == self.workers {
                return true;
            }
            if turn % 1000 == 999 {
                thread::sleep(self.rt, Duration::from_millis(5));
            }
        }
        false
    }
}

impl<R: Clock> Gate for Meeting<'_, R> {
    fn pass(&self, _worker: u32, call: u32, moment: Moment) {
        if call != self.call || moment != self.moment {
            return;
        }
        self.there.fetch_add(1, Ordering::SeqCst);
        if self.are_all_there() {
            self.met.fetch_add(1, Ordering::SeqCst);
        }
    }
}

#[test]
fn faults_on_eight_files_at_once(rt: HostRuntime) -> Result<(), Fail> {
    if !run_at_once(&rt) {
        return Ok(());
    }
    let scene = eight_files(rt.alloc())?;
    let gate = Meeting::new(&rt, 8, FAULT, Moment::Inside);
    let (status, text) = run_words(&rt, &["s"], &scene, &gate)?;
    assert_eq!(rt; status, Status::Done);
    assert_eq!(rt; gate.met.load(Ordering::SeqCst), 8);
    assert!(rt; text.ends_with("calls 32\ngiven 8\ndenied 0\n"));
    Ok(())
}

#[test]
fn made_scripts_at_once(rt: HostRuntime) -> Result<(), Fail> {
    if !run_at_once(&rt) {
        return Ok(());
    }
    let gate = Meeting::new(&rt, 4, 0, Moment::Answered);
    let (status, text) = run_words(&rt, &["gen", "1"], "", &gate)?;
    assert_eq!(rt; status, Status::Done);
    assert_eq!(rt; gate.met.load(Ordering::SeqCst), 4);
    assert!(rt; text.ends_with("calls 4012\ngiven 1441\ndenied 1570\n"));
    Ok(())
}

/// Two workers who fault pages of one file for execution.
const ONE_FILE: &str = "\
scene 1
raw A 12288 186
process enforce
process enforce
admit dd2875b1ed5de5cda3421fc7fe4869ab72113510
script
spawn p0
map p0 0x10000 f0 0 3 r-x private
attach f0 0
fault p0 0x10000 x
script
spawn p1
map p1 0x10000 f0 0 3 r-x private
attach f0 0
fault p1 0x11000 x
";

/// Holds a worker inside its fault for a while, so that the other comes to ask the same file, and keeps whether both were
/// inside at once, and whether a fault was answered before its worker was inside.
#[derive(Drop)]
struct Alone<'a, R> {
    rt: &'a R,
    came: AtomicU32,
    left: AtomicU32,
    answered: AtomicU32,
    were_together: AtomicBool,
    was_answered_early: AtomicBool,
}

impl<R: Clock> Alone<'_, R> {
    fn hold_inside(&self) {
        let others = self.left.load(Ordering::SeqCst);
        if self.came.fetch_add(1, Ordering::SeqCst) != others {
            self.were_together.store(true, Ordering::SeqCst);
        }
        thread::sleep(self.rt, Duration::from_millis(100));
        self.left.fetch_add(1, Ordering::SeqCst);
    }

    fn keep_answer(&self) {
        let answers = self.answered.fetch_add(1, Ordering::SeqCst);
        if self.left.load(Ordering::SeqCst) <= answers {
            self.was_answered_early.store(true, Ordering::SeqCst);
        }
    }
}

impl<R: Clock> Gate for Alone<'_, R> {
    fn pass(&self, _worker: u32, call: u32, moment: Moment) {
        match moment {
            Moment::Inside if call == FAULT => self.hold_inside(),
            Moment::Answered if call == FAULT => self.keep_answer(),
            _ => {}
        }
    }
}

#[test]
fn two_faults_of_one_file_in_turn(rt: HostRuntime) -> Result<(), Fail> {
    if !run_at_once(&rt) {
        return Ok(());
    }
    let gate = Alone {
        rt: &rt,
        came: AtomicU32::new(0),
        left: AtomicU32::new(0),
        answered: AtomicU32::new(0),
        were_together: AtomicBool::new(false),
        was_answered_early: AtomicBool::new(false),
    };
    let (status, text) = run_words(&rt, &["s"], ONE_FILE, &gate)?;
    assert_eq!(rt; status, Status::Done);
    assert_eq!(rt; gate.left.load(Ordering::SeqCst), 2);
    assert_eq!(rt; gate.answered.load(Ordering::SeqCst), 2);
    assert!(rt; !gate.were_together.load(Ordering::SeqCst));
    assert!(rt; !gate.was_answered_early.load(Ordering::SeqCst));
    assert!(rt; text.ends_with("calls 8\ngiven 2\ndenied 0\n"));
    Ok(())
}

/// One worker who faults a page.
const ONE_SCRIPT: &str = "\
scene 1
raw A 12288 186
process enforce
admit dd2875b1ed5de5cda3421fc7fe4869ab72113510
script
spawn p0
map p0 0x10000 f0 0 3 r-x private
attach f0 0
fault p0 0x10000 x
";

#[test]
fn one_script_on_the_thread_that_asks(rt: HostRuntime) -> Result<(), Fail> {
    let gate = Meeting::new(&rt, 1, FAULT, Moment::Inside);
    let (status, text) = run_words(&rt, &["s"], ONE_SCRIPT, &gate)?;
    assert_eq!(rt; status, Status::Done);
    assert_eq!(rt; gate.there.load(Ordering::SeqCst), 0);
    assert!(rt; text.ends_with("calls 4\ngiven 1\ndenied 0\n"));
    Ok(())
}
