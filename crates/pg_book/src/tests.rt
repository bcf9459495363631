ghost use Rattle.std.specs.Prelude.{◌≡◌, ◌+◌, ◌<◌, ◌≤◌, [], ◌∷◌, length, replicate, vec_len, IfOk};
ghost use Rattle.pg_book.specs.Needs.{rows};
ghost use Rattle.pg_book.specs.Opening.{IsOpenable};
ghost use Rattle.pg_book.specs.Models.{IsSpineAt, IsPassAt};
ghost use Rattle.pg_book.specs.Trials.{IsRun, HasRoomFor, IsDrawing, evenly};

use crate::{AllNeeds, Book, Needs, OpenFail, Pass, Receipt, Spine, Stamped};
use std::alloc::{AllocError, Global};
use std::marker::{Brand, PhantomData};
use std::sync::{Mutex, Wait};
use std::test::Fail;
use std::thread::{Threads, join};

fn of_entries(entries: u64) -> Needs
    ensures { result ≡ evenly entries }
{
    Needs {
        entries,
        regions: 0,
        records: 0,
        copies: 0,
        blobs: 0,
        numbers: 0,
    }
}

fn row_of(alloc: Global, parts: usize, entries: u64) -> Result<Vec<Needs>, AllocError>
    ensures { IfOk result (λ v. v.items ≡ replicate parts (evenly entries)) }
{
    let mut row = Vec::new(alloc);
    for _part in 0..parts {
        row.push(of_entries(entries))?;
    }
    Ok(row)
}

// Each caller needs so many entries on each part.
fn table(alloc: Global, callers: usize, parts: usize, entries: u64) -> Result<AllNeeds, AllocError>
    requires callers { (0 < callers) × (callers ≤ 100) }
    requires parts { parts ≤ 100 }
    requires entries { entries ≤ 1000 }
    ensures openable { IfOk result (λ v. IsOpenable (rows v)) }
    ensures room { IfOk result (λ v. HasRoomFor (rows v) entries) }
{
    let mut all = Vec::new(alloc);
    for _caller in 0..callers {
        all.push(row_of(alloc, parts, entries)?)?;
    }
    Ok(all)
}

// One draw of the caller on the part.
fn draw_on(
    book: &Book<u64>,
    spines: &mut Vec<Spine<u64>>,
    passes: &mut Vec<Pass<u64>>,
    used: usize,
    draw: (usize, usize, u64),
)
    requires run { IsRun book.now used spines.old.items passes.old.items }
    requires room { HasRoomFor book.now.view.needs (used + 1) }
    requires part { draw.0 < vec_len spines.old }
    requires caller { draw.1 < vec_len passes.old }
    ensures run { IsRun book.now (used + 1) spines.new.items passes.new.items }
{
    let _ = book;
    let spine = &mut spines[draw.0];
    let pass = &mut passes[draw.1];
    let _ = spine.draw(pass, draw.2, draw.2);
}

// The history of these draws, each a part, a caller and an entry.
fn history_of(
    alloc: Global,
    needs: AllNeeds,
    draws: &[(usize, usize, u64)],
) -> Option<Vec<Stamped<u64>>>
    requires openable { IsOpenable (rows needs) }
    requires room { HasRoomFor (rows needs) (length draws.now) }
{
    let Ok((book, mut spines, mut passes)) = Book::open(alloc, needs) else {
        return None;
    };
    for (used, draw) in draws.iter().enumerate() {
        if draw.0 >= spines.len() || draw.1 >= passes.len() {
            return None;
        }
        draw_on(&book, &mut spines, &mut passes, used, *draw);
    }
    book.close(spines, passes).ok()
}

// One caller, who needs two entries on part 0 and one on part 1.
fn two_and_one(alloc: Global) -> Result<AllNeeds, AllocError>
    ensures { IfOk result (λ v. rows v ≡ (evenly 2 ∷ evenly 1 ∷ []) ∷ []) }
{
    let mut row = row_of(alloc, 1, 2)?;
    row.push(of_entries(1))?;
    let mut all = Vec::new(alloc);
    all.push(row)?;
    Ok(all)
}

// The receipts of draws on the parts 0, 1 and 0, and the history.
fn three_draws(
    alloc: Global,
    needs: AllNeeds,
) -> Option<(Receipt<u64>, Receipt<u64>, Receipt<u64>, Vec<Stamped<u64>>)>
    requires { rows needs ≡ (evenly 2 ∷ evenly 1 ∷ []) ∷ [] }
{
    let Ok((book, mut spines, mut passes)) = Book::open(alloc, needs) else {
        return None;
    };
    if spines.len() != 2 || passes.len() != 1 {
        return None;
    }
    let mut second = spines.pop()?;
    let mut first = spines.pop()?;
    let mut pass = passes.pop()?;
    let a = first.draw(&mut pass, 10, 10);
    let b = second.draw(&mut pass, 20, 20);
    let c = first.draw(&mut pass, 30, 30);
    spines.push(first).ok()?;
    spines.push(second).ok()?;
    passes.push(pass).ok()?;
    let history = book.close(spines, passes).ok()?;
    Some((a, b, c, history))
}

#[test]
fn stamps_of_one_caller(rt: HostRuntime) -> Result<(), Fail> {
    let needs = two_and_one(rt.alloc())?;
    let Some((a, b, c, history)) = three_draws(rt.alloc(), needs) else {
        panic!(rt; "the book was not opened, or not closed")
    };
    assert_eq!(rt; (a.part, a.caller, a.stamp, a.entry), (0, 0, 0, 10));
    assert_eq!(rt; (b.part, b.caller, b.stamp, b.entry), (1, 0, 1, 20));
    assert_eq!(rt; (c.part, c.caller, c.stamp, c.entry), (0, 0, 2, 30));
    assert_eq!(rt; history.len(), 3);
    for (number, entry) in history.iter().enumerate() {
        assert!(rt; number < 3 && entry.stamp == number as u64 && entry.caller == 0);
        assert_eq!(rt; entry.entry, [10, 20, 30][number]);
        assert_eq!(rt; entry.part, [0, 1, 0][number]);
    }
    Ok(())
}

#[test]
fn nothing_drawn(rt: HostRuntime) -> Result<(), Fail> {
    let needs = table(rt.alloc(), 2, 3, 0)?;
    let Some(history) = history_of(rt.alloc(), needs, &[]) else {
        panic!(rt; "the book was not opened, or not closed")
    };
    assert_eq!(rt; history.len(), 0);
    Ok(())
}

#[test]
fn eight_callers_and_eighty_one_parts(rt: HostRuntime) -> Result<(), Fail> {
    let needs = table(rt.alloc(), 8, 81, 648)?;
    let mut draws = Vec::new(rt.alloc());
    for part in 0..81 {
        for caller in 0..8 {
            draws.push((part, caller, (8 * part + caller) as u64))?;
        }
    }
    assert!(rt; draws.len() == 648);
    let Some(history) = history_of(rt.alloc(), needs, draws.as_slice()) else {
        panic!(rt; "the book was not opened, or not closed")
    };
    assert_eq!(rt; history.len(), 648);
    for (number, entry) in history.iter().enumerate() {
        assert_eq!(rt;
            (entry.stamp as usize, entry.entry as usize),
            (number, number)
        );
        assert_eq!(rt;
            (entry.part as usize, entry.caller as usize),
            (number / 8, number % 8)
        );
    }
    Ok(())
}

// The receipt of a draw of the first caller, which the second then meets; the numbers of the part and
// of both callers; and the history.
fn drawn_and_met(
    alloc: Global,
    needs: AllNeeds,
) -> Option<(Receipt<u64>, (u32, u32, u32), Vec<Stamped<u64>>)>
    requires openable { IsOpenable (rows needs) }
    requires room { HasRoomFor (rows needs) 1 }
{
    let Ok((book, mut spines, mut passes)) = Book::open(alloc, needs) else {
        return None;
    };
    if spines.len() != 1 || passes.len() != 2 {
        return None;
    }
    let mut spine = spines.pop()?;
    let mut second = passes.pop()?;
    let mut first = passes.pop()?;
    let receipt = spine.draw(&mut first, 5, 5);
    spine.meet(&mut second);
    let numbers = (spine.part(), first.caller(), second.caller());
    spines.push(spine).ok()?;
    passes.push(first).ok()?;
    passes.push(second).ok()?;
    let history = book.close(spines, passes).ok()?;
    Some((receipt, numbers, history))
}

#[test]
fn a_meeting_draws_nothing(rt: HostRuntime) -> Result<(), Fail> {
    let needs = table(rt.alloc(), 2, 1, 1)?;
    let Some((receipt, numbers, history)) = drawn_and_met(rt.alloc(), needs) else {
        panic!(rt; "the book was not opened, or not closed")
    };
    assert_eq!(rt; numbers, (0, 0, 1));
    assert_eq!(rt;
        (receipt.part, receipt.caller, receipt.stamp, receipt.entry),
        (0, 0, 0, 5)
    );
    assert_eq!(rt; history.len(), 1);
    for entry in history.iter() {
        assert_eq!(rt;
            (entry.stamp, entry.part, entry.caller, entry.entry),
            (0, 0, 0, 5)
        );
    }
    Ok(())
}

#[test]
fn an_ordinary_open_finds_its_names(rt: HostRuntime) -> Result<(), Fail> {
    let needs = table(rt.alloc(), 3, 5, 2)?;
    match Book::<u64>::open(rt.alloc(), needs) {
        Ok((_book, spines, passes)) => {
            assert_eq!(rt; (spines.len(), passes.len()), (5, 3));
            Ok(())
        }
        Err(OpenFail::NoMemory { .. }) => panic!(rt; "no memory"),
        Err(OpenFail::Found { wanted, found, .. }) => {
            panic!(rt; "{found} was found where {wanted} was wanted")
        }
    }
}

// Which book it is. Each call picks it.
trait Naming {
    ghost use Rattle.atomic_table.specs.Seated.{TableId};

    ghost book: { TableId };
}

impl Naming for Brand {
    ghost use Rattle.pg_book.specs.Trials.{no_book};

    ghost book = { no_book };
}

// The spine of part 0, as it lies behind the part's lock.
#[derive(Drop)]
struct Kept<B: Naming> {
    spine: Spine<u64>,
    of: PhantomData<B>,
    ghost is_first: { IsSpineAt B.book 0 spine },
}

impl<B: Naming> Kept<B> {
    fn new(spine: Spine<u64>) -> Kept<B>
        requires { IsSpineAt B.book 0 spine }
    {
        Kept {
            spine,
            of: PhantomData,
        }
    }

    // The pass's next draw. Its entry is its number among the pass's draws.
    fn draw(&mut self, pass: &mut Pass<u64>, number: u64)
        requires number { number < 100 }
        requires drawing { IsDrawing B.book 100 number pass.old }
        ensures drawing { IsDrawing B.book 100 (number + 1) pass.new }
        ensures caller { pass.new.caller ≡ pass.old.caller }
    {
        let _ = self.spine.draw(pass, number, number);
    }
}

fn draw_many<B: Naming>(rt: &impl Wait, lock: &Mutex<Kept<B>>, mut pass: Pass<u64>) -> Pass<u64>
    requires { IsDrawing B.book 100 0 pass }
    ensures { IsPassAt B.book pass.caller result }
{
    for number in 0..100 {
        lock.lock(rt).draw(&mut pass, number);
    }
    pass
}

// Two threads draw 100 times each on one spine behind its lock.
fn drawn_by_two<B: Naming + Send + Sync, R: Threads + Wait + Sync>(
    rt: &R,
    spine: Spine<u64>,
    first: Pass<u64>,
    second: Pass<u64>,
) -> (Spine<u64>, Pass<u64>, Pass<u64>)
    requires spine { IsSpineAt B.book 0 spine }
    requires first { IsDrawing B.book 100 0 first }
    requires second { IsDrawing B.book 100 0 second }
    ensures spine { IsSpineAt B.book 0 result.0 }
    ensures first { IsPassAt B.book first.caller result.1 }
    ensures second { IsPassAt B.book second.caller result.2 }
{
    let kept = Mutex::new(Kept::<B>::new(spine));
    let lock = &kept;
    let (first, second) = join(
        rt,
        move || -> Pass<u64>
            requires { IsDrawing B.book 100 0 first }
            ensures { IsPassAt B.book first.caller result }
        { draw_many(rt, lock, first) },
        move || -> Pass<u64>
            requires { IsDrawing B.book 100 0 second }
            ensures { IsPassAt B.book second.caller result }
        { draw_many(rt, lock, second) },
    );
    let Kept { spine, of: _ } = kept.into_inner();
    (spine, first, second)
}

// The history of a book with one part, on which the two callers draw 100 times each, in a thread each.
fn history_of_two<R: Threads + Wait + Sync>(
    rt: &R,
    alloc: Global,
    needs: AllNeeds,
) -> Option<Vec<Stamped<u64>>>
    requires openable { IsOpenable (rows needs) }
    requires room { HasRoomFor (rows needs) 100 }
{
    let Ok((book, mut spines, mut passes)) = Book::open(alloc, needs) else {
        return None;
    };
    if spines.len() != 1 || passes.len() != 2 {
        return None;
    }
    let spine = spines.pop()?;
    let second = passes.pop()?;
    let first = passes.pop()?;
    let (spine, first, second) = drawn_by_two::<Brand, R>(rt, spine, first, second);
    spines.push(spine).ok()?;
    passes.push(first).ok()?;
    passes.push(second).ok()?;
    book.close(spines, passes).ok()
}

#[test]
fn two_threads_on_one_part(rt: HostRuntime) -> Result<(), Fail> {
    let needs = table(rt.alloc(), 2, 1, 100)?;
    let Some(history) = history_of_two(&rt, rt.alloc(), needs) else {
        panic!(rt; "the book was not opened, or not closed")
    };
    assert_eq!(rt; history.len(), 200);
    let mut next = [0, 0];
    for (number, entry) in history.iter().enumerate() {
        assert_eq!(rt; entry.stamp as usize, number);
        assert!(rt; entry.part == 0 && entry.caller < 2 && entry.entry < 100);
        assert_eq!(rt; entry.entry, next[entry.caller as usize]);
        next[entry.caller as usize] = entry.entry + 1;
    }
    assert_eq!(rt; next, [100, 100]);
    Ok(())
}
