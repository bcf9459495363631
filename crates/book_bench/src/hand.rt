//! Callers of a book on parts of their own.

ghost use Rattle.std.specs.Prelude.{◌≡◌, map, IfOk, All};
ghost use Rattle.std.specs.List.{zip, AllZip};
ghost use Rattle.book_bench.specs.Hands.{hand_of, CanDraw, DrewAll};

use pg_book::{Pass, Spine};
use std::alloc::{AllocError, Global};
use std::thread;
use std::thread::Threads;

/// A caller's pass, and the spine of the part on which it draws.
#[derive(Drop)]
pub struct Hand {
    pub spine: Spine<u64>,
    pub pass: Pass<u64>,
}

/// The k-th spine with the k-th pass.
pub fn paired(
    alloc: Global,
    spines: Vec<Spine<u64>>,
    passes: Vec<Pass<u64>>,
) -> Result<Vec<Hand>, AllocError>
    ensures { IfOk result (λ v. v.items ≡ map hand_of (zip spines.items passes.items)) }
{
    spines
        .into_iter()
        .zip(passes)
        .map(|(spine, pass)| Hand { spine, pass })
        .collect(alloc)
}

/// The spines and the passes of the hands, in their order.
pub fn apart(
    alloc: Global,
    hands: Vec<Hand>,
) -> Result<(Vec<Spine<u64>>, Vec<Pass<u64>>), AllocError>
    ensures spines { IfOk result (λ r. r.0.items ≡ map (λ h. h.spine) hands.items) }
    ensures passes { IfOk result (λ r. r.1.items ≡ map (λ h. h.pass) hands.items) }
{
    let mut spines = Vec::new(alloc);
    let mut passes = Vec::new(alloc);
    for Hand { spine, pass } in hands {
        spines.push(spine)?;
        passes.push(pass)?;
    }
    Ok((spines, passes))
}

/// Enters the numbers from 0 to `draws - 1`, in this order, as events of the hand's caller on the hand's part.
pub fn draw_all(mut hand: Hand, draws: u64) -> Hand
    requires { CanDraw draws hand }
    ensures { DrewAll draws hand result }
{
    for number in 0..draws {
        let _ = hand.spine.draw(&mut hand.pass, number, number);
    }
    hand
}

/// Draws `draws` times with each hand. The hands are the jobs of `thread::map_vec`.
pub fn draw_each<R: Threads + Sync>(
    rt: &R,
    hands: Vec<Hand>,
    draws: u64,
) -> Result<Vec<Hand>, AllocError>
    requires { All (CanDraw draws) hands.items }
    ensures { IfOk result (λ v. AllZip (DrewAll draws) hands.items v.items) }
{
    thread::map_vec(rt, hands, &|hand| draw_all(hand, draws))
}
