ghost use Rattle.std.specs.Prelude.{◌≡◌};

use crate::FrameArena;
use std::marker::Send;
use std::test::Fail;

fn crosses<T: Send>(value: T) -> T
    ensures { result ≡ value }
{
    value
}

#[test]
fn three_frames_are_used_in_turn(rt: HostRuntime) -> Result<(), Fail> {
    let mut arena = crosses(FrameArena::open(rt.alloc(), 2, 4096)?);
    let fresh = arena.last();
    let a = arena.take_spare().ok_or("a")?;
    let b = arena.take_spare().ok_or("b")?;
    let c = arena.take_spare().ok_or("c")?;
    let fourth = arena.take_spare();
    arena.touch(a);
    arena.touch(b);
    arena.touch(c);
    let after_all = arena.last();
    arena.touch(a);
    let after_a = arena.last();
    arena.give_back(b);
    let after_b = arena.last();
    let spare = arena.take_spare();
    assert!(rt; a != b && b != c && c != a);
    assert_eq!(rt; (fresh, fourth), (None, None));
    assert_eq!(rt; [after_all, after_a, after_b], [Some(a), Some(b), Some(c)]);
    assert_eq!(rt; spare, Some(b));
    Ok(())
}

#[test]
fn frames_keep_their_bytes(rt: HostRuntime) -> Result<(), Fail> {
    for page in [4096, 16384] {
        let mut arena = FrameArena::open(rt.alloc(), 1, page)?;
        let first = arena.take_spare().ok_or("first")?;
        arena.bytes_mut(first).fill(7);
        let second = arena.take_spare().ok_or("second")?;
        arena.bytes_mut(second)[1] = 9;
        assert!(rt; arena.bytes(first).iter().all(|byte| *byte == 7));
        assert_eq!(rt; arena.bytes(second)[1], 9);
        assert_eq!(rt;
            arena
                .bytes(second)
                .iter()
                .filter(|byte| **byte != 0)
                .count(),
            1
        );
    }
    Ok(())
}
