ghost use Rattle.std.specs.Prelude.{◌≡◌, ◌++◌, IfOk, codes};
ghost use Rattle.std.specs.String.{string_bytes};
ghost use Rattle.cs_policy.specs.Refusal.{refusal_text};

use super::*;
use std::alloc::{AllocError, Global};
use std::test::Fail;

/// A line that tells of the refusal, by the text's contract.
fn line(alloc: Global, refusal: &Refusal) -> Result<String, AllocError>
    ensures { IfOk result (λ line. string_bytes line ≡ codes "refused " ++ refusal_text refusal.now) }
{
    format!(in alloc; "refused {refusal}")
}

#[test]
fn printed_refusals(rt: HostRuntime) -> Result<(), Fail> {
    for (family, number, a, b, text) in [
        (FAT_FAMILY, 1, 0, 0, "refused fat.1.0.0"),
        (FAT_FAMILY, 5, 0, 2, "refused fat.5.0.2"),
        (IMAGE_FAMILY, 7, 0, 0, "refused mach.7.0.0"),
        (
            SUPERBLOB_FAMILY,
            2,
            0xfade_0c02,
            0,
            "refused super.2.4208856066.0",
        ),
        (DIRECTORY_FAMILY, 11, 0, 0, "refused dir.11.0.0"),
        (SIGNATURE_FAMILY, 4, 0, 4096, "refused blob.4.0.4096"),
        (
            TRUST_FAMILY,
            3,
            u64::MAX,
            0,
            "refused trust.3.18446744073709551615.0",
        ),
    ] {
        let refusal = Refusal {
            family,
            number,
            a,
            b,
        };
        let printed = line(rt.alloc(), &refusal)?;
        assert_eq!(rt; printed.as_str(), text);
    }
    Ok(())
}
