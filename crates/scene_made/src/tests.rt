use super::*;
use pg_digest::{Digester, HashKind, ShaDigester, digest_bytes};
use pg_io::Files;
use scene_text::print;
use std::alloc::Global;
use std::test::Fail;

/// For a number, the SHA-256 digest of the text of its scene, and those of its files, as another program gives them.
const KNOWN: [(u64, &str, [&str; 4]); 2] = [
    (
        1,
        "32ed61f5102e15a69d8374c8d8a9d2c2526cdb1d0b915c0506c9cd199bef560a",
        [
            "1846231ffeefc3d4556767c69b4083beaa5469762977d2015eea017f0e459040",
            "7a131539a5bbd9a9a47d3e4ec2d359abd77a169cb0bf25ed82c0c4283334f1a1",
            "a1631f11a383bf78be1b8f880dd3df4b1791bae2f9be39cf30c6589876e07487",
            "47c89be6ac752afac0b03553afb7024094d9b5360c2ca145ece7ddad08693b96",
        ],
    ),
    (
        1000,
        "f5e19e8d43e54e80f0322a7db5afa249492c28865d16138af014a8f4deeb6664",
        [
            "ea3d9238cc344c4e2bbd22c3c5eed91eed738fbb960acf16bd193f7fe6b312a1",
            "d9c8c6df582bd0e2534591c7c6918d5110ac064c508ffcd353166bd40262102a",
            "62ec9b2c123b82ecaf588a5374082346ceda237e5aa884f390e866af9b832569",
            "0208e4d39cf8e19f9fc07b8027f16e9ca8897de8d70ee808e693036943ad2377",
        ],
    ),
];

/// The SHA-256 digest of some bytes, in hex.
fn digest(alloc: Global, bytes: &[u8]) -> Result<String, Fail> {
    let mut text = String::new(alloc);
    for byte in digest_bytes(&ShaDigester::new().hash(HashKind::Sha256, bytes)) {
        text.push_str(&format!(in alloc; "{byte:02x}")?)?;
    }
    Ok(text)
}

#[test]
fn scenes_and_files_are_made(rt: HostRuntime) -> Result<(), Fail> {
    for (number, scene, contents) in KNOWN {
        let (made, mut files) = made(rt.alloc(), number)?;
        let text = print(rt.alloc(), &made)?;
        assert_eq!(rt; digest(rt.alloc(), &text)?.as_str(), scene);
        for (name, wanted) in ["gen0", "gen1", "gen2", "gen3"].into_iter().zip(contents) {
            let bytes = files.read(rt.alloc(), name, 1 << 20)?;
            assert_eq!(rt; digest(rt.alloc(), &bytes)?.as_str(), wanted, "in {name}");
        }
    }
    Ok(())
}
